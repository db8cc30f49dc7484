//! What a seat knows, the rule of the lock's table, and the steps on it. All of it is for
//! contracts: no value of these types is made.

use crate::story::Story;
use atomic_table::{Join, Play, Split, TableRule};
use std::collections::LinkedList;
use std::marker::PhantomData;
use std::snapshot::Snapshot;

/// What the first seat's last meeting met.
pub struct Meeting<E> {
    /// What it had seen itself.
    pub own: LinkedList<(u64, E)>,
    /// What the other seat had seen.
    pub theirs: LinkedList<(u64, E)>,
    /// The other seat's number.
    pub number: u64,
    /// The numbers that it had taken in before.
    pub before: LinkedList<u64>,
}

/// What a seat knows of the history, and whether it holds the lock.
pub struct View<E, C> {
    pub number: u64,
    /// False once the seat was taken in.
    pub is_live: bool,
    /// The constant of the story; none once the seat was taken in.
    pub constant: Option<C>,
    pub holds: bool,
    /// The beginning of the history that it has seen.
    pub seen: LinkedList<(u64, E)>,
    /// The number that the first seat gives away next.
    pub next: u64,
    /// How many seats the first seat split off and has not taken in.
    pub out: u64,
    /// The numbers of the seats that the first seat took in.
    pub taken: LinkedList<u64>,
    pub met: Meeting<E>,
}

/// The rule that the table keeps between any two steps.
pub struct Law<S> {
    story: PhantomData<S>,
}

impl<S: Story> TableRule<Option<S>, View<S::Entry, S::Constant>, Snapshot<S>> for Law<S> {
    ghost use Rattle.std.specs.Prelude.{Some, []};
    ghost use Rattle.turn_lock.specs.Rule.{Kept};
    ghost use Rattle.turn_lock.specs.Steps.{newcomer};

    ghost holds = { λ key. Kept S.constant S.history (S.constant key.value) };

    ghost first = { λ key. newcomer 0 (Some (S.constant key.value)) [] };
}

/// Takes the lock and the story, or finds the lock taken.
pub struct Take;

impl<S: Story> Play<Option<S>, View<S::Entry, S::Constant>> for Take {
    ghost use Rattle.turn_lock.specs.Steps.{Takes};

    ghost then = { Takes S.constant S.history };
}

/// Counts the pair that the story in the seat's hands made.
pub struct Grow;

impl<S: Story> Play<Option<S>, View<S::Entry, S::Constant>> for Grow {
    ghost use Rattle.turn_lock.specs.Steps.{Grows};

    ghost then = { Grows S.history };
}

/// Gives the lock and the story back.
pub struct Free;

impl<S, E, C> Play<Option<S>, View<E, C>> for Free {
    ghost use Rattle.turn_lock.specs.Steps.{Frees};

    ghost then = { Frees };
}

/// Reads the length of the history after a meeting.
pub struct Learn;

impl<S, E, C> Play<Option<S>, View<E, C>> for Learn {
    ghost use Rattle.turn_lock.specs.Steps.{Learns};

    ghost then = { Learns };
}

/// A seat splits another off, or takes one in.
pub struct Meet;

impl<E, C> Split<View<E, C>> for Meet {
    ghost use Rattle.turn_lock.specs.Steps.{view_after_split, view_split_off};

    ghost left = { view_after_split };

    ghost right = { view_split_off };
}

impl<E, C> Join<View<E, C>> for Meet {
    ghost use Rattle.turn_lock.specs.Steps.{view_met_with, spent};

    ghost both = { view_met_with };

    ghost spent = { spent };
}
