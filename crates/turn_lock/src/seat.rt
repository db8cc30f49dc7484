//! A user's place at the lock.
ghost use Rattle.std.specs.Prelude.{◌≡◌, ◌+◌};

use crate::story::Story;
use crate::view::View;
use std::marker::Model;

/// The token that the lock's table gives.
pub(crate) type Inner<S> = atomic_table::Seat<
    Option<S>,
    View<<S as Story>::Entry, <S as Story>::Constant>,
>;

/// A user's place at a turn lock: its number, and what it has seen of the history. One thread at a
/// time has it. The seat of number 0 came with the lock; it alone splits off others and takes them
/// in. Contracts see it as a `Sight`.
#[derive(Drop)]
pub struct Seat<S: Story> {
    pub(crate) inner: Inner<S>,
    pub(crate) number: u64,
    pub(crate) made: u64,
}

impl<S: Story> Model for Seat<S> {
    ghost use Rattle.std.specs.Prelude.{◌≡◌, ◌+◌, [], true, false};
    ghost use Rattle.turn_lock.specs.Sights.{Sight};
    ghost use Rattle.turn_lock.specs.Rule.{sight_of};
    ghost use Rattle.turn_lock.specs.Steps.{IsIdle};

    ghost Value = { Sight S.Entry S.Constant };

    ghost view = { λ s. sight_of s.inner.table_id s.inner.me.0 };

    ghost invariant = { λ s. IsIdle s.inner.me s.number s.made };
}

impl<S: Story> Seat<S> {
    /// The number that the calls of this seat's turns name. (no memory)
    pub fn number(&self) -> u64
        ensures { result ≡ self.now.number }
    {
        self.number
    }

    /// How many seats this one has split off so far. (no memory)
    pub fn made(&self) -> u64
        ensures { self.now.next ≡ result + 1 }
    {
        self.made
    }
}
