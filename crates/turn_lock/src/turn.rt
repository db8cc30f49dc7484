//! The lock.
ghost use Rattle.std.specs.Prelude.{◌≡◌, ◌+◌, ◌<◌, ◌^◌, ◌∷◌, [], length, true, false, Some, IfOk};
ghost use Rattle.turn_lock.specs.Pairs.{NoneOf, total};
ghost use Rattle.turn_lock.specs.Sights.{IsLegal, IsMeeting, IsTallied};
ghost use Rattle.turn_lock.specs.Sights.{fresh_seat, after_split, split_off, met_with, having_seen};
ghost use Rattle.turn_lock.specs.Steps.{hold, GrownIf, Won, Played, Tallied, AtRest, Ready};

use crate::seat::{Inner, Seat};
use crate::sleepers::Sleepers;
use crate::story::Story;
use crate::view::{Free, Grow, Law, Learn, Meet, Take, View};
use atomic_table::Table;
use crossbeam_utils::Backoff;
use std::alloc::Global;
use std::marker::Model;
use std::snapshot::Snapshot;
use std::sync::Wait;
use wio_core::NoMemory;

// How often a turn looks at a taken lock before it sleeps. The pauses between the looks grow, so
// that whoever has the lock isn't kept from it by them.
const LOOKS: u32 = 30;

// The words of the table.
const LOCK: usize = 0;

const LENGTH: usize = 1;

// The slot with the story.
const STORY: usize = 0;

/// A lock around a story. Contracts see which lock it is: a seat is of the lock `t` where its
/// `turn` is `t`.
#[derive(Drop)]
pub struct Turn<S: Story> {
    // First, since its unused bytes keep the table's addresses, which every look reads, off the
    // lines of what was allocated before, which are the words and the story that each turn writes.
    sleepers: Sleepers,
    table: Table<Option<S>, View<S::Entry, S::Constant>, Snapshot<S>, Law<S>, Global>,
}

impl<S: Story> Model for Turn<S> {
    ghost use Rattle.std.specs.Prelude.{◌≡◌};
    ghost use Rattle.atomic_table.specs.Seated.{TableId};

    ghost Value = { TableId };

    ghost view = { λ t. t.table.shared.table_id };

    ghost invariant = { λ t. (t.table.shared.table_id.words ≡ 2) ×
        (t.table.shared.table_id.slots ≡ 1) };
}

impl<S: Story> Turn<S> {
    /// A lock around `story`, whose history is empty, and the seat of number 0. `NoMemory` drops
    /// the story.
    pub fn new(alloc: Global, story: S) -> Result<(Turn<S>, Seat<S>), NoMemory>
    where
        S: Drop,
        requires { S.history story ≡ [] }
        ensures { IfOk result (λ made.
            made.1 ≡ fresh_seat made.0 0 (Some (S.constant story)) []) }
    {
        let about = Snapshot::of(&story);
        let mut slots = Vec::new(alloc);
        slots.push(Some(story))?;
        match Table::new(alloc, &[0, 0], slots, &about) {
            Ok((table, inner)) => Ok((
                Turn {
                    sleepers: Sleepers::new(),
                    table,
                },
                Seat {
                    inner,
                    number: 0,
                    made: 0,
                },
            )),
            Err(_refused) => Err(NoMemory),
        }
    }

    /// Splits a seat off the first one. It gets the next number, and has seen what the first has.
    /// (no memory)
    pub fn split(&self, seat: &mut Seat<S>) -> Seat<S>
        requires own { seat.old.turn ≡ self.now }
        requires first { seat.old.number ≡ 0 }
        requires room { seat.old.next < 2 ^ 64 }
        ensures left { seat.new ≡ after_split seat.old }
        ensures right { result ≡ split_off seat.old }
        ensures fresh { NoneOf result.number result.seen }
        ensures tallied { IsTallied seat.new }
    {
        let inner = self.table.shared.split_seat::<Meet>(&mut seat.inner);
        seat.made += 1;
        Seat {
            inner,
            number: seat.made,
            made: 0,
        }
    }

    /// Takes another seat in: the first seat has then seen all that both had. (no memory)
    pub fn meet(&self, seat: &mut Seat<S>, other: Seat<S>)
        requires own { (seat.old.turn ≡ self.now) × (other.turn ≡ self.now) }
        requires first { seat.old.number ≡ 0 }
        ensures met { seat.new ≡ met_with seat.old other }
        ensures both { IsMeeting seat.old other seat.new.seen }
        ensures tallied { IsTallied seat.new }
    {
        let Seat {
            inner,
            number: _,
            made: _,
        } = other;
        self.table.shared.join_seat::<Meet>(&mut seat.inner, inner);
        self.table.shared.load::<Learn>(&mut seat.inner, LENGTH);
    }

    /// Waits for the lock, plays the call and frees the lock. (Wait: it promises what it does if it
    /// returns.)
    pub fn turn<R: Wait>(&self, rt: &R, seat: &mut Seat<S>, call: &mut S::Call) -> S::Reply
        requires own { seat.old.turn ≡ self.now }
        requires number { S.number call.old ≡ seat.old.number }
        ensures seat { seat.new ≡ having_seen seat.old seat.new.seen }
        ensures legal { IsLegal S.plays seat.old call.old seat.new.seen call.new result }
        ensures fits { length seat.new.seen < 2 ^ 64 }
        ensures tallied { seat.new.number ≡ 0 → IsTallied seat.new }
    {
        self.take(rt, &mut seat.inner);
        let (reply, grew) = self.play_held(&mut seat.inner, call);
        self.free(&mut seat.inner, grew);
        reply
    }

    /// Ends the lock with its first seat, when all others have been taken in, and gives the story
    /// back. (no memory)
    pub fn close(self, seat: Seat<S>) -> S
        requires own { seat.turn ≡ self }
        requires first { seat.number ≡ 0 }
        requires all { seat.out ≡ 0 }
        ensures constant { seat.constant ≡ Some (S.constant result) }
        ensures history { S.history result ≡ seat.seen }
        ensures total { total (0 ∷ seat.taken) seat.seen ≡ length seat.seen }
    {
        let Turn { sleepers: _, table } = self;
        let Seat {
            inner,
            number: _,
            made: _,
        } = seat;
        let mut closed = table.close_with(inner);
        let slot = closed.take(STORY);
        closed.free();
        let Some(story) = slot else { unreachable!() };
        story
    }
}

// The parts of a turn.
impl<S: Story> Turn<S> {
    // Takes the lock, and the story with it.
    fn take<R: Wait>(&self, rt: &R, seat: &mut Inner<S>)
        requires own { seat.old.table_id ≡ self.now }
        requires rest { AtRest seat.old.me }
        ensures same { (seat.new.table_id ≡ seat.old.table_id) × (seat.new.id ≡ seat.old.id) }
        ensures won { Won S.constant S.history seat.old.me seat.new.me }
    {
        let backoff = Backoff::new();
        let mut has_slept = false;
        for _ in rt.forever() {
            if self.table.shared.compare_exchange::<Take>(seat, LOCK, 0, 1) == 0 {
                self.announce_if(has_slept);
                return;
            }
            has_slept = self.wait(rt, &backoff) || has_slept;
        }
        unreachable!()
    }

    // Who slept for its turn can't know whether others still do, so the end of its turn wakes one.
    fn announce_if(&self, has_slept: bool) {
        if has_slept {
            self.sleepers.announce();
        }
    }

    // Looks at the lock for a while, and then sleeps. True if it slept.
    fn wait<R: Wait>(&self, rt: &R, backoff: &Backoff) -> bool {
        for _ in 0..LOOKS {
            if self.table.shared.peek(LOCK) == 0 {
                return false;
            }
            backoff.spin();
        }
        self.sleep(rt);
        backoff.reset();
        true
    }

    // The lock is looked at again after the announcement: who frees it later than that wakes a
    // thread.
    fn sleep<R: Wait>(&self, rt: &R) {
        self.sleepers.announce();
        if self.table.shared.peek(LOCK) != 0 {
            self.sleepers.sleep(rt);
        }
    }

    // Plays the story where it lies in the seat's hands, and says whether its history is longer by
    // it.
    fn play_held(&self, seat: &mut Inner<S>, call: &mut S::Call) -> (S::Reply, bool)
        requires own { seat.old.table_id ≡ self.now }
        requires held { (x : S) × (seat.old.me.1 ≡ (0, Some x) ∷ []) }
        ensures same { (seat.new.table_id ≡ seat.old.table_id) × (seat.new.id ≡ seat.old.id) ×
            (seat.new.me.0 ≡ seat.old.me.0) }
        ensures played { (x : S) × (y : S) × (seat.old.me.1 ≡ (0, Some x) ∷ []) ×
            (seat.new.me.1 ≡ (0, Some y) ∷ []) ×
            Played S.constant S.history S.number S.plays x call.old y call.new result.0 result.1 }
    {
        let slot = seat.slot_mut(&self.table.shared, STORY);
        let Some(story) = slot else { unreachable!() };
        play_story(story, call)
    }

    // Counts the pair that the story in the seat's hands made, if it made one.
    fn count(&self, seat: &mut Inner<S>, grew: bool)
        requires own { seat.old.table_id ≡ self.now }
        requires ready { (x : S) × Ready S.history seat.old.me x grew }
        ensures same { (seat.new.table_id ≡ seat.old.table_id) × (seat.new.id ≡ seat.old.id) }
        ensures seen { (x : S) → seat.old.me.1 ≡ (0, Some x) ∷ [] →
            seat.new.me ≡ (hold seat.old.me.0 true (S.history x), seat.old.me.1) }
    {
        if grew {
            self.table.shared.fetch_add::<Grow>(seat, LENGTH, 1);
        }
    }

    // Gives the story and the lock back, and wakes a thread that waits.
    fn free(&self, seat: &mut Inner<S>, grew: bool)
        requires own { seat.old.table_id ≡ self.now }
        requires ready { (x : S) × Ready S.history seat.old.me x grew ×
            (seat.old.me.0.constant ≡ Some (S.constant x)) }
        ensures same { (seat.new.table_id ≡ seat.old.table_id) × (seat.new.id ≡ seat.old.id) }
        ensures freed { (x : S) → seat.old.me.1 ≡ (0, Some x) ∷ [] →
            seat.new.me ≡ (hold seat.old.me.0 false (S.history x), []) }
        ensures tallied { Tallied seat.new.me.0 }
    {
        self.count(seat, grew);
        self.table.shared.swap::<Free>(seat, LOCK, 0);
        self.sleepers.wake_one();
    }
}

// A play, and whether the history is longer by it.
fn play_story<S: Story>(story: &mut S, call: &mut S::Call) -> (S::Reply, bool)
    ensures { Played S.constant S.history S.number S.plays
        story.old call.old story.new call.new result.0 result.1 }
{
    let before = story.length();
    let reply = story.play(call);
    let after = story.length();
    (reply, before < after)
}
