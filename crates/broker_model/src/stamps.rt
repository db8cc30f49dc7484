//! When each entry of a journal came, and through which link.
use crate::journal::Entry;
use broker_steps::{ShellStep, Stamp};
use out_store::LongList;
use relay_model::EndCause;
use std::alloc::Global;
use std::marker::Model;
use wio_core::NoMemory;

impl Entry {
    ghost use Rattle.std.specs.Prelude.{◌≡◌};
    ghost use Rattle.broker_model.specs.Stamps.{follows, said_moment};

    // Whether it is an end that follows from a step.
    fn follows(&self) -> bool
        ensures { result ≡ follows self.now }
    {
        match self {
            Entry::End { cause, .. } => match cause {
                EndCause::Bad | EndCause::Full => true,
                EndCause::Gone => false,
            },
            _ => false,
        }
    }

    // The moment that it says, or 0.
    fn said_moment(&self) -> u64
        ensures { result ≡ said_moment self.now }
    {
        match self {
            Entry::Shell(step) => match step {
                ShellStep::At { moment } => *moment,
                _ => 0,
            },
            _ => 0,
        }
    }
}

/// The stamps of all entries of a journal. Their numbers are those of the entries, from 1, the
/// oldest.
///
/// The oldest can be let go, as a journal's entries. In contracts it is all its stamps, the newest
/// first, how many of the oldest were let go, and how many more may be put without taking memory. A
/// stamp takes 16 bytes.
#[derive(Drop)]
pub struct StampList {
    stamps: LongList<Stamp>,
    // The moment of the newest entry, or 0.
    newest_moment: u64,
}

impl Model for StampList {
    ghost use Rattle.std.specs.Prelude.{◌≡◌};
    ghost use Rattle.broker_model.specs.Stamps.{StampsKept, latest};

    ghost Value = { StampsKept };

    ghost view = { λ l. record {
      stamps = l.stamps.items;
      kept_from = l.stamps.kept_from;
      room = l.stamps.room;
    } };

    ghost invariant = { λ l. l.newest_moment ≡ latest l.stamps.items };
}

impl StampList {
    ghost use Rattle.std.specs.Prelude.{◌≡◌, ◌+◌, ◌<◌, ◌≤◌, ◌↔◌, [], ◌∷◌, length, min, max};
    ghost use Rattle.std.specs.Prelude.{IfOk, OnOk, IsSome};
    ghost use Rattle.std.specs.Option.{option_copied};
    ghost use Rattle.out_store.specs.Long.{kept_at};
    ghost use Rattle.broker_model.specs.Recorded.{entry_at};
    ghost use Rattle.broker_model.specs.Stamps.{latest, stamp_of};

    /// No stamps. Takes no memory.
    pub fn new(alloc: Global) -> StampList
        ensures empty { result.stamps ≡ [] }
        ensures kept { result.kept_from ≡ 0 }
    {
        StampList {
            stamps: LongList::new(alloc),
            newest_moment: 0,
        }
    }

    /// How many stamps there are, those that were let go among them.
    pub fn len(&self) -> u32
        ensures number { result ≡ length self.now.stamps }
        ensures within { self.now.kept_from ≤ length self.now.stamps }
    {
        self.stamps.len()
    }

    /// How many of the oldest stamps were let go: 0 to `len`.
    pub fn kept_from(&self) -> u32
        ensures number { result ≡ self.now.kept_from }
        ensures within { result ≤ length self.now.stamps }
    {
        self.stamps.kept_from()
    }

    /// The stamp of the entry with a number, from 1, the oldest, to `len`; none has any other
    /// number, and none is answered that was let go. Takes no memory.
    pub fn entry(&self, number: u32) -> Option<&Stamp>
        ensures value { option_copied result ≡ kept_at self.now.kept_from self.now.stamps number }
    {
        self.stamps.item(number)
    }

    /// The same stamps in memory of their own, without those that were let go, which are gone in the
    /// copy too. `NoMemory` is its one error.
    pub fn copy(&self, alloc: Global) -> Result<StampList, NoMemory>
        ensures value { IfOk result (λ list. list.stamps ≡ self.now.stamps) }
        ensures kept { IfOk result (λ list. list.kept_from ≡ self.now.kept_from) }
    {
        Ok(StampList {
            stamps: self.stamps.copy(alloc)?,
            newest_moment: self.newest_moment,
        })
    }

    /// Makes room for so many more stamps. `NoMemory` is its one error, after which there is the
    /// room that there was.
    pub fn reserve(&mut self, more: usize) -> Result<(), NoMemory>
        ensures same { self.new.stamps ≡ self.old.stamps }
        ensures kept { self.new.kept_from ≡ self.old.kept_from }
        ensures room { OnOk result (more ≤ self.new.room) }
        ensures never_less { self.old.room ≤ self.new.room }
    {
        self.stamps.reserve(more)?;
        Ok(())
    }

    /// The stamp of one more entry, for which its call gave a stamp; an end that follows has none of
    /// what was given. Moments never fall.
    pub fn next(&self, entry: &Entry, given: Stamp) -> Stamp
        ensures value { result ≡ stamp_of entry.now given self.now.stamps }
    {
        let latest = self.newest_moment;
        if entry.follows() {
            return Stamp {
                moment: latest,
                author: 0,
            };
        }
        Stamp {
            moment: given.moment.max(entry.said_moment().max(latest)),
            author: given.author,
        }
    }

    /// Puts one more stamp. Asks that there is room, and that the numbers reach. Takes no memory.
    pub fn push(&mut self, stamp: Stamp)
        requires room { 0 < self.old.room }
        requires number { length self.old.stamps < 4294967295 }
        ensures put { self.new.stamps ≡ stamp ∷ self.old.stamps }
        ensures kept { self.new.kept_from ≡ self.old.kept_from }
        ensures room_left { self.old.room ≤ self.new.room + 1 }
    {
        self.newest_moment = stamp.moment;
        self.stamps.push(stamp);
    }

    /// Lets the oldest kept stamp go, and hands it out; none where none is kept.
    pub fn pop_oldest(&mut self) -> Option<Stamp>
        ensures value { result ≡ entry_at self.old.stamps (self.old.kept_from + 1) }
        ensures some { IsSome result ↔ (self.old.kept_from < length self.old.stamps) }
        ensures same { self.new.stamps ≡ self.old.stamps }
        ensures kept { self.new.kept_from ≡ min (self.old.kept_from + 1)
            (length self.old.stamps) }
        ensures never_less { self.old.room ≤ self.new.room }
    {
        self.stamps.pop_oldest()
    }

    /// Lets the stamps of the entries up to a number go, all where it is `len` or more: they leave
    /// memory, and stay in the list for contracts. Those that went before stay gone.
    pub fn let_go(&mut self, number: u32)
        ensures same { self.new.stamps ≡ self.old.stamps }
        ensures kept { self.new.kept_from ≡ max self.old.kept_from
            (min number (length self.old.stamps)) }
        ensures never_less { self.old.room ≤ self.new.room }
    {
        self.stamps.let_go(number);
    }
}
