//! What happened, step by step.
use broker_steps::{Limits, ShellStep, TokenList};
use out_store::{LongList, OwnCopy};
use relay_model::{EndCause, Role};
use std::alloc::Global;
use std::marker::Model;
use wio_core::NoMemory;
use wl_wire::Bytes;

/// One step of all that happened. Peers are numbered from 1 in the order in which they joined.
#[derive(Debug, Drop)]
pub enum Entry {
    /// A peer joined.
    Join(Role),
    /// A whole message of a peer: the object that it was sent to, its opcode and its arguments'
    /// bytes.
    Message {
        peer: u32,
        id: u32,
        opcode: u16,
        body: Bytes,
    },
    /// The tokens of the descriptors that came with one frame of a peer.
    Tokens {
        peer: u32,
        tokens: TokenList,
    },
    /// The header of a message with a bad size.
    BadSize {
        peer: u32,
        head: [u8; 8],
    },
    /// A peer ended.
    End {
        peer: u32,
        cause: EndCause,
    },
    /// The shell said something.
    Shell(ShellStep),
    /// So many of the bytes that were stored for a peer were taken.
    Took {
        peer: u32,
        bytes: u32,
    },
}

impl Entry {
    ghost use Rattle.std.specs.Prelude.{◌≡◌, IfOk};
    ghost use Rattle.broker_model.specs.Limits.{is_end, weight_of};

    /// The same entry in memory of its own. `NoMemory` is its one error.
    pub fn copy(&self, alloc: Global) -> Result<Entry, NoMemory>
        ensures value { IfOk result (λ entry. entry ≡ self.now) }
    {
        match self {
            Entry::Join(role) => Ok(Entry::Join(*role)),
            Entry::Message {
                peer,
                id,
                opcode,
                body,
            } => Ok(Entry::Message {
                peer: *peer,
                id: *id,
                opcode: *opcode,
                body: body.copy(alloc)?,
            }),
            Entry::Tokens { peer, tokens } => Ok(Entry::Tokens {
                peer: *peer,
                tokens: tokens.copy(alloc)?,
            }),
            Entry::BadSize { peer, head } => Ok(Entry::BadSize {
                peer: *peer,
                head: *head,
            }),
            Entry::End { peer, cause } => Ok(Entry::End {
                peer: *peer,
                cause: *cause,
            }),
            Entry::Shell(step) => Ok(Entry::Shell(*step)),
            Entry::Took { peer, bytes } => Ok(Entry::Took {
                peer: *peer,
                bytes: *bytes,
            }),
        }
    }

    fn is_end(&self) -> bool
        ensures { result ≡ is_end self.now }
    {
        matches!(self, Entry::End { .. })
    }

    fn weight(&self) -> u64
        ensures { result ≡ weight_of self.now }
    {
        match self {
            Entry::End { .. } => 0,
            Entry::Message { body, .. } => 16 + body.as_slice().len() as u64,
            Entry::Tokens { tokens, .. } => 16 + 4 * tokens.as_slice().len() as u64,
            Entry::Join(_) | Entry::BadSize { .. } | Entry::Shell(_) | Entry::Took { .. } => 16,
        }
    }
}

impl OwnCopy for Entry {
    fn own_copy(&self, alloc: Global) -> Result<Entry, NoMemory> {
        self.copy(alloc)
    }
}

/// How much a journal holds, entries that were let go among it.
#[derive(Clone, Copy, Debug, PartialEq, Eq)]
pub struct Kept {
    /// The entries that aren't ends of peers.
    pub entries: u32,
    /// What all entries weigh: 16 each, a message the bytes of its body besides, tokens 4 each
    /// besides; an end weighs nothing. At most 536,870,912.
    pub weight: u64,
}

/// All steps so far. Their numbers go from 1, the oldest, and each keeps its own.
///
/// The oldest can be let go: they leave memory, and all else goes on counting them. In contracts it
/// is all its entries, the newest first, how many of the oldest were let go, and how many more may be
/// put without taking memory. No call but `copy` and `let_go` goes over entries.
#[derive(Drop)]
pub struct Journal {
    entries: LongList<Entry>,
    kept: Kept,
    // Whether the newest entry is the end of a peer.
    newest_is_end: bool,
}

impl Model for Journal {
    ghost use Rattle.std.specs.Prelude.{◌≡◌, ◌≤◌};
    ghost use Rattle.broker_model.specs.Recorded.{Recorded};
    ghost use Rattle.broker_model.specs.Limits.{number_counted, weight, ends_in_end};

    ghost Value = { Recorded };

    ghost view = { λ j. record {
      entries = j.entries.items;
      kept_from = j.entries.kept_from;
      room = j.entries.room;
    } };

    ghost invariant = { λ j. (j.kept.entries ≡ number_counted j.entries.items)
        × (j.kept.weight ≡ weight j.entries.items)
        × (j.kept.weight ≤ 536870912)
        × (j.newest_is_end ≡ ends_in_end j.entries.items) };
}

impl Journal {
    ghost use Rattle.std.specs.Prelude.{◌≡◌, ◌+◌, ◌<◌, ◌≤◌, ◌↔◌, [], ◌∷◌, length, min, max, false};
    ghost use Rattle.std.specs.Prelude.{IfOk, OnOk, IsSome};
    ghost use Rattle.std.specs.Option.{option_copied};
    ghost use Rattle.out_store.specs.Long.{kept_at};
    ghost use Rattle.broker_model.specs.Recorded.{entry_at};
    ghost use Rattle.broker_model.specs.Limits.{is_end, number_counted, weight_of, weight, is_full};
    ghost use Rattle.broker_model.specs.Limits.{ends_in_end};

    /// A journal of no entries. Takes no memory.
    pub fn new(alloc: Global) -> Journal
        ensures empty { result.entries ≡ [] }
        ensures kept { result.kept_from ≡ 0 }
    {
        Journal {
            entries: LongList::new(alloc),
            kept: Kept {
                entries: 0,
                weight: 0,
            },
            newest_is_end: false,
        }
    }

    /// How many entries there are, ends of peers and those that were let go among them.
    pub fn len(&self) -> u32
        ensures number { result ≡ length self.now.entries }
        ensures within { self.now.kept_from ≤ length self.now.entries }
    {
        self.entries.len()
    }

    /// How many of the oldest entries were let go: 0 to `len`.
    pub fn kept_from(&self) -> u32
        ensures number { result ≡ self.now.kept_from }
        ensures within { result ≤ length self.now.entries }
    {
        self.entries.kept_from()
    }

    /// The entry with a number, from 1, the oldest, to `len`; none has any other number, and none is
    /// answered that was let go.
    pub fn entry(&self, number: u32) -> Option<&Entry>
        ensures value { option_copied result ≡ kept_at self.now.kept_from self.now.entries number }
    {
        self.entries.item(number)
    }

    /// Whether the newest entry, let go or not, is the end of a peer.
    pub fn ends_in_end(&self) -> bool
        ensures { result ≡ ends_in_end self.now.entries }
    {
        self.newest_is_end
    }

    /// The same entries in memory of their own, without those that were let go, which are gone in the
    /// copy too. `NoMemory` is its one error.
    pub fn copy(&self, alloc: Global) -> Result<Journal, NoMemory>
        ensures value { IfOk result (λ journal. journal.entries ≡ self.now.entries) }
        ensures kept { IfOk result (λ journal. journal.kept_from ≡ self.now.kept_from) }
    {
        Ok(Journal {
            entries: self.entries.copy(alloc)?,
            kept: self.kept,
            newest_is_end: self.newest_is_end,
        })
    }

    /// How much the journal holds, entries that were let go among it.
    pub fn kept(&self) -> Kept
        ensures entries { result.entries ≡ number_counted self.now.entries }
        ensures weight { result.weight ≡ weight self.now.entries }
    {
        self.kept
    }

    /// Whether the entry is one too many for the limit of counted entries, or too heavy for that of
    /// weight. Never so of an end.
    pub fn is_full(&self, limits: &Limits, entry: &Entry) -> bool
        ensures { result ≡ is_full limits.now self.now.entries entry.now }
    {
        !entry.is_end()
            && (limits.entries <= self.kept.entries
                || limits.weight < self.kept.weight
                || entry.weight() > limits.weight - self.kept.weight)
    }

    /// Makes room for so many more entries. `NoMemory` is its one error, after which there is the
    /// room that there was.
    pub fn reserve(&mut self, more: usize) -> Result<(), NoMemory>
        ensures same { self.new.entries ≡ self.old.entries }
        ensures kept { self.new.kept_from ≡ self.old.kept_from }
        ensures room { OnOk result (more ≤ self.new.room) }
        ensures never_less { self.old.room ≤ self.new.room }
    {
        self.entries.reserve(more)?;
        Ok(())
    }

    /// Puts one more entry. Asks that there is room, that the numbers reach, and that an entry that
    /// isn't an end isn't too heavy. Takes no memory.
    #[inline(always)]
    pub fn push(&mut self, entry: Entry)
        requires room { 0 < self.old.room }
        requires number { length self.old.entries < 4294967295 }
        requires light { is_end entry ≡ false →
            weight self.old.entries + weight_of entry ≤ 536870912 }
        ensures put { self.new.entries ≡ entry ∷ self.old.entries }
        ensures kept { self.new.kept_from ≡ self.old.kept_from }
        ensures room_left { self.old.room ≤ self.new.room + 1 }
    {
        if !entry.is_end() {
            self.kept.entries += 1;
            self.kept.weight += entry.weight();
        }
        self.newest_is_end = entry.is_end();
        self.entries.push(entry);
    }

    /// Lets the oldest kept entry go, and hands it out; none where none is kept.
    pub fn pop_oldest(&mut self) -> Option<Entry>
        ensures value { result ≡ entry_at self.old.entries (self.old.kept_from + 1) }
        ensures some { IsSome result ↔ (self.old.kept_from < length self.old.entries) }
        ensures same { self.new.entries ≡ self.old.entries }
        ensures kept { self.new.kept_from ≡ min (self.old.kept_from + 1)
            (length self.old.entries) }
        ensures never_less { self.old.room ≤ self.new.room }
    {
        self.entries.pop_oldest()
    }

    /// Lets the entries up to a number go, all where it is `len` or more: they leave memory, and stay
    /// in the journal for contracts. Those that went before stay gone.
    pub fn let_go(&mut self, number: u32)
        ensures same { self.new.entries ≡ self.old.entries }
        ensures kept { self.new.kept_from ≡ max self.old.kept_from
            (min number (length self.old.entries)) }
        ensures never_less { self.old.room ≤ self.new.room }
    {
        self.entries.let_go(number);
    }
}
