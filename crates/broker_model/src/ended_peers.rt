//! Why peers ended, and what is still stored for them.
use crate::left::{Left, stored_in, take_from};
use out_store::Store;
use relay_model::EndCause;
use std::alloc::Global;
use std::marker::Model;
use wio_core::NoMemory;

/// Of each peer that joined, by its number from 1: whether it ended and why, and what is still
/// stored for it.
///
/// In contracts it is a list of what stays of each, and how many more may join without taking
/// memory. A peer costs two bytes for good, and one that ended its store as long as something is in
/// it. What is stored for a peer is searched for among those that something is stored for.
#[derive(Drop)]
pub struct EndedPeers {
    // By number.
    causes: Vec<Option<EndCause>>,
    // How many of them are alive.
    alive: usize,
    // In no order. What was put last for a number counts.
    left: Vec<Left>,
}

impl Model for EndedPeers {
    ghost use Rattle.std.specs.Prelude.{◌-◌, min, vec_len, vec_capacity};
    ghost use Rattle.broker_model.specs.Ends.{Ends, IsTidy, ended_from};

    ghost Value = { Ends };

    ghost view = { λ e. record {
      items = ended_from 1 e.causes.items e.left.items;
      room = min (vec_capacity e.causes - vec_len e.causes)
          ((vec_capacity e.left - vec_len e.left) - e.alive);
    } };

    ghost invariant = { λ e. IsTidy e.alive e.causes.items e.left.items
        (vec_capacity e.left - vec_len e.left) };
}

impl EndedPeers {
    ghost use Rattle.std.specs.Prelude.{◌≡◌, ◌≤◌, ◌<◌, ◌-◌, ◌++◌, ◌∷◌, [], length, set, min, take};
    ghost use Rattle.std.specs.Prelude.{drop, OnOk, IsSome, option_map};
    ghost use Rattle.std.specs.List.{slice_get};
    ghost use Rattle.out_store.specs.Queue.{bytes_of, tokens_of};
    ghost use Rattle.broker_model.specs.Ends.{Ended, kept, ended_with, cells_left, after_take};

    /// Nobody joined yet. Takes no memory.
    pub fn new(alloc: Global) -> EndedPeers
        ensures empty { result.items ≡ [] }
    {
        EndedPeers {
            causes: Vec::new(alloc),
            alive: 0,
            left: Vec::new(alloc),
        }
    }

    /// Makes room for one more that joins, and for its end. `NoMemory` is its one error.
    pub fn reserve(&mut self) -> Result<(), NoMemory>
        ensures same { self.new.items ≡ self.old.items }
        ensures room { OnOk result (0 < self.new.room) }
        ensures never_less { self.old.room ≤ self.new.room }
    {
        self.causes.reserve(1)?;
        self.left.reserve(self.alive + 1)?;
        Ok(())
    }

    /// One more joined. Asks that there is room. Takes no memory.
    pub fn push(&mut self)
        requires room { 0 < self.old.room }
        ensures put { self.new.items ≡ self.old.items ++ None ∷ [] }
    {
        self.causes.push_reserved(None);
        self.alive += 1;
    }

    /// The live peer with the number ended. Its store stays, unless it is empty. Takes no memory.
    pub fn end(&mut self, number: u32, cause: EndCause, store: Store)
        requires number { 0 < number }
        requires alive { slice_get self.old.items (number - 1) ≡ Some None }
        ensures ended { self.new.items ≡ set self.old.items (number - 1)
            (Some (record { cause = cause; store = kept store })) }
        ensures room { self.old.room ≤ self.new.room }
    {
        self.causes[number as usize - 1] = Some(cause);
        self.alive -= 1;
        if !store.is_empty() {
            self.left.push_reserved(Left { number, store });
        }
    }

    /// Why the peer with the number ended; nothing while it is alive.
    pub fn cause(&self, number: u32) -> Option<EndCause>
        requires number { 0 < number }
        requires joined { number ≤ length self.now.items }
        ensures { result ≡ option_map (λ e. e.cause) (ended_with number self.now.items) }
    {
        self.causes[number as usize - 1]
    }

    /// How many bytes are stored for the peer with the number, which ended: 0 to its store's capacity.
    pub fn stored(&self, number: u32) -> usize
        requires number { 0 < number }
        requires ended { IsSome (ended_with number self.now.items) }
        ensures { result ≡ length (cells_left (ended_with number self.now.items)) }
    {
        stored_in(&self.left, number)
    }

    /// Moves the first bytes that are stored for the peer with the number, which ended, into `buf`,
    /// as many as fit, and the tokens whose messages begin in them into `tokens`. Answers how many
    /// bytes and how many tokens. The store is given back once it is empty.
    pub fn take(&mut self, number: u32, buf: &mut [u8], tokens: &mut [u32]) -> (usize, usize)
        requires piece { length buf.old ≤ 4096 }
        requires places { 256 ≤ length tokens.old }
        requires number { 0 < number }
        requires ended { IsSome (ended_with number self.old.items) }
        ensures count { result.0 ≡ min (length buf.old)
            (length (cells_left (ended_with number self.old.items))) }
        ensures bytes { buf.new ≡ bytes_of
            (take result.0 (cells_left (ended_with number self.old.items)))
            ++ drop result.0 buf.old }
        ensures token_count { result.1 ≡ length (tokens_of
            (take result.0 (cells_left (ended_with number self.old.items)))) }
        ensures tokens { tokens.new ≡ tokens_of
            (take result.0 (cells_left (ended_with number self.old.items)))
            ++ drop result.1 tokens.old }
        ensures left { self.new.items ≡ set self.old.items (number - 1)
            (after_take result.0 (ended_with number self.old.items)) }
        ensures room { self.old.room ≤ self.new.room }
    {
        take_from(&mut self.left, number, buf, tokens)
    }
}
