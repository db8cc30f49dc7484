//! Who is there, and what is taken of what is stored for each.
ghost use Rattle.std.specs.Prelude.{◌≡◌, ◌≤◌, ◌<◌, ◌-◌, ℕ, ◌++◌, ◌∷◌, [], List, length, min, take};
ghost use Rattle.std.specs.Prelude.{drop, set, Option, option_map, IsSome, IsSomeAnd, IfSome};
ghost use Rattle.std.specs.Prelude.{IfNone, IfOk, OnErr};
ghost use Rattle.std.specs.List.{slice_get};
ghost use Rattle.out_store.specs.Queue.{Queue, queue, bytes_of, tokens_of};
ghost use Rattle.broker_model.specs.declared.journal.Entry.TheVariants as entries;
ghost use Rattle.broker_model.specs.Out.{stored};
ghost use Rattle.broker_model.specs.Stamps.{stamp_of};
ghost use Rattle.broker_core.specs.declared.taking.Standing.TheVariants.{Alive};
ghost use Rattle.broker_audience.specs.Lives.{number_of};
ghost use Rattle.broker_core.specs.Stands.{Stands, CanTake, store_of};
ghost use Rattle.broker_core.specs.Broker.{gone};
ghost use Rattle.relay_objects.specs.Reached.{Reached};
ghost use Rattle.broker_core.specs.Watched.{watched};
ghost use Rattle.broker_core.specs.Taking.{out_at, IsTaken, standing_of};

use crate::state::State;
use crate::watch::Watch;
use broker_model::Entry;
use broker_steps::Stamp;
use relay_model::{Act, EndCause};
use wio_core::NoMemory;

/// Whether a peer is there.
#[derive(Clone, Copy, Debug, PartialEq, Eq)]
pub enum Standing {
    /// No peer has the number.
    Nobody,
    /// It joined, and no end of it is in the journal.
    Alive,
    /// It ended, for this cause.
    Over(EndCause),
}

impl State {
    /// Whether the peer with the number joined, and is alive.
    pub(crate) fn standing(&self, number: u32) -> Standing
        requires stands { Stands self.now }
        ensures value { result ≡ standing_of self.now.journal.entries number }
        ensures alive { result ≡ Alive → IsSome (number_of number self.now.audience.live.items) }
    {
        if number == 0 || number as usize > self.labels.len() {
            return Standing::Nobody;
        }
        match self.ended.cause(number) {
            Some(cause) => Standing::Over(cause),
            None => Standing::Alive,
        }
    }

    /// How many bytes are stored for the peer, alive or ended; nothing where none joined with the number.
    pub(crate) fn stored(&self, number: u32) -> Option<usize>
        requires stands { Stands self.now }
        ensures value { result ≡ option_map (λ out. length (stored out))
            (out_at self.now.capacity self.now.journal.entries number) }
    {
        if number == 0 || number as usize > self.labels.len() {
            return None;
        }
        match self.ended.cause(number) {
            Some(_cause) => Some(self.ended.stored(number)),
            None => {
                let place = self.audience.live.place_of(number)?;
                Some(self.audience.live.at(place).store.len())
            }
        }
    }

    /// The first bytes that are stored for the peer, alive or ended, go into the buffer, as many as
    /// fit, and the tokens whose messages begin in them beside. Answers how many of each.
    pub(crate) fn take<W: Watch>(
        &mut self,
        number: u32,
        buf: &mut [u8],
        tokens: &mut [u32],
        given: Stamp,
        watch: &mut W,
    ) -> Result<(usize, usize), NoMemory>
        requires stands { Stands self.old }
        requires piece { length buf.old ≤ 4096 }
        requires places { 256 ≤ length tokens.old }
        requires joined { IsSome (out_at self.old.capacity self.old.journal.entries number) }
        requires place { CanTake (entries.Took number 0) self.old.journal.entries }
        ensures stands { Stands self.new }
        ensures capacity { self.new.capacity ≡ self.old.capacity }
        ensures kept { gone self.new ≡ gone self.old }
        ensures ok { IfSome (out_at self.old.capacity self.old.journal.entries number)
            (λ out. IfOk result (λ counts.
            IsTaken out self.old.journal.entries number buf.old tokens.old counts buf.new tokens.new
            self.new.journal.entries)) }
        ensures stamped { IfOk result (λ counts. self.new.stamps.stamps ≡ stamp_of
            (entries.Took number counts.0) given self.old.stamps.stamps ∷ self.old.stamps.stamps) }
        ensures err { OnErr result (self.new.journal.entries ≡ self.old.journal.entries) }
        ensures unstamped { OnErr result (self.new.stamps.stamps ≡ self.old.stamps.stamps) }
        ensures watched { IfOk result (λ counts.
            Reached W.may_follow watch.old (watched self.old.capacity (entries.Took number counts.0)
            self.old.journal.entries) watch.new) }
        ensures unwatched { OnErr result (watch.new ≡ watch.old) }
        ensures err_bytes { OnErr result (buf.new ≡ buf.old) }
        ensures err_tokens { OnErr result (tokens.new ≡ tokens.old) }
    {
        let peer = self.labels[number as usize - 1];
        self.make_room(&Act::Took { peer, bytes: 0 })?;
        let counts = self.take_from(number, buf, tokens);
        let bytes = counts.0 as u32;
        let _ = self.enter(
            Entry::Took {
                peer: number,
                bytes,
            },
            &Act::Took { peer, bytes },
            given,
            watch,
        );
        Ok(counts)
    }

    // Takes from the peer's store, which is `store` before; an ended peer's goes once it is empty.
    fn take_from(&mut self, number: u32, buf: &mut [u8], tokens: &mut [u32]) -> (usize, usize)
        ghost store: { Queue }
        requires piece { length buf.old ≤ 4096 }
        requires places { 256 ≤ length tokens.old }
        requires number { 0 < number }
        requires live { IfSome (number_of number self.old.audience.live.items)
            (λ l. l.store ≡ store) }
        requires left { IfNone (number_of number self.old.audience.live.items)
            (IsSomeAnd (slice_get self.old.ended.items (number - 1))
            (λ e. IsSomeAnd e (λ was. store_of store.capacity was.store ≡ store))) }
        ensures count { result.0 ≡ min (length buf.old) (length store.cells) }
        ensures bytes { buf.new ≡ bytes_of (take result.0 store.cells) ++ drop result.0 buf.old }
        ensures token_count { result.1 ≡ length (tokens_of (take result.0 store.cells)) }
        ensures tokens { tokens.new ≡ tokens_of (take result.0 store.cells) ++ drop result.1
            tokens.old }
        ensures live { IfSome (number_of number self.old.audience.live.items)
            (λ l. (place : ℕ) × (slice_get self.old.audience.live.items place ≡ Some l) ×
            (self.new.audience.live.items ≡ set self.old.audience.live.items place
            (record l { store = queue (drop result.0 store.cells) store.capacity }))) }
        ensures ended { IfSome (number_of number self.old.audience.live.items)
            (λ l. self.new.ended.items ≡ self.old.ended.items) }
        ensures left { IfNone (number_of number self.old.audience.live.items)
            (IfSome (slice_get self.old.ended.items (number - 1))
            (λ e. IfSome e (λ was. (rest : Option Queue) ×
            (store_of store.capacity rest ≡ queue (drop result.0 store.cells) store.capacity) ×
            IfSome rest (λ stays. ¬ (stays.cells ≡ [])) ×
            (self.new.ended.items ≡ set self.old.ended.items (number - 1)
            (Some (record { cause = was.cause; store = rest })))))) }
        ensures others { IfNone (number_of number self.old.audience.live.items)
            (self.new.audience.live.items ≡ self.old.audience.live.items) }
        ensures directory { self.new.audience.directory ≡ self.old.audience.directory }
        ensures relay { self.new.relay ≡ self.old.relay }
        ensures journal { self.new.journal ≡ self.old.journal }
        ensures stamps { self.new.stamps ≡ self.old.stamps }
        ensures labels { self.new.labels ≡ self.old.labels }
        ensures capacity { self.new.capacity ≡ self.old.capacity }
    {
        if let Some(place) = self.audience.live.place_of(number) {
            return self.audience.live.take(place, buf, tokens);
        }
        self.ended.take(number, buf, tokens)
    }
}
