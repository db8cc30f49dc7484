//! The state of all peers of a seat. It stands for the journal of what happened.
ghost use Rattle.std.specs.Prelude.{◌≡◌, ◌≤◌, ◌<◌, ◌+◌, ◌↔◌, ◌∷◌, [], ℕ, List, map, length};
ghost use Rattle.std.specs.Prelude.{Option};
ghost use Rattle.std.specs.Prelude.{Some, None, IsSome, IfSome, IfOk, OnOk, OnErr, min, max};
ghost use Rattle.std.specs.List.{AllByRecursion};
ghost use Rattle.relay_model.specs.declared.act.Act.{Act};
ghost use Rattle.relay_model.specs.Told.{told};
ghost use Rattle.relay_core.specs.Kept.{IsReserved};
ghost use Rattle.relay_core.specs.Stands as relay;
ghost use Rattle.broker_model.specs.declared.journal.Entry.TheVariants as entries;
ghost use Rattle.broker_model.specs.Recorded.{entry_at};
ghost use Rattle.broker_model.specs.Settle.{settle};
ghost use Rattle.broker_model.specs.Stamps.{stamp_of, stamps};
ghost use Rattle.broker_steps.specs.declared.stamp.Stamp.{Stamp};
ghost use Rattle.broker_model.specs.Resolve.{past_of, resolve};
ghost use Rattle.broker_model.specs.Out.{act_at};
ghost use Rattle.broker_audience.specs.Lives.{told_all, number_of};
ghost use Rattle.broker_core.specs.Stands.{Stands, IsReadyFor};
ghost use Rattle.broker_core.specs.Broker.{gone};
ghost use Rattle.relay_objects.specs.Reached.{Reached};
ghost use Rattle.broker_audience.specs.Tells.{IsShort};
ghost use Rattle.broker_core.specs.Watched.{told_live, watched, watched_since};

use crate::letting_go::LetGo;
use crate::watch::{Watch, show_groups, speak};
use broker_audience::{Audience, Directory, Listeners};
use broker_model::{EndedPeers, Entry, Journal, StampList};
use broker_steps::Stamp;
use relay_core::{Relay, Route};
use relay_model::{Act, EndCause, Label};
use std::alloc::Global;
use wio_core::NoMemory;

// What is given with an end that follows from a step.
const NOT_GIVEN: Stamp = Stamp {
    moment: 0,
    author: 0,
};

/// All that is kept beside the journal is what the journal comes to: `StandsFor` says how.
#[derive(Drop)]
pub(crate) struct State {
    pub alloc: Global,
    /// How many bytes may be stored for a peer.
    pub capacity: usize,
    pub relay: Relay,
    pub journal: Journal,
    /// Of each entry of the journal.
    pub stamps: StampList,
    pub audience: Audience,
    /// By the number of each peer that joined.
    pub labels: Vec<Label>,
    /// By the same numbers.
    pub ended: EndedPeers,
}

impl State {
    /// Nobody joined yet. `NoMemory` is its one error.
    pub(crate) fn new(alloc: Global, capacity: usize) -> Result<State, NoMemory>
        ensures stands { IfOk result Stands }
        ensures empty { IfOk result (λ state. state.journal.entries ≡ []) }
        ensures no_stamps { IfOk result (λ state. state.stamps.stamps ≡ []) }
        ensures kept { IfOk result (λ state. gone state ≡ (0, 0)) }
        ensures capacity { IfOk result (λ state. state.capacity ≡ capacity) }
    {
        Ok(State {
            alloc,
            capacity,
            relay: Relay::new(alloc)?,
            journal: Journal::new(alloc),
            stamps: StampList::new(alloc),
            audience: Audience {
                live: Listeners::new(alloc),
                directory: Directory::new(alloc),
            },
            labels: Vec::new(alloc),
            ended: EndedPeers::new(alloc),
        })
    }

    // The relay takes the act, for which room was made, and each peer's group is put into its store
    // or left out. Who watches is told both, as of the entry with the number.
    #[inline(always)]
    fn play<W: Watch>(&mut self, number: u32, act: &Act, watch: &mut W) -> Option<Route>
        requires reserved { IsReserved self.old.relay act.now }
        requires number { self.old.relay.state.acts < 4294967295 }
        ensures relay { (log : List Act) → relay.StandsFor self.old.relay log →
            relay.StandsFor self.new.relay (act.now ∷ log) }
        ensures route { (log : List Act) → relay.StandsFor self.old.relay log →
            result ≡ relay.route_told act.now log }
        ensures live { (log : List Act) → relay.StandsFor self.old.relay log →
            AllByRecursion IsShort (told act.now log) →
            self.new.audience.live.items ≡ map
            (told_all self.old.audience.directory.made (told act.now log))
            self.old.audience.live.items }
        ensures directory { (log : List Act) → relay.StandsFor self.old.relay log →
            AllByRecursion IsShort (told act.now log) →
            self.new.audience.directory ≡ self.old.audience.directory }
        ensures watched { (log : List Act) → relay.StandsFor self.old.relay log →
            AllByRecursion IsShort (told act.now log) →
            Reached W.may_follow watch.old
            (told_live number self.old.audience.directory.made self.old.audience.live.items
            (told act.now log)) watch.new }
        ensures journal { self.new.journal ≡ self.old.journal }
        ensures stamps { self.new.stamps ≡ self.old.stamps }
        ensures labels { self.new.labels ≡ self.old.labels }
        ensures ended { self.new.ended ≡ self.old.ended }
        ensures capacity { self.new.capacity ≡ self.old.capacity }
    {
        self.audience.live.clear();
        let route = speak(&mut self.relay, number, act, &mut self.audience, watch);
        show_groups(number, &self.audience.live, watch);
        self.audience.live.deliver();
        route
    }

    // One more entry, for which all is made ready: its act is told. Its call gave the stamp. Takes no memory.
    pub(crate) fn enter<W: Watch>(
        &mut self,
        entry: Entry,
        act: &Act,
        given: Stamp,
        watch: &mut W,
    ) -> Option<Route>
        requires ready { IsReadyFor entry self.old }
        requires act { act.now ≡ act_at entry self.old.journal.entries }
        ensures stands { Stands self.new }
        ensures entered { self.new.journal.entries ≡ entry ∷ self.old.journal.entries }
        ensures stamped { self.new.stamps.stamps
            ≡ stamp_of entry given self.old.stamps.stamps ∷ self.old.stamps.stamps }
        ensures capacity { self.new.capacity ≡ self.old.capacity }
        ensures kept { gone self.new ≡ gone self.old }
        ensures route { result ≡ relay.route_told act.now (resolve self.old.journal.entries) }
        ensures watched { Reached W.may_follow watch.old
            (watched self.old.capacity entry self.old.journal.entries) watch.new }
    {
        let number = self.journal.len() + 1;
        watch.entered(number, &entry, act, &self.relay);
        let route = self.play(number, act, watch);
        self.audience.directory.let_go(act, number);
        let stamp = self.stamps.next(&entry, given);
        self.stamps.push(stamp);
        self.journal.push(entry);
        route
    }

    /// A live peer ends. Takes no memory.
    #[inline(never)]
    pub(crate) fn end<W: Watch>(
        &mut self,
        number: u32,
        cause: EndCause,
        given: Stamp,
        watch: &mut W,
    )
        requires stands { Stands self.old }
        requires live { IsSome (number_of number self.old.audience.live.items) }
        requires few { length self.old.journal.entries < 4294967295 }
        ensures stands { Stands self.new }
        ensures capacity { self.new.capacity ≡ self.old.capacity }
        ensures kept { gone self.new ≡ gone self.old }
        ensures ended { self.new.journal.entries ≡ entries.End number cause ∷
            self.old.journal.entries }
        ensures stamped { self.new.stamps.stamps ≡ stamp_of (entries.End number cause) given
            self.old.stamps.stamps ∷ self.old.stamps.stamps }
        ensures watched { Reached W.may_follow watch.old
            (watched self.old.capacity (entries.End number cause) self.old.journal.entries)
            watch.new }
    {
        let Some(live) = self.audience.live.take_away(number) else {
            unreachable!()
        };
        self.ended.end(number, cause, live.store);
        let act = Act::Gone {
            peer: live.label,
            cause,
        };
        let _ = self.enter(
            Entry::End {
                peer: number,
                cause,
            },
            &act,
            given,
            watch,
        );
    }

    /// While a live peer has a refused last message or is choked, the one with the lowest number ends. Takes no memory.
    pub(crate) fn settle<W: Watch>(&mut self, watch: &mut W)
        requires stands { Stands self.old }
        requires few { length self.old.journal.entries + length self.old.audience.live.items <
            4294967295 }
        ensures stands { Stands self.new }
        ensures capacity { self.new.capacity ≡ self.old.capacity }
        ensures kept { gone self.new ≡ gone self.old }
        ensures settled { self.new.journal.entries ≡ settle self.old.capacity
            self.old.journal.entries }
        ensures stamped { (given : List Stamp) →
            stamps self.old.journal.entries given ≡ self.old.stamps.stamps →
            stamps self.new.journal.entries given ≡ self.new.stamps.stamps }
        ensures watched { (k : ℕ) (from : W) → k ≤ length self.old.journal.entries →
            Reached W.may_follow from (watched_since self.old.capacity k self.old.journal.entries)
            watch.old → Reached W.may_follow from
            (watched_since self.old.capacity k self.new.journal.entries) watch.new }
    {
        while let Some((number, cause)) = self.audience.live.due() {
            self.end(number, cause, NOT_GIVEN, watch);
        }
    }

    /// Lets the entries of the journal up to a number go, with their stamps.
    pub(crate) fn let_go(&mut self, number: u32)
        requires stands { Stands self.old }
        requires kept { self.old.stamps.kept_from ≡ self.old.journal.kept_from }
        ensures stands { Stands self.new }
        ensures same { self.new.journal.entries ≡ self.old.journal.entries }
        ensures stamps { self.new.stamps.stamps ≡ self.old.stamps.stamps }
        ensures capacity { self.new.capacity ≡ self.old.capacity }
        ensures kept { self.new.journal.kept_from ≡ max self.old.journal.kept_from
            (min number (length self.old.journal.entries)) }
        ensures kept_stamps { self.new.stamps.kept_from ≡ self.new.journal.kept_from }
    {
        self.journal.let_go(number);
        self.stamps.let_go(number);
    }

    /// Lets the oldest kept entry go with its stamp, and hands both out.
    pub(crate) fn pop_oldest(&mut self) -> Option<LetGo>
        requires stands { Stands self.old }
        requires kept { self.old.stamps.kept_from ≡ self.old.journal.kept_from }
        ensures stands { Stands self.new }
        ensures same { self.new.journal.entries ≡ self.old.journal.entries }
        ensures stamps { self.new.stamps.stamps ≡ self.old.stamps.stamps }
        ensures capacity { self.new.capacity ≡ self.old.capacity }
        ensures some { IsSome result ↔
            (self.old.journal.kept_from < length self.old.journal.entries) }
        ensures number { IfSome result (λ it. it.number ≡ self.old.journal.kept_from + 1) }
        ensures entry { IfSome result (λ it.
            entry_at self.old.journal.entries it.number ≡ Some it.entry) }
        ensures stamp { IfSome result (λ it.
            entry_at self.old.stamps.stamps it.number ≡ Some it.stamp) }
        ensures kept { self.new.journal.kept_from ≡ max self.old.journal.kept_from
            (min (self.old.journal.kept_from + 1) (length self.old.journal.entries)) }
        ensures kept_stamps { self.new.stamps.kept_from ≡ self.new.journal.kept_from }
    {
        if self.journal.kept_from() >= self.journal.len() {
            return None;
        }
        let number = self.journal.kept_from() + 1;
        let entry = self.journal.pop_oldest()?;
        let stamp = self.stamps.pop_oldest()?;
        Some(LetGo {
            number,
            entry,
            stamp,
        })
    }
}
