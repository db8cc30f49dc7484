//! What peers and the shell do, as one entry each.
ghost use Rattle.std.specs.Prelude.{◌≡◌, ◌≤◌, ◌<◌, ◌+◌, ◌++◌, ◌∷◌, [], ℕ, List, map, take, drop};
ghost use Rattle.std.specs.Prelude.{min, length, Option, Some, None, IsSome, IfSome, IfOk, OnOk};
ghost use Rattle.std.specs.Prelude.{OnErr};
ghost use Rattle.std.specs.List.{slice_get};
ghost use Rattle.relay_objects.specs.Fits.{FitsMessage};
ghost use Rattle.relay_core.specs.Kept.{IsReserved};
ghost use Rattle.relay_core.specs.Stands as relay;
ghost use Rattle.broker_wire.specs.Asked.{IsNamed};
ghost use Rattle.broker_wire.specs.Meant.{meant};
ghost use Rattle.broker_model.specs.declared.journal.Entry.TheVariants as entries;
ghost use Rattle.broker_model.specs.Resolve.{means, past_of, resolve, surface_at};
ghost use Rattle.broker_model.specs.Ids.{peer_at, object_at};
ghost use Rattle.broker_model.specs.Waiting.{with_tokens, takes_token};
ghost use Rattle.broker_model.specs.Stamps.{stamp_of};
ghost use Rattle.broker_model.specs.Out.{act_at};
ghost use Rattle.broker_audience.specs.Lives.{number_of};
ghost use Rattle.broker_core.specs.Stands.{Stands, CanTake};
ghost use Rattle.broker_core.specs.Broker.{gone};
ghost use Rattle.relay_objects.specs.Reached.{Reached};
ghost use Rattle.broker_core.specs.Watched.{watched};

use crate::state::State;
use crate::watch::Watch;
use broker_audience::{Live, Named};
use broker_model::Entry;
use broker_steps::{ShellStep, Stamp, TokenList};
use broker_wire::{Meaning, Sender, meaning_of, shell_act};
use im_objects::DISPLAY_ID;
use relay_core::Route;
use relay_model::{Act, Fault, Label, Role};
use wio_core::NoMemory;
use wl_proto::Interface;
use wl_wire::Bytes;

impl State {
    // Room for one more entry with this act, and for an end of each peer that is alive after it. All is as before.
    #[inline(always)]
    pub(crate) fn make_room(&mut self, act: &Act) -> Result<(), NoMemory>
        requires stands { Stands self.old }
        requires fits { FitsMessage act.now }
        ensures stands { Stands self.new }
        ensures journal { self.new.journal.entries ≡ self.old.journal.entries }
        ensures live { self.new.audience.live ≡ self.old.audience.live }
        ensures made { self.new.audience.directory.made ≡ self.old.audience.directory.made }
        ensures labels { self.new.labels ≡ self.old.labels }
        ensures ended { self.new.ended ≡ self.old.ended }
        ensures capacity { self.new.capacity ≡ self.old.capacity }
        ensures kept { gone self.new ≡ gone self.old }
        ensures stamps { self.new.stamps.stamps ≡ self.old.stamps.stamps }
        ensures room { OnOk result (length self.old.audience.live.items + 2 ≤
            self.new.journal.room) }
        ensures stamp_room { OnOk result (length self.old.audience.live.items + 2
            ≤ self.new.stamps.room) }
        ensures place { OnOk result (0 < self.new.audience.directory.room) }
        ensures reserved { OnOk result (IsReserved self.new.relay act.now) }
    {
        let more = self.audience.live.len() + 2;
        self.journal.reserve(more)?;
        self.stamps.reserve(more)?;
        self.audience.directory.reserve(1)?;
        self.relay.reserve(act)
    }

    /// A peer joins. Answers its number.
    pub(crate) fn join<W: Watch>(
        &mut self,
        role: Role,
        given: Stamp,
        watch: &mut W,
    ) -> Result<u32, NoMemory>
        requires stands { Stands self.old }
        requires place { CanTake (entries.Join role) self.old.journal.entries }
        ensures stands { Stands self.new }
        ensures capacity { self.new.capacity ≡ self.old.capacity }
        ensures kept { gone self.new ≡ gone self.old }
        ensures ok { OnOk result (self.new.journal.entries ≡ entries.Join role ∷
            self.old.journal.entries) }
        ensures stamped { OnOk result (self.new.stamps.stamps ≡ stamp_of (entries.Join role) given
            self.old.stamps.stamps ∷ self.old.stamps.stamps) }
        ensures number { IfOk result (λ number.
            number ≡ length (past_of self.new.journal.entries).joined) }
        ensures err { OnErr result (self.new.journal.entries ≡ self.old.journal.entries) }
        ensures unstamped { OnErr result (self.new.stamps.stamps ≡ self.old.stamps.stamps) }
        ensures watched { OnOk result (Reached W.may_follow watch.old
            (watched self.old.capacity (entries.Join role) self.old.journal.entries) watch.new) }
        ensures unwatched { OnErr result (watch.new ≡ watch.old) }
    {
        let label = self.journal.len() + 1;
        let number = self.labels.len() as u32 + 1;
        self.make_room(&Act::Peer)?;
        self.audience.live.reserve()?;
        self.labels.reserve(1)?;
        self.ended.reserve()?;
        let live = Live::new(self.alloc, self.capacity, number, label, role)?;
        self.audience.directory.push(Named {
            peer: label,
            id: DISPLAY_ID,
            label,
            interface: Interface::Display,
        });
        self.audience.live.push(live);
        let _ = self.labels.push(label);
        self.ended.push();
        let _ = self.enter(Entry::Join(role), &Act::Peer, given, watch);
        Ok(number)
    }

    // What the message of the peer at the place comes to.
    fn meaning(&self, place: usize, id: u32, opcode: u16, body: &[u8]) -> Result<Meaning, NoMemory>
        requires stands { Stands self.now }
        requires place { place < length self.now.audience.live.items }
        ensures means { IfSome (slice_get self.now.audience.live.items place)
            (λ l. IfOk result (λ m.
            meant l.label (length self.now.journal.entries + 1) m ≡ means
            (entries.Message l.number id opcode body.now) (length self.now.journal.entries + 1)
            (past_of self.now.journal.entries))) }
        ensures takes { IfSome (slice_get self.now.audience.live.items place)
            (λ l. IfOk result (λ m. m.takes_token
            ≡ takes_token (object_at (past_of self.now.journal.entries) l.label id) opcode)) }
    {
        let peer = self.audience.live.at(place);
        let tokens = peer.waiting.as_slice();
        let sender = Sender {
            label: peer.label,
            role: peer.role,
            table: &peer.table,
            tokens,
        };
        meaning_of(self.alloc, &self.relay, &sender, id, opcode, body)
    }

    /// A live peer sends a whole message.
    #[inline(always)]
    pub(crate) fn message<W: Watch>(
        &mut self,
        number: u32,
        id: u32,
        opcode: u16,
        body: &[u8],
        given: Stamp,
        watch: &mut W,
    ) -> Result<(), NoMemory>
        requires stands { Stands self.old }
        requires live { IsSome (number_of number self.old.audience.live.items) }
        requires short { length body.now ≤ 4088 }
        requires place { CanTake (entries.Message number id opcode body.now)
            self.old.journal.entries }
        ensures stands { Stands self.new }
        ensures capacity { self.new.capacity ≡ self.old.capacity }
        ensures kept { gone self.new ≡ gone self.old }
        ensures ok { OnOk result (self.new.journal.entries ≡ entries.Message number id opcode
            body.now ∷ self.old.journal.entries) }
        ensures stamped { OnOk result (self.new.stamps.stamps ≡ stamp_of
            (entries.Message number id opcode body.now) given self.old.stamps.stamps ∷
            self.old.stamps.stamps) }
        ensures err { OnErr result (self.new.journal.entries ≡ self.old.journal.entries) }
        ensures unstamped { OnErr result (self.new.stamps.stamps ≡ self.old.stamps.stamps) }
        ensures watched { OnOk result (Reached W.may_follow watch.old
            (watched self.old.capacity (entries.Message number id opcode body.now)
            self.old.journal.entries) watch.new) }
        ensures unwatched { OnErr result (watch.new ≡ watch.old) }
    {
        let Some(place) = self.audience.live.place_of(number) else {
            unreachable!()
        };
        let entry = Entry::Message {
            peer: number,
            id,
            opcode,
            body: Bytes::from_slice(self.alloc, body)?,
        };
        let meaning = self.meaning(place, id, opcode, body)?;
        self.make_room(&meaning.act)?;
        self.audience
            .change(place, id, self.journal.len() + 1, &meaning)?;
        let _ = self.enter(entry, &meaning.act, given, watch);
        Ok(())
    }

    // What waits for the peer at the place with more tokens behind.
    fn waiting(&self, place: usize, tokens: &TokenList) -> Result<TokenList, NoMemory>
        requires stands { Stands self.now }
        requires place { place < length self.now.audience.live.items }
        ensures { IfSome (slice_get self.now.audience.live.items place) (λ l. IfOk result (λ list.
            list ≡ with_tokens l.waiting tokens.now)) }
    {
        self.audience
            .live
            .at(place)
            .waiting_with(self.alloc, tokens.as_slice())
    }

    /// A live peer sends tokens, which wait for its messages.
    pub(crate) fn tokens<W: Watch>(
        &mut self,
        number: u32,
        tokens: &TokenList,
        given: Stamp,
        watch: &mut W,
    ) -> Result<(), NoMemory>
        requires stands { Stands self.old }
        requires live { IsSome (number_of number self.old.audience.live.items) }
        requires place { CanTake (entries.Tokens number tokens.now) self.old.journal.entries }
        ensures stands { Stands self.new }
        ensures capacity { self.new.capacity ≡ self.old.capacity }
        ensures kept { gone self.new ≡ gone self.old }
        ensures ok { OnOk result (self.new.journal.entries ≡ entries.Tokens number tokens.now
            ∷ self.old.journal.entries) }
        ensures stamped { OnOk result (self.new.stamps.stamps ≡ stamp_of
            (entries.Tokens number tokens.now) given self.old.stamps.stamps ∷
            self.old.stamps.stamps) }
        ensures err { OnErr result (self.new.journal.entries ≡ self.old.journal.entries) }
        ensures unstamped { OnErr result (self.new.stamps.stamps ≡ self.old.stamps.stamps) }
        ensures watched { OnOk result (Reached W.may_follow watch.old
            (watched self.old.capacity (entries.Tokens number tokens.now) self.old.journal.entries)
            watch.new) }
        ensures unwatched { OnErr result (watch.new ≡ watch.old) }
    {
        let Some(place) = self.audience.live.place_of(number) else {
            unreachable!()
        };
        let entry = Entry::Tokens {
            peer: number,
            tokens: tokens.copy(self.alloc)?,
        };
        let waiting = self.waiting(place, tokens)?;
        self.make_room(&Act::Idle)?;
        self.audience.live.wait(place, waiting);
        let _ = self.enter(entry, &Act::Idle, given, watch);
        Ok(())
    }

    /// A live peer sends the header of a message with a bad size.
    pub(crate) fn bad_size<W: Watch>(
        &mut self,
        number: u32,
        head: [u8; 8],
        given: Stamp,
        watch: &mut W,
    ) -> Result<(), NoMemory>
        requires stands { Stands self.old }
        requires live { IsSome (number_of number self.old.audience.live.items) }
        requires place { CanTake (entries.BadSize number head) self.old.journal.entries }
        ensures stands { Stands self.new }
        ensures capacity { self.new.capacity ≡ self.old.capacity }
        ensures kept { gone self.new ≡ gone self.old }
        ensures ok { OnOk result (self.new.journal.entries ≡ entries.BadSize number head ∷
            self.old.journal.entries) }
        ensures stamped { OnOk result (self.new.stamps.stamps ≡ stamp_of
            (entries.BadSize number head) given self.old.stamps.stamps ∷ self.old.stamps.stamps) }
        ensures err { OnErr result (self.new.journal.entries ≡ self.old.journal.entries) }
        ensures unstamped { OnErr result (self.new.stamps.stamps ≡ self.old.stamps.stamps) }
        ensures watched { OnOk result (Reached W.may_follow watch.old
            (watched self.old.capacity (entries.BadSize number head) self.old.journal.entries)
            watch.new) }
        ensures unwatched { OnErr result (watch.new ≡ watch.old) }
    {
        let Some(place) = self.audience.live.place_of(number) else {
            unreachable!()
        };
        let label = self.audience.live.at(place).label;
        let act = Act::Bad {
            peer: label,
            fault: Fault::Size,
            object: label,
        };
        self.make_room(&act)?;
        self.audience.live.refuse(place);
        let entry = Entry::BadSize { peer: number, head };
        let _ = self.enter(entry, &act, given, watch);
        Ok(())
    }

    // The label of the live surface that the id of the peer names.
    fn surface_of(&self, number: u32, id: u32) -> Option<Label>
        requires stands { Stands self.now }
        ensures { surface_at (past_of self.now.journal.entries)
            (peer_at (past_of self.now.journal.entries) number) id ≡ result }
    {
        let place = self.audience.live.place_of(number)?;
        let (interface, label) = self.audience.live.at(place).table.find(id)?;
        if interface.name() == Interface::Surface.name() {
            Some(label)
        } else {
            None
        }
    }

    // The label of the surface that the step names, where it names a live one.
    fn surface(&self, step: &ShellStep) -> Option<Label>
        requires stands { Stands self.now }
        ensures { IsNamed (past_of self.now.journal.entries) step.now result }
    {
        match step {
            ShellStep::Focus { peer, id } | ShellStep::Area { peer, id, .. } => {
                self.surface_of(*peer, *id)
            }
            _ => None,
        }
    }

    /// The shell says something. Answers where a key went, and nothing for any other step.
    pub(crate) fn shell<W: Watch>(
        &mut self,
        step: &ShellStep,
        given: Stamp,
        watch: &mut W,
    ) -> Result<Option<Route>, NoMemory>
        requires stands { Stands self.old }
        requires place { CanTake (entries.Shell step.now) self.old.journal.entries }
        ensures stands { Stands self.new }
        ensures capacity { self.new.capacity ≡ self.old.capacity }
        ensures kept { gone self.new ≡ gone self.old }
        ensures ok { OnOk result (self.new.journal.entries ≡ entries.Shell step.now ∷
            self.old.journal.entries) }
        ensures stamped { OnOk result (self.new.stamps.stamps ≡ stamp_of (entries.Shell step.now)
            given self.old.stamps.stamps ∷ self.old.stamps.stamps) }
        ensures route { IfOk result (λ route.
            route ≡ relay.route_told (act_at (entries.Shell step.now) self.old.journal.entries)
            (resolve self.old.journal.entries)) }
        ensures err { OnErr result (self.new.journal.entries ≡ self.old.journal.entries) }
        ensures unstamped { OnErr result (self.new.stamps.stamps ≡ self.old.stamps.stamps) }
        ensures watched { OnOk result (Reached W.may_follow watch.old
            (watched self.old.capacity (entries.Shell step.now) self.old.journal.entries)
            watch.new) }
        ensures unwatched { OnErr result (watch.new ≡ watch.old) }
    {
        let act = shell_act(step, self.surface(step));
        self.make_room(&act)?;
        Ok(self.enter(Entry::Shell(*step), &act, given, watch))
    }
}
