//! The live peers, and which of them an act has to do with.
ghost use Rattle.std.specs.Prelude.{◌≡◌, ℕ, true, ◌≤◌, ◌<◌, ◌++◌, ◌∷◌, [], false, length, filter};
ghost use Rattle.std.specs.Prelude.{map, min, not, take, drop, get_or, None, option_map, IfSome};
ghost use Rattle.std.specs.Prelude.{IfNone, OnOk, OnErr};
ghost use Rattle.std.specs.List.{slice_get};
ghost use Rattle.std.specs.FinMap as finite;
ghost use Rattle.im_objects.specs.Objects.{refusal_of};
ghost use Rattle.wl_proto.specs.Rows.{event_message};
ghost use Rattle.wl_proto.specs.Spelling.{message_len};
ghost use Rattle.out_store.specs.Queue.{bytes_of, tokens_of};
ghost use Rattle.broker_model.specs.Groups.{tokens_in};
ghost use Rattle.broker_wire.specs.Events.{first_token};
ghost use Rattle.broker_wire.specs.Asked.{asked};
ghost use Rattle.broker_audience.specs.declared.live.Live.{Live};
ghost use Rattle.broker_audience.specs.Changes.{IsChangedAt, first_due};
ghost use Rattle.broker_audience.specs.Lives.{cleared, hears_message, delivered, is_number};
ghost use Rattle.broker_audience.specs.Lives.{number_of, AreRising};
ghost use Rattle.broker_audience.specs.Marks.{is_marked, AreWithin};
ghost use Rattle.broker_audience.specs.Visits.{map_at, at_marked, cause_of, changed_at, refusing};
ghost use Rattle.broker_audience.specs.Visits.{waits, taken, IsAt, HasNone, IsAboveAll, AreInOrder};
ghost use Rattle.broker_audience.specs.Visits.{IsNew, IsQuiet};

use crate::directory::Named;
use crate::live::Live;
use crate::marks::Marks;
use crate::roster::Roster;
use broker_model::TokenList;
use broker_wire::Meaning;
use relay_model::{EndCause, Label};
use std::alloc::Global;
use std::marker::Model;
use wio_core::NoMemory;
use wl_proto::Event;

/// The live peers by rising number. What is done for all of them visits those alone that an act
/// told, or that have to be ended.
///
/// In contracts it is the list of them, and for how many more there is room.
#[derive(Drop)]
pub struct Listeners {
    peers: Roster,
    // The places of those for whom something may be gathered.
    told: Marks,
    // The places of those who may have to be ended.
    due: Marks,
}

impl Model for Listeners {
    ghost use Rattle.std.specs.Prelude.{◌-◌, ◌≤◌, length, min};
    ghost use Rattle.broker_audience.specs.Seated.{AreNamed};
    ghost use Rattle.broker_audience.specs.Visits.{Peers, peers_code, AreListening};

    ghost Value = { Peers };

    ghost coded = { peers_code };

    ghost view = { λ l. record {
      items = l.peers.items;
      room = min l.peers.room
          (min (l.told.bound - length l.peers.items) (l.due.bound - length l.peers.items));
    } };

    ghost invariant = { λ l. (AreListening l.peers.items l.told.places l.due.places)
        × (length l.peers.items ≤ l.told.bound)
        × (length l.peers.items ≤ l.due.bound)
        × AreNamed l.peers };
}

// Nothing is gathered any more for the peers at the places.
fn clear_each(peers: &mut Roster, told: &[usize])
    requires within { AreWithin 0 (length peers.old.items) told.now }
    ensures items { peers.new.items ≡ map_at (at_marked told.now cleared) 0 peers.old.items }
    ensures rest { peers.new ≡ record peers.old { items = peers.new.items } }
{
    for place in told {
        peers.at_mut(*place).gathering.clear();
    }
}

// What is gathered for the peers at the places goes into their stores, or is left out.
#[inline(always)]
fn deliver_each(peers: &mut Roster, told: &[usize])
    requires within { AreWithin 0 (length peers.old.items) told.now }
    ensures items { peers.new.items ≡ map_at (at_marked told.now delivered) 0 peers.old.items }
    ensures rest { peers.new ≡ record peers.old { items = peers.new.items } }
{
    for place in told {
        peers.at_mut(*place).deliver();
    }
}

// Marks those among the peers at the places for whom a group was left out.
fn note_choked(peers: &Roster, told: &[usize], due: &mut Marks)
    requires within { AreWithin 0 (length peers.now.items) told.now }
    requires room { length peers.now.items ≤ due.old.bound }
    ensures kept { (k : ℕ) → is_marked k due.new.places ≡ false →
        is_marked k due.old.places ≡ false }
    ensures choked { (k : ℕ) (d : Live) → is_marked k told.now ≡ true →
        is_marked k due.new.places ≡ false → (get_or peers.now.items k d).is_choked ≡ false }
    ensures within { AreWithin 0 (length peers.now.items) due.old.places →
        AreWithin 0 (length peers.now.items) due.new.places }
    ensures bound { due.old.bound ≤ due.new.bound }
{
    for place in told {
        due.mark_if(*place, peers.at(*place).is_choked);
    }
}

// Why the peer has to be ended, if so.
fn cause_of(peer: &Live) -> Option<(u32, EndCause)>
    ensures { result ≡ cause_of peer.now }
{
    if peer.is_refused {
        Some((peer.number, EndCause::Bad))
    } else if peer.is_choked {
        Some((peer.number, EndCause::Full))
    } else {
        None
    }
}

impl Listeners {
    /// Nobody. Takes no memory.
    pub fn new(alloc: Global) -> Listeners
        ensures nobody { result.items ≡ [] }
    {
        Listeners {
            peers: Roster::new(alloc),
            told: Marks::new(alloc),
            due: Marks::new(alloc),
        }
    }

    /// How many are alive. By rising number.
    pub fn len(&self) -> usize
        ensures number { result ≡ length self.now.items }
    {
        self.peers.len()
    }

    /// Makes room for one more. `NoMemory` is its one error, after which there is the room that there was.
    pub fn reserve(&mut self) -> Result<(), NoMemory>
        ensures same { self.new.items ≡ self.old.items }
        ensures room { OnOk result (0 < self.new.room) }
        ensures never_less { self.old.room ≤ self.new.room }
    {
        self.told.reserve(self.peers.next_len())?;
        self.due.reserve(self.peers.next_len())?;
        self.peers.reserve()
    }

    /// One more, for whom there is room, with the highest number and label. Takes no memory.
    pub fn push(&mut self, peer: Live)
        requires room { 0 < self.old.room }
        requires above { IsAboveAll peer self.old.items }
        requires new { IsNew peer }
        ensures put { self.new.items ≡ self.old.items ++ peer ∷ [] }
    {
        self.peers.push(peer);
    }

    /// The peer at the place.
    pub fn at(&self, place: usize) -> &Live
        requires place { place < length self.now.items }
        ensures { slice_get self.now.items place ≡ Some result.now }
    {
        self.peers.at(place)
    }

    /// The place of the peer with the number.
    pub fn place_of(&self, number: u32) -> Option<usize>
        ensures found { IfSome result (λ place. IfSome (slice_get self.now.items place)
            (λ l. l.number ≡ number)) }
        ensures within { IfSome result (λ place. place < length self.now.items) }
        ensures first { IfSome result (λ place. slice_get self.now.items place
            ≡ number_of number self.now.items) }
        ensures none { IfNone result (filter (is_number number) self.now.items ≡ []) }
    {
        self.peers.place_of(number)
    }

    /// The place of the peer with the label.
    pub fn place_with(&self, label: Label) -> Option<usize>
        ensures found { IfSome result (IsAt (λ l. l.label) label self.now.items) }
        ensures none { IfNone result (HasNone (λ l. l.label) label self.now.items) }
        ensures order { AreInOrder self.now.items }
    {
        self.peers.place_with(label)
    }

    /// The peer with the number leaves.
    pub fn take_away(&mut self, number: u32) -> Option<Live>
        ensures taken { result ≡ number_of number self.old.items }
        ensures left { self.new.items ≡ filter (λ l. not (is_number number l)) self.old.items }
    {
        let place = self.peers.place_of(number)?;
        self.told.leave_out(place);
        self.due.leave_out(place);
        Some(self.peers.remove(place))
    }

    /// Begins anew: nothing is gathered for any of them.
    pub fn clear(&mut self)
        ensures items { self.new.items ≡ map cleared self.old.items }
    {
        clear_each(&mut self.peers, self.told.places());
        self.told.clear();
    }

    /// The peer of the object gathers the event for it, which has `len` bytes, with the token of its
    /// descriptor, if it has one.
    pub(crate) fn hear(&mut self, to: &Named, event: &Event, len: usize, token: Option<u32>)
        requires short { message_len (event_message event.now) ≤ 4096 }
        requires len { len ≡ message_len (event_message event.now) }
        requires token { tokens_in (event_message event.now).values ≡ first_token token }
        ensures items { self.new.items ≡ map (hears_message to.now
            (event_message event.now)) self.old.items }
    {
        if let Some(place) = self.peers.place_with(to.peer) {
            self.peers
                .at_mut(place)
                .gathering
                .put_measured(to.id, event, len, token);
            self.told.mark(place);
        }
    }

    /// The places of those for whom something may be gathered, the lowest first.
    pub fn told(&self) -> &[usize]
        ensures within { AreWithin 0 (length self.now.items) result.now }
        ensures quiet { (k : ℕ) (d : Live) → k < length self.now.items →
            is_marked k result.now ≡ false → IsQuiet (get_or self.now.items k d) }
    {
        self.told.places()
    }

    /// What is gathered for each goes whole into its store, or is left out whole, which chokes it.
    #[inline(always)]
    pub fn deliver(&mut self)
        ensures items { self.new.items ≡ map delivered self.old.items }
    {
        deliver_each(&mut self.peers, self.told.places());
        note_choked(&self.peers, self.told.places(), &mut self.due);
    }

    /// The first that has to be ended, with the cause: its last message was refused, or else a group was left out.
    pub fn due(&self) -> Option<(u32, EndCause)>
        ensures { result ≡ first_due self.now.items }
    {
        for place in self.due.places() {
            if let Some(due) = cause_of(self.peers.at(*place)) {
                return Some(due);
            }
        }
        None
    }

    /// The last message of the peer at the place was refused.
    pub fn refuse(&mut self, place: usize)
        requires place { place < length self.old.items }
        ensures items { self.new.items ≡ changed_at place refusing self.old.items }
    {
        self.peers.at_mut(place).is_refused = true;
        self.due.mark(place);
    }

    /// These tokens wait for the peer at the place from now on.
    pub fn wait(&mut self, place: usize, tokens: TokenList)
        requires place { place < length self.old.items }
        ensures items { self.new.items ≡ changed_at place (waits tokens) self.old.items }
    {
        self.peers.at_mut(place).waiting = tokens;
    }

    /// What a message to the object with the id makes of the peer at the place, and whether it was
    /// refused. `label` is the message's number. `NoMemory` is its one error, after which all is as
    /// before.
    #[inline(always)]
    pub(crate) fn change(
        &mut self,
        place: usize,
        id: u32,
        label: Label,
        meaning: &Meaning,
    ) -> Result<(), NoMemory>
        requires place { place < length self.old.items }
        requires unused { IfSome (slice_get self.old.items place) (λ l. finite.get l.table.ids label
            ≡ None) }
        requires accepted { IfSome (slice_get self.old.items place) (λ l. IfSome meaning.now.made
            (λ new. refusal_of l.table new.id ≡ None)) }
        ensures changed { OnOk result (IsChangedAt place id label meaning.now.takes_token
            meaning.now.act (option_map asked meaning.now.made) self.old.items self.new.items) }
        ensures err { OnErr result (self.new.items ≡ self.old.items) }
    {
        let peer = self.peers.at_mut(place);
        peer.change(id, label, meaning)?;
        let is_refused = peer.is_refused;
        self.due.mark_if(place, is_refused);
        Ok(())
    }

    /// Takes from the store of the peer at the place, as `Store::take` does.
    pub fn take(&mut self, place: usize, buf: &mut [u8], tokens: &mut [u32]) -> (usize, usize)
        requires place { place < length self.old.items }
        requires piece { length buf.old ≤ 4096 }
        requires places { 256 ≤ length tokens.old }
        ensures count { IfSome (slice_get self.old.items place) (λ l. result.0
            ≡ min (length buf.old) (length l.store.cells)) }
        ensures bytes { IfSome (slice_get self.old.items place) (λ l. buf.new
            ≡ bytes_of (take result.0 l.store.cells) ++ drop result.0 buf.old) }
        ensures token_count { IfSome (slice_get self.old.items place) (λ l. result.1
            ≡ length (tokens_of (take result.0 l.store.cells))) }
        ensures tokens { IfSome (slice_get self.old.items place) (λ l. tokens.new
            ≡ tokens_of (take result.0 l.store.cells) ++ drop result.1 tokens.old) }
        ensures rest { self.new.items ≡ changed_at place (taken result.0) self.old.items }
    {
        self.peers.at_mut(place).store.take(buf, tokens)
    }
}
