//! Peers in a row, each under a number and a label.
ghost use Rattle.std.specs.Prelude.{◌≡◌, ◌≤◌, ◌<◌, ◌+◌, ◌++◌, ◌∷◌, [], length};
ghost use Rattle.std.specs.Prelude.{Some, IfSome, IfNone, OnOk};
ghost use Rattle.std.specs.Borrow.{sem};
ghost use Rattle.std.specs.List.{slice_get, remove};
ghost use Rattle.broker_audience.specs.Lives.{AreOver};
ghost use Rattle.broker_audience.specs.Visits.{IsAt, HasNone};
ghost use Rattle.broker_audience.specs.Lent.{LendsPeer};

use crate::live::Live;
use crate::place::Place;
use relay_model::Label;
use slab::Slab;
use std::alloc::Global;
use std::marker::Model;
use wio_core::NoMemory;

/// Peers in a row, each under the number and the label with which it came. A peer stays where it is
/// in memory, whoever leaves. Where numbers and labels rise, a place is found by halves.
///
/// In contracts it is the numbers, the labels and the peers, place by place, and for how many more there is room.
#[derive(Drop)]
pub(crate) struct Roster {
    slab: Slab<Live>,
    places: Vec<Place>,
}

impl Model for Roster {
    ghost use Rattle.std.specs.Prelude.{◌-◌, map, vec_len, vec_capacity, min};
    ghost use Rattle.slab.specs.Slab.{slab_len};
    ghost use Rattle.broker_audience.specs.Seated.{Roster, roster_code, seated, AreSeated};

    ghost Value = { Roster };

    ghost coded = { roster_code };

    ghost view = { λ r. record {
      numbers = map (λ p. p.number) r.places.items;
      labels = map (λ p. p.label) r.places.items;
      items = seated r.slab r.places.items;
      room = min (r.slab.capacity - slab_len r.slab) (vec_capacity r.places - vec_len r.places);
    } };

    ghost invariant = { λ r. AreSeated r.slab r.places.items };
}

// The place at the number's distance from the first one's, where it is the number's: so it is as long
// as nobody left who joined later than the first.
fn at_distance(places: &[Place], number: u32) -> Option<usize>
    ensures { IfSome result (IsAt (λ p. p.number) number places.now) }
{
    let first = places.first()?;
    let at = number.checked_sub(first.number)? as usize;
    let place = places.get(at)?;
    if place.number == number {
        Some(at)
    } else {
        None
    }
}

impl Roster {
    /// Nobody. Takes no memory.
    pub(crate) fn new(alloc: Global) -> Roster
        ensures numbers { result.numbers ≡ [] }
        ensures labels { result.labels ≡ [] }
        ensures nobody { result.items ≡ [] }
    {
        Roster {
            slab: Slab::new(alloc),
            places: Vec::new(alloc),
        }
    }

    /// How many they are.
    pub(crate) fn len(&self) -> usize
        ensures { result ≡ length self.now.items }
    {
        self.places.len()
    }

    /// How many they will be once there is one more.
    pub(crate) fn next_len(&self) -> usize
        ensures { result ≡ length self.now.items + 1 }
    {
        self.places.len() + 1
    }

    /// Makes room for one more. `NoMemory` is its one error, after which there is the room that there was.
    pub(crate) fn reserve(&mut self) -> Result<(), NoMemory>
        ensures same { self.new ≡ record self.old { room = self.new.room } }
        ensures room { OnOk result (0 < self.new.room) }
        ensures never_less { self.old.room ≤ self.new.room }
    {
        self.slab.reserve(1)?;
        self.places.reserve(1)?;
        Ok(())
    }

    /// One more, for whom there is room, at the end.
    pub(crate) fn push(&mut self, peer: Live)
        requires room { 0 < self.old.room }
        ensures numbers { self.new.numbers ≡ self.old.numbers ++ peer.number ∷ [] }
        ensures labels { self.new.labels ≡ self.old.labels ++ peer.label ∷ [] }
        ensures put { self.new.items ≡ self.old.items ++ peer ∷ [] }
        ensures room_left { self.old.room ≤ self.new.room + 1 }
    {
        let number = peer.number;
        let label = peer.label;
        let key = self.slab.insert_reserved(peer);
        self.places.push_reserved(Place { number, label, key });
    }

    /// The peer at the place.
    pub(crate) fn at(&self, place: usize) -> &Live
        requires place { place < length self.now.items }
        ensures { slice_get self.now.items place ≡ Some result.now }
    {
        &self.slab[self.places[place].key]
    }

    /// The peer at the place, to be changed. Its place keeps its number and its label.
    pub(crate) fn at_mut(&mut self, place: usize) -> &mut Live
        requires place { place < length self.old.items }
        ensures* lends { sem 𝓛 (LendsPeer self.entry place result) }
        ensures value { slice_get self.old.items place ≡ Some result.now }
    {
        let key = self.places[place].key;
        &mut self.slab[key]
    }

    /// The place with the number. Asks that the numbers rise.
    pub(crate) fn place_of(&self, number: u32) -> Option<usize>
        requires rising { AreOver (λ n. n) 0 self.now.numbers }
        ensures found { IfSome result (IsAt (λ n. n) number self.now.numbers) }
        ensures none { IfNone result (HasNone (λ n. n) number self.now.numbers) }
    {
        if let Some(place) = at_distance(&self.places, number) {
            return Some(place);
        }
        match self
            .places
            .binary_search_by_key(&number, |place| place.number)
        {
            Ok(place) => Some(place),
            Err(_) => None,
        }
    }

    /// The place with the label. Asks that the labels rise.
    pub(crate) fn place_with(&self, label: Label) -> Option<usize>
        requires rising { AreOver (λ n. n) 0 self.now.labels }
        ensures found { IfSome result (IsAt (λ n. n) label self.now.labels) }
        ensures none { IfNone result (HasNone (λ n. n) label self.now.labels) }
    {
        match self
            .places
            .binary_search_by_key(&label, |place| place.label)
        {
            Ok(place) => Some(place),
            Err(_) => None,
        }
    }

    /// The peer at the place leaves.
    pub(crate) fn remove(&mut self, place: usize) -> Live
        requires place { place < length self.old.items }
        ensures left { slice_get self.old.items place ≡ Some result }
        ensures numbers { self.new.numbers ≡ remove self.old.numbers place }
        ensures labels { self.new.labels ≡ remove self.old.labels place }
        ensures items { self.new.items ≡ remove self.old.items place }
        ensures room { self.old.room ≤ self.new.room }
    {
        let place = self.places.remove(place);
        self.slab.remove(place.key)
    }
}
