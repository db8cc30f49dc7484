//! The live objects in a slab, each found by its label.
ghost use Rattle.std.specs.Prelude.{◌≡◌, ◌≤◌, ◌<◌, ◌+◌, ◌∷◌, [], ◌++◌, ◌==◌, count_by, map, filter};
ghost use Rattle.std.specs.Prelude.{option_map, None, OnOk};
ghost use Rattle.slab.specs.Slab.{ContainsKey, Updates, slab_len};
ghost use Rattle.relay_objects.specs.Changes.{FitsChange, changed_at};
ghost use Rattle.relay_objects.specs.Objects.{find, not_label, not_peer};
ghost use Rattle.relay_objects.specs.Places.{Stands, KeepsOthers};
ghost use Rattle.relay_objects.specs.Labels.{IsNew, Rises};

use crate::change::Change;
use crate::object::Object;
use crate::place::{Place, key_of, place_of};
use field_state::Room;
use kbd_grab::NoMemory;
use relay_model::Label;
use slab::Slab;
use std::alloc::Global;
use std::marker::Model;

/// The live objects, by rising label.
#[derive(Drop)]
pub struct Shelf {
    slab: Slab<Object>,
    places: Vec<Place>,
}

impl Model for Shelf {
    ghost use Rattle.std.specs.Prelude.{◌-◌, vec_len, vec_capacity, min};
    ghost use Rattle.slab.specs.Slab.{slab_len};
    ghost use Rattle.relay_objects.specs.Places.{Shelved, named, Stands};

    ghost Value = { Shelved };

    ghost view = { λ s. record {
      items = named s.slab s.places.items;
      room = min (s.slab.capacity - slab_len s.slab) (vec_capacity s.places - vec_len s.places);
    } };

    ghost invariant = { λ s. Stands s.slab s.places.items };
}

fn empty_slot(slab: &mut Slab<Object>, key: usize)
    requires { ContainsKey slab.old key }
    ensures updates { Updates slab.old slab.new key None }
    ensures len { slab_len slab.new + 1 ≡ slab_len slab.old }
    ensures capacity { slab.new.capacity ≡ slab.old.capacity }
{
    let _ = slab.remove(key);
}

// Empties the slots of the peer's objects.
fn empty_slots(slab: &mut Slab<Object>, places: &[Place], peer: Label)
    requires { Stands slab.old places.now }
    ensures others { KeepsOthers slab.old slab.new places.now peer }
    ensures emptied { slab_len slab.new + count_by (λ p. p.peer == peer) places.now ≡ slab_len
        slab.old }
    ensures capacity { slab.new.capacity ≡ slab.old.capacity }
{
    for place in places {
        if place.peer == peer {
            empty_slot(slab, place.key);
        }
    }
}

impl Shelf {
    /// No object lives.
    pub fn new(alloc: Global) -> Shelf
        ensures { result.items ≡ [] }
    {
        Shelf {
            slab: Slab::new(alloc),
            places: Vec::new(alloc),
        }
    }

    /// The object with the label, if it lives.
    pub fn object_of(&self, label: Label) -> Option<&Object>
        ensures { option_map (λ o. o.now) result ≡ find self.now.items label }
    {
        match key_of(&self.places, label) {
            Some(key) => self.slab.get(key),
            None => None,
        }
    }

    /// Makes the change of the object with the label, if it lives. A field's first text takes the room.
    pub fn change(&mut self, label: Label, change: Change<'_>, room: &mut Option<Room>)
        requires { FitsChange change room.old }
        ensures items { self.new.items ≡ map (changed_at label change.entry) self.old.items }
        ensures room { self.new.room ≡ self.old.room }
    {
        if let Some(key) = key_of(&self.places, label) {
            self.slab[key].change(change, room);
        }
    }

    /// Makes room for one more object. `NoMemory` is its one error.
    pub fn reserve(&mut self) -> Result<(), NoMemory>
        ensures items { self.new.items ≡ self.old.items }
        ensures room { OnOk result (0 < self.new.room) }
        ensures kept { self.old.room ≤ self.new.room }
    {
        self.slab.reserve(1)?;
        self.places.reserve(1)?;
        Ok(())
    }

    /// Takes in an object whose label is above the others'.
    pub fn make(&mut self, object: Object)
        requires room { 0 < self.old.room }
        requires above { IsNew self.old.items object.label }
        ensures items { self.new.items ≡ self.old.items ++ object ∷ [] }
        ensures room { self.new.room + 1 ≡ self.old.room }
    {
        let label = object.label;
        let peer = object.peer;
        let key = self.slab.insert_reserved(object);
        self.places.push_reserved(Place { label, peer, key });
    }

    /// Takes the object with the label out, if it lives.
    pub fn remove_object(&mut self, label: Label) -> Option<Object>
        ensures object { result ≡ find self.old.items label }
        ensures items { self.new.items ≡ filter (not_label label) self.old.items }
        ensures room { self.old.room ≤ self.new.room }
        ensures rise { Rises self.old.items }
    {
        match place_of(&self.places, label) {
            Some(at) => {
                let place = self.places.remove(at);
                Some(self.slab.remove(place.key))
            }
            None => None,
        }
    }

    /// Takes the objects of the peer out, and the peer.
    pub fn remove_peer(&mut self, peer: Label)
        ensures items { self.new.items ≡ filter (not_peer peer) self.old.items }
        ensures room { self.old.room ≤ self.new.room }
    {
        empty_slots(&mut self.slab, &self.places, peer);
        self.places.retain(|place| place.peer != peer);
    }
}
