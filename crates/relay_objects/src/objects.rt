//! The live objects of a seat: found by label, with the fields of each peer and the popups listed beside.
ghost use Rattle.std.specs.Prelude.{◌≡◌, ◌≢◌, ◌≤◌, ◌<◌, ◌+◌, ◌∷◌, [], ◌++◌, map, filter};
ghost use Rattle.std.specs.Prelude.{option_map, Some, OnOk};
ghost use Rattle.relay_objects.specs.Fits.{FitsMessage, FindsRoom};
ghost use Rattle.relay_objects.specs.Objects.{find, owner_in, area_in, has_popup_in, not_label};
ghost use Rattle.relay_objects.specs.Objects.{not_peer, requested, refocused, committed, placed_at};
ghost use Rattle.relay_objects.specs.Objects.{field_in, field_at, count_in, is_peer_in, is_field_in};
ghost use Rattle.relay_objects.specs.Objects.{is_surface_in, is_method_in};
ghost use Rattle.relay_objects.specs.Listed.{fields_of, popups_of};

use crate::change::Change;
use crate::entered::{Entered, entered_by, entered_with, left_for, refocus_entered};
use crate::listed::{LiveField, LivePopup, has_surface, list_field, list_popup, of_peer, unlist};
use crate::object::{Kind, NO_AREA, Object};
use crate::shelf::Shelf;
use field_state::{Field, Room};
use kbd_grab::NoMemory;
use relay_model::{Act, Label, Rect};
use std::alloc::Global;
use std::marker::Model;

/// The live objects of a seat, by rising label. Each is found by its label by halves.
#[derive(Drop)]
pub struct Objects {
    shelf: Shelf,
    fields: Vec<LiveField>,
    popups: Vec<LivePopup>,
    entered: Entered,
    /// Above each label.
    bound: u64,
}

impl Model for Objects {
    ghost use Rattle.std.specs.Prelude.{◌-◌, vec_len, vec_capacity, min};
    ghost use Rattle.relay_objects.specs.Labels.{IsNew};
    ghost use Rattle.relay_objects.specs.Listed.{Lists};
    ghost use Rattle.relay_objects.specs.Living.{Living};

    ghost Value = { Living };

    ghost view = { λ o. record {
      items = o.shelf.items;
      room = min o.shelf.room
          (min (vec_capacity o.fields - vec_len o.fields)
          (vec_capacity o.popups - vec_len o.popups));
      bound = o.bound;
    } };

    ghost invariant = { λ o. Lists o.shelf.items o.fields.items o.popups.items o.entered
        × IsNew o.shelf.items o.bound };
}

impl Objects {
    /// No object lives.
    pub fn new(alloc: Global) -> Objects
        ensures items { result.items ≡ [] }
        ensures bound { result.bound ≡ 0 }
    {
        Objects {
            shelf: Shelf::new(alloc),
            fields: Vec::new(alloc),
            popups: Vec::new(alloc),
            entered: Entered::Nobody,
            bound: 0,
        }
    }

    /// A number above each label.
    pub fn bound(&self) -> u64
        ensures { result ≡ self.now.bound }
    {
        self.bound
    }

    /// The object with the label, if it lives.
    pub fn object_of(&self, label: Label) -> Option<&Object>
        ensures { option_map (λ o. o.now) result ≡ find self.now.items label }
    {
        self.shelf.object_of(label)
    }

    /// The field with the label, if it lives.
    pub fn field_of(&self, label: Label) -> Option<&Field>
        ensures { option_map (λ f. f.now) result ≡ field_in (find self.now.items label) }
    {
        match self.object_of(label) {
            Some(object) => object.field(),
            None => None,
        }
    }

    /// The field that may be named.
    pub fn field_at(&self, label: Option<Label>) -> Option<&Field>
        ensures { option_map (λ f. f.now) result ≡ field_at self.now.items label }
    {
        match label {
            Some(label) => self.field_of(label),
            None => None,
        }
    }

    /// The peer of an object that lives.
    pub fn owner(&self, label: Label) -> Option<Label>
        ensures { result ≡ owner_in (find self.now.items label) }
    {
        match self.object_of(label) {
            Some(object) => Some(object.peer),
            None => None,
        }
    }

    /// The count of a field's commits.
    pub fn count_of(&self, field: Label) -> u32
        ensures { result ≡ count_in (find self.now.items field) }
    {
        match self.field_of(field) {
            Some(field) => field.count(),
            None => 0,
        }
    }

    /// A peer lives with the label.
    pub fn is_peer(&self, label: Label) -> bool
        ensures { result ≡ is_peer_in (find self.now.items label) }
    {
        match self.object_of(label) {
            Some(object) => matches!(object.kind, Kind::Peer),
            None => false,
        }
    }

    /// A surface lives with the label.
    pub fn is_surface(&self, label: Label) -> bool
        ensures { result ≡ is_surface_in (find self.now.items label) }
    {
        match self.object_of(label) {
            Some(object) => matches!(object.kind, Kind::Surface { .. }),
            None => false,
        }
    }

    /// A field lives with the label.
    pub fn is_field(&self, label: Label) -> bool
        ensures { result ≡ is_field_in (find self.now.items label) }
    {
        match self.object_of(label) {
            Some(object) => object.is_field(),
            None => false,
        }
    }

    /// A method lives with the label.
    pub fn is_method(&self, label: Label) -> bool
        ensures { result ≡ is_method_in (find self.now.items label) }
    {
        match self.object_of(label) {
            Some(object) => matches!(object.kind, Kind::Method),
            None => false,
        }
    }

    /// The place and the size of a surface on the screen.
    pub fn area_of(&self, surface: Label) -> Rect
        ensures { result ≡ area_in (find self.now.items surface) }
    {
        match self.object_of(surface) {
            Some(object) => object.area(),
            None => NO_AREA,
        }
    }

    /// The popups, by rising label.
    pub fn popups(&self) -> &[LivePopup]
        ensures { result.now ≡ popups_of self.now.items }
    {
        &self.popups
    }

    /// A popup that lives has the surface.
    pub fn has_popup(&self, surface: Label) -> bool
        ensures { result ≡ has_popup_in self.now.items surface }
    {
        has_surface(&self.popups, surface)
    }

    /// The fields of the peer, by rising label.
    pub fn fields_of(&self, peer: Label) -> &[LiveField]
        ensures { result.now ≡ fields_of peer self.now.items }
    {
        of_peer(&self.fields, peer)
    }

    /// The act is a request of the field, other than a commit. A field's first surrounding text takes the room.
    pub fn request(&mut self, field: Label, act: &Act, room: &mut Option<Room>)
        requires fits { FitsMessage act.now }
        requires finds { FindsRoom act.now room.old }
        ensures items { self.new.items ≡ map (requested field act.now) self.old.items }
        ensures room { self.new.room ≡ self.old.room }
        ensures bound { self.new.bound ≡ self.old.bound }
    {
        self.shelf.change(field, Change::Ask(act), room);
    }

    /// The focus is the peer's now, or nobody's: the peer's fields are entered anew, and no others.
    pub fn refocus(&mut self, peer: Option<Label>)
        ensures items { self.new.items ≡ map (refocused peer) self.old.items }
        ensures room { self.new.room ≡ self.old.room }
        ensures bound { self.new.bound ≡ self.old.bound }
    {
        let next = entered_by(peer);
        let left = left_for(self.entered, peer);
        refocus_entered(&mut self.shelf, &self.fields, left, peer);
        refocus_entered(&mut self.shelf, &self.fields, next, peer);
        self.entered = next;
    }

    /// The field commits. Where it takes the seat from another, that one is named, no longer holds, and keeps its
    /// pending requests.
    pub fn commit(&mut self, field: Label, displaced: Option<Label>)
        ensures items { self.new.items ≡ map (committed field displaced) self.old.items }
        ensures room { self.new.room ≡ self.old.room }
        ensures bound { self.new.bound ≡ self.old.bound }
    {
        match displaced {
            Some(other) if other != field => self.commit_over(field, other),
            Some(_) | None => self.shelf.change(field, Change::Commit, &mut None),
        }
    }

    // The field commits, and takes the seat from the other.
    fn commit_over(&mut self, field: Label, other: Label)
        requires { other ≢ field }
        ensures items { self.new.items ≡ map (committed field (Some other)) self.old.items }
        ensures room { self.new.room ≡ self.old.room }
        ensures bound { self.new.bound ≡ self.old.bound }
    {
        self.shelf.change(other, Change::Displace, &mut None);
        self.shelf.change(field, Change::Commit, &mut None);
    }

    /// The surface is there on the screen.
    pub fn place_surface(&mut self, surface: Label, rect: Rect)
        ensures items { self.new.items ≡ map (placed_at surface rect) self.old.items }
        ensures room { self.new.room ≡ self.old.room }
        ensures bound { self.new.bound ≡ self.old.bound }
    {
        self.shelf.change(surface, Change::Area(rect), &mut None);
    }

    /// Makes room for one more object. `NoMemory` is its one error.
    pub fn reserve(&mut self) -> Result<(), NoMemory>
        ensures items { self.new.items ≡ self.old.items }
        ensures room { OnOk result (0 < self.new.room) }
        ensures kept { self.old.room ≤ self.new.room }
        ensures bound { self.new.bound ≡ self.old.bound }
    {
        self.shelf.reserve()?;
        self.fields.reserve(1)?;
        self.popups.reserve(1)?;
        Ok(())
    }

    /// Takes in an object whose label is above the others'. Takes no memory.
    pub fn make(&mut self, object: Object)
        requires room { 0 < self.old.room }
        requires above { self.old.bound ≤ object.label }
        ensures items { self.new.items ≡ self.old.items ++ object ∷ [] }
        ensures room { self.old.room ≤ self.new.room + 1 }
        ensures bound { self.new.bound ≡ object.label + 1 }
    {
        self.bound = u64::from(object.label) + 1;
        self.entered = entered_with(self.entered, &object);
        list_field(&mut self.fields, &object);
        list_popup(&mut self.popups, &object);
        self.shelf.make(object);
    }

    /// Takes the object away.
    pub fn remove_object(&mut self, label: Label)
        ensures items { self.new.items ≡ filter (not_label label) self.old.items }
        ensures room { self.old.room ≤ self.new.room }
        ensures bound { self.new.bound ≡ self.old.bound }
    {
        if let Some(object) = self.shelf.remove_object(label) {
            unlist(&mut self.fields, &mut self.popups, object);
        }
    }

    /// Takes the objects of the peer away, and the peer.
    pub fn remove_peer(&mut self, peer: Label)
        ensures items { self.new.items ≡ filter (not_peer peer) self.old.items }
        ensures room { self.old.room ≤ self.new.room }
        ensures bound { self.new.bound ≡ self.old.bound }
    {
        self.shelf.remove_peer(peer);
        self.fields.retain(|each| each.peer != peer);
        self.popups.retain(|each| each.peer != peer);
    }
}
