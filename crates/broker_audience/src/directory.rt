//! Whose each label is.
ghost use Rattle.std.specs.Prelude.{◌≡◌, ◌==◌, ◌≤◌, not, filter, vec_len, vec_capacity};
ghost use Rattle.broker_model.specs.Kept.{is_object};
ghost use Rattle.broker_audience.specs.Directed.{made_of, made_from, AreFalling};

use relay_model::{Act, Label};
use std::alloc::Global;
use std::marker::Model;
use wio_core::NoMemory;
use wl_proto::Interface;

/// An object that a peer made under an id of its own, alive or not.
#[derive(Clone, Copy)]
pub struct Named {
    /// The label of the peer.
    pub peer: Label,
    /// The id under which the peer made it: 1 is its display.
    pub id: u32,
    /// The number of the entry with which it was made.
    pub label: Label,
    /// What it is.
    pub interface: Interface,
}

/// Objects that were made under ids and weren't let go, found by their labels. A look-up costs the
/// logarithm of their number.
///
/// In contracts it is what they were made as, the newest first, and for how many more there is
/// room.
#[derive(Drop)]
pub struct Directory {
    // By rising label.
    objects: Vec<Named>,
}

// It is the object with the label, and no display.
fn is_object(object: &Named, label: Label) -> bool
    ensures { result ≡ is_object label (made_of object.now) }
{
    label == object.label && object.peer != object.label
}

// Lets go of the object with the label, if it is there and no display.
fn forget(objects: &mut Vec<Named>, label: Label)
    requires falling { AreFalling (made_from objects.old.items) }
    ensures left { made_from objects.new.items ≡ filter (λ m. not (is_object label m))
        (made_from objects.old.items) }
    ensures len { vec_len objects.new ≤ vec_len objects.old }
    ensures capacity { vec_capacity objects.new ≡ vec_capacity objects.old }
{
    let place = objects.partition_point(|object| object.label < label);
    let Some(object) = objects.get(place) else {
        return;
    };
    if is_object(object, label) {
        let _ = objects.remove(place);
    }
}

// Lets go of all that the peer made.
fn forget_peer(objects: &mut Vec<Named>, peer: Label)
    ensures left { made_from objects.new.items ≡ filter (λ m. not (m.peer == peer))
        (made_from objects.old.items) }
    ensures len { vec_len objects.new ≤ vec_len objects.old }
    ensures capacity { vec_capacity objects.new ≡ vec_capacity objects.old }
{
    objects.retain(|object| object.peer != peer);
}

impl Model for Directory {
    ghost use Rattle.std.specs.Prelude.{◌-◌, vec_len, vec_capacity};
    ghost use Rattle.broker_audience.specs.Directed.{Directed, made_from, AreFalling};

    ghost Value = { Directed };

    ghost view = { λ d. record {
      made = made_from d.objects.items;
      room = vec_capacity d.objects - vec_len d.objects;
    } };

    ghost invariant = { λ d. AreFalling (made_from d.objects.items) };
}

impl Directory {
    ghost use Rattle.std.specs.Prelude.{◌≡◌, ◌+◌, ◌<◌, ◌≤◌, [], ◌∷◌, option_map, OnOk};
    ghost use Rattle.broker_model.specs.Kept.{kept_by};
    ghost use Rattle.broker_model.specs.Ids.{made_as};
    ghost use Rattle.broker_audience.specs.Directed.{made_of, IsNewest};

    /// Nothing was made yet. Takes no memory.
    pub fn new(alloc: Global) -> Directory
        ensures empty { result.made ≡ [] }
    {
        Directory {
            objects: Vec::new(alloc),
        }
    }

    /// What was made with the label.
    pub fn find(&self, label: Label) -> Option<Named>
        ensures value { option_map made_of result ≡ made_as self.now.made label }
    {
        let place = self.objects.partition_point(|object| object.label < label);
        let object = self.objects.get(place)?;
        if object.label == label {
            Some(*object)
        } else {
            None
        }
    }

    /// Makes room for so many more. `NoMemory` is its one error, after which there is the room that there was.
    pub fn reserve(&mut self, more: usize) -> Result<(), NoMemory>
        ensures same { self.new.made ≡ self.old.made }
        ensures room { OnOk result (more ≤ self.new.room) }
        ensures never_less { self.old.room ≤ self.new.room }
    {
        self.objects.reserve(more)?;
        Ok(())
    }

    /// Puts one more, with a label above all others. Asks that there is room. Takes no memory.
    pub fn push(&mut self, object: Named)
        requires room { 0 < self.old.room }
        requires newest { IsNewest object.label self.old.made }
        ensures put { self.new.made ≡ made_of object ∷ self.old.made }
        ensures room_left { self.old.room ≤ self.new.room + 1 }
    {
        let _ = self.objects.push(object);
    }

    /// Lets go of what the act, which has this number, leaves dead: what it drops, all of a peer
    /// that it ends, or the callback of a sync. Costs a look-up and the move of what is newer, and
    /// at the end of a peer a pass over all. Takes no memory.
    pub fn let_go(&mut self, act: &Act, number: Label)
        ensures left { self.new.made ≡ kept_by act.now number self.old.made }
        ensures room { self.old.room ≤ self.new.room }
    {
        match act {
            Act::Drop { label } => forget(&mut self.objects, *label),
            Act::Gone { peer, .. } => forget_peer(&mut self.objects, *peer),
            Act::Sync { .. } => forget(&mut self.objects, number),
            _ => {}
        }
    }
}
