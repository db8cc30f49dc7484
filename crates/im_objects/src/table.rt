//! The objects of one peer, in two maps: by their ids and by their labels.
ghost use Rattle.std.specs.Prelude.{◌≡◌, ◌↔◌, ◌≤◌, ◌∷◌, [], List, ℕ, None, Some, Err, false, true};
ghost use Rattle.std.specs.Prelude.{is_some, not, set, ◌&&◌, ◌==◌, IfOk, OnOk, OnErr, IfSome};
ghost use Rattle.std.specs.Prelude.{IfNone, IsOkUnless};
ghost use Rattle.std.specs.Ordering.{nat_cmp};
ghost use Rattle.std.specs.BTreeMap as tree;
ghost use Rattle.std.specs.FinMap as map;
ghost use Rattle.im_objects.specs.Calls.{Call, object_under, id_of, takes_effect};
ghost use Rattle.im_objects.specs.Calls.Call.{Make, Drop};
ghost use Rattle.im_objects.specs.Objects.{AreNear, IsLabelled, Stands, is_no_client_id};
ghost use Rattle.im_objects.specs.Objects.{refusal_of, under_of, ids_of};
ghost use Rattle.wl_proto.specs.declared.interface.Interface.TheVariants.{Display};

use crate::MakeRefusal;
use std::alloc::Global;
use std::collections::BTreeMap;
use std::marker::Model;
use wio_core::NoMemory;
use wl_proto::Interface;

/// The number that names an object for good: that of the act that made it. Unlike an id it is never used anew.
pub type Label = u32;

/// The id of `wl_display`, which each peer has from its beginning.
pub const DISPLAY_ID: u32 = 1;

/// The last id that a client may choose; those above are the server's.
pub const LAST_ID: u32 = 0xFEFF_FFFF;

/// How many objects may be live besides the display.
pub const MOST_LIVE: usize = 256;

// How many ids are looked up without a search.
const NEAR: usize = 64;

/// The live objects of one peer.
///
/// In contracts it is an `Objects`, two finite maps: what is under each id that is live, and the id
/// of each label that is.
/// `Stands calls objects` says that it is as a list of calls, the newest first, made it. A look-up
/// costs the logarithm of the number of live objects, and less by one of the first 64 ids. Only
/// `new` and `make` take memory.
#[derive(Drop)]
pub struct Table {
    objects: BTreeMap<u32, (Interface, Label)>,
    ids: BTreeMap<Label, u32>,
    // What is under each of the first ids, by which most messages go.
    near: Vec<Option<(Interface, Label)>>,
}

impl Model for Table {
    ghost use Rattle.im_objects.specs.Objects.{Objects, objects_code, under_of, ids_of, IsWhole};
    ghost use Rattle.im_objects.specs.Objects.{AreNear};

    ghost Value = { Objects };

    ghost coded = { objects_code };

    ghost view = { λ a. record {
      under = under_of a.objects.entries;
      ids = ids_of a.ids.entries;
    } };

    ghost invariant = { λ a. IsWhole (under_of a.objects.entries) (ids_of a.ids.entries)
        × AreNear a.near.items (under_of a.objects.entries) };
}

// Nothing under each of the first ids.
fn no_near(alloc: Global) -> Result<Vec<Option<(Interface, Label)>>, NoMemory>
    ensures { IfOk result (λ near. AreNear near.items map.empty) }
{
    let mut near = Vec::with_capacity(alloc, NEAR)?;
    while near.len() < NEAR {
        near.push(None)?;
    }
    Ok(near)
}

// What is under the id from now on, if it is one of the first.
fn note(near: &mut Vec<Option<(Interface, Label)>>, id: u32, object: Option<(Interface, Label)>)
    ensures { near.new.items ≡ set near.old.items id object }
{
    if let Some(slot) = near.get_mut(id as usize) {
        *slot = object;
    }
}

// Puts an object under an id that is free. Where there is no memory both maps are as before.
fn put(
    objects: &mut BTreeMap<u32, (Interface, Label)>,
    ids: &mut BTreeMap<Label, u32>,
    id: u32,
    interface: Interface,
    label: Label,
) -> Result<(), NoMemory>
    requires free { map.get (under_of objects.old.entries) id ≡ None }
    ensures under { OnOk result (under_of objects.new.entries
        ≡ map.insert (under_of objects.old.entries) id (interface, label)) }
    ensures labelled { OnOk result (ids_of ids.new.entries ≡ map.insert (ids_of ids.old.entries)
        label id) }
    ensures err { OnErr result (under_of objects.new.entries ≡ under_of objects.old.entries) }
    ensures err_ids { OnErr result (ids_of ids.new.entries ≡ ids_of ids.old.entries) }
{
    objects.insert(id, (interface, label))?;
    match ids.insert(label, id) {
        Ok(_) => Ok(()),
        Err(_) => {
            objects.remove(&id);
            Err(NoMemory)
        }
    }
}

// No client may choose the id.
fn is_no_client_id(id: u32) -> bool
    ensures { result ≡ is_no_client_id id }
{
    id == 0 || id > LAST_ID
}

impl Table {
    /// A table with `wl_display` under `DISPLAY_ID`, with the peer's own label. `NoMemory` is its one error.
    pub fn new(alloc: Global, peer: Label) -> Result<Table, NoMemory>
        ensures display { IfOk result (λ table. table ≡ record {
          under = map.insert map.empty 1 (Display, peer);
          ids = map.insert map.empty peer 1;
        }) }
        ensures history { IfOk result (λ table. Stands (Make 1 Display peer ∷ []) table) }
    {
        let mut objects = BTreeMap::new(alloc);
        let mut ids = BTreeMap::new(alloc);
        put(&mut objects, &mut ids, DISPLAY_ID, Interface::Display, peer)?;
        let mut near = no_near(alloc)?;
        note(&mut near, DISPLAY_ID, Some((Interface::Display, peer)));
        Ok(Table { objects, ids, near })
    }

    // Why nothing can be made under the id, if so.
    fn refusal_of(&self, id: u32) -> Option<MakeRefusal>
        ensures { result ≡ refusal_of self.now id }
    {
        if is_no_client_id(id) {
            Some(MakeRefusal::IdRange)
        } else if self.objects.contains_key(&id) {
            Some(MakeRefusal::IdTaken)
        } else if self.objects.len() > MOST_LIVE {
            Some(MakeRefusal::TooMany)
        } else {
            None
        }
    }

    /// Makes an object under the id that the peer chose for it (an argument `new_id` of a request),
    /// with a label that no live object has. The caller gives labels that the table never had.
    ///
    /// `IdRange` comes where the id is 0 or above `LAST_ID`, else `IdTaken` where an object is live under it, else
    /// `TooMany` where `MOST_LIVE` are live besides the display, else `NoMemory` may come. After each the table is as
    /// before.
    pub fn make(&mut self, id: u32, interface: Interface, label: Label) -> Result<(), MakeRefusal>
        requires unused { map.get self.old.ids label ≡ None }
        ensures refused { IfSome (refusal_of self.old id) (λ why. result ≡ Err why) }
        ensures made { IfNone (refusal_of self.old id) (IsOkUnless result MakeRefusal.NoMemory) }
        ensures ok { OnOk result (self.new ≡ record {
          under = map.insert self.old.under id (interface, label);
          ids = map.insert self.old.ids label id;
        }) }
        ensures err { OnErr result (self.new ≡ self.old) }

        // The display and 256 others.
        ensures few { map.len self.new.under ≤ 257 }
        ensures history { (calls : List Call) → Stands calls self.old →
            OnOk result (Stands (Make id interface label ∷ calls) self.new) }
    {
        if let Some(refusal) = self.refusal_of(id) {
            return Err(refusal);
        }
        let Ok(()) = put(&mut self.objects, &mut self.ids, id, interface, label) else {
            return Err(MakeRefusal::NoMemory);
        };
        note(&mut self.near, id, Some((interface, label)));
        Ok(())
    }

    /// How many objects are live, the display with them: 1 to 257.
    pub fn len(&self) -> usize
        ensures { result ≡ map.len self.now.under }
    {
        self.objects.len()
    }

    /// The object under the id, its interface and its label, if one is live there.
    pub fn find(&self, id: u32) -> Option<(Interface, Label)>
        ensures now { result ≡ map.get self.now.under id }
        ensures history { (calls : List Call) → Stands calls self.now →
            result ≡ object_under calls id }
    {
        match self.near.get(id as usize) {
            Some(object) => *object,
            None => self.objects.get(&id).copied(),
        }
    }

    /// The id of the live object with this label, if there is one.
    pub fn find_label(&self, label: Label) -> Option<u32>
        ensures now { result ≡ map.get self.now.ids label }

        // What is under the id has the label.
        ensures inverse { (id : ℕ) → (result ≡ Some id) ↔ IsLabelled label
            (map.get self.now.under id) }
        ensures history { (calls : List Call) → Stands calls self.now → result ≡ id_of calls label }
    {
        self.ids.get(&label).copied()
    }

    /// The object under the id is gone (`wl_display.delete_id` tells the peer so), and the id is
    /// free. False, and nothing changes, where no object is live under the id or it is the
    /// display's.
    pub fn drop_id(&mut self, id: u32) -> bool
        ensures answer { result ≡ (not (id == 1) && is_some (map.get self.old.under id)) }
        ensures dropped { result ≡ true → IfSome (map.get self.old.under id)
            (λ gone. self.new ≡ record {
              under = map.remove self.old.under id;
              ids = map.remove
                  self.old.ids gone.1;
            }) }
        ensures kept { result ≡ false → self.new ≡ self.old }
        ensures history { (calls : List Call) → Stands calls self.old →
            Stands (Drop id ∷ calls) self.new }
        ensures effect { (calls : List Call) → Stands calls self.old →
            result ≡ takes_effect calls id }
    {
        if id == DISPLAY_ID {
            return false;
        }
        let Some((_, label)) = self.objects.remove(&id) else {
            return false;
        };
        self.ids.remove(&label);
        note(&mut self.near, id, None);
        true
    }
}
