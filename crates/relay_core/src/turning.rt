//! What each act makes of what the relay keeps.
ghost use Rattle.std.specs.Prelude.{◌≡◌, ◌&&◌, ◌+◌, ◌<◌, ◌≤◌, true, Option, Some, None};
ghost use Rattle.relay_model.specs.declared.act.Act.{Act};
ghost use Rattle.relay_model.specs.Idle.{is_place, is_sized};
ghost use Rattle.relay_objects.specs.Fits.{FitsMessage};
ghost use Rattle.relay_objects.specs.declared.object.Kind.TheVariants as kinds;
ghost use Rattle.relay_objects.specs.Objects.{find, no_area};
ghost use Rattle.relay_objects.specs.Reached.{Reached};
ghost use Rattle.relay_core.specs.Kept.{state, HasRoom, HasSpare};
ghost use Rattle.relay_core.specs.Machine.{owner_at, entered_in, is_live_in, is_thing_in, made};
ghost use Rattle.relay_core.specs.Machine.{new_field, serves, dropped, gone, moved, after};
ghost use Rattle.relay_core.specs.Machine.{enter_told, drop_told, gone_told, says, tells, route_of};

use crate::machine::Machine;
use crate::peers::{tell_error, tell_synced};
use field_state::Field;
use kbd_grab::Route;
use relay_model::{Act, Label, Rect};
use relay_objects::{Kind, NO_AREA, Object, Objects, Post, is_number, tell_deleted, tell_enter};

/// The peer of an object that may be there.
pub fn owner_at(objects: &Objects, label: Option<Label>) -> Option<Label>
    ensures { result ≡ owner_at objects.now.items label }
{
    match label {
        Some(label) => objects.owner(label),
        None => None,
    }
}

// A cursor or an anchor that the text can have.
fn is_place(text: &str, at: i32) -> bool
    ensures { result ≡ is_place text.now at }
{
    at >= 0 && text.is_char_boundary(at as usize)
}

fn is_sized(rect: &Rect) -> bool
    ensures { result ≡ is_sized rect.now }
{
    rect.width >= 0 && rect.height >= 0
}

fn is_thing(objects: &Objects, label: Label) -> bool
    ensures { result ≡ is_thing_in (find objects.now.items label) }
{
    match objects.object_of(label) {
        Some(object) => !matches!(object.kind, Kind::Peer),
        None => false,
    }
}

impl Machine {
    #[inline(always)]
    fn is_entered(&self, field: Label) -> bool
        ensures { result ≡ entered_in (state self.now) field }
    {
        match self.objects.object_of(field) {
            Some(object) => {
                object.is_field() && is_number(owner_at(&self.objects, self.focus), object.peer)
            }
            None => false,
        }
    }

    // The act may do something here; a press of a key that is refused does nothing besides, and
    // what boards send does nothing here.
    #[inline(always)]
    pub fn is_live(&self, act: &Act) -> bool
        ensures { result ≡ is_live_in act.now (state self.now) }
    {
        match act {
            Act::Peer => true,
            Act::Gone { peer, .. }
            | Act::Surface { peer }
            | Act::Field { peer }
            | Act::Method { peer }
            | Act::Registry { peer, .. }
            | Act::Sync { peer }
            | Act::Seat { peer }
            | Act::Thing { peer }
            | Act::VBoard { peer }
            | Act::Bad { peer, .. } => self.objects.is_peer(*peer),
            Act::Drop { label } => is_thing(&self.objects, *label),
            Act::Focus { surface } => {
                self.objects.is_surface(*surface) && !is_number(self.focus, *surface)
            }
            Act::Unfocus => self.focus.is_some(),
            Act::Enable { field }
            | Act::Disable { field }
            | Act::Cause { field, .. }
            | Act::Content { field, .. } => self.is_entered(*field),
            Act::Surround {
                field,
                text,
                cursor,
                anchor,
            } => {
                self.is_entered(*field)
                    && is_place(text.as_str(), *cursor)
                    && is_place(text.as_str(), *anchor)
            }
            Act::Cursor { field, rect } => self.is_entered(*field) && is_sized(rect),
            Act::Commit { field } => self.objects.is_field(*field),
            Act::MString { method, .. }
            | Act::MPreedit { method, .. }
            | Act::MDelete { method, .. }
            | Act::MCommit { method, .. } => self.objects.is_method(*method),
            Act::Popup { method, surface } => {
                self.objects.is_method(*method)
                    && self.objects.is_surface(*surface)
                    && !self.objects.has_popup(*surface)
            }
            Act::Grab { method } => self.objects.is_method(*method),
            Act::Area { surface, .. } => self.objects.is_surface(*surface),
            Act::Screen { .. }
            | Act::Key { .. }
            | Act::Mods { .. }
            | Act::Keymap { .. }
            | Act::Repeat { .. } => true,
            Act::VKeymap { .. }
            | Act::VKey { .. }
            | Act::VMods { .. }
            | Act::Took { .. }
            | Act::Idle => false,
        }
    }

    pub fn make(&mut self, peer: Label, kind: Kind)
        requires room { 0 < self.old.objects.room }
        requires above { self.old.objects.bound ≤ self.old.acts }
        ensures { state self.new ≡ made peer kind (state self.old) }
    {
        self.objects.make(Object {
            label: self.acts,
            peer,
            kind,
        });
    }

    // The four below stand apart, so that acts that make nothing make no room for an object.

    #[inline(never)]
    fn make_peer(&mut self)
        requires room { 0 < self.old.objects.room }
        requires above { self.old.objects.bound ≤ self.old.acts }
        ensures { state self.new ≡ made self.old.acts kinds.Peer (state self.old) }
    {
        self.make(self.acts, Kind::Peer);
    }

    #[inline(never)]
    fn make_surface(&mut self, peer: Label)
        requires room { 0 < self.old.objects.room }
        requires above { self.old.objects.bound ≤ self.old.acts }
        ensures { state self.new ≡ made peer (kinds.Surface no_area) (state self.old) }
    {
        self.make(peer, Kind::Surface { area: NO_AREA });
    }

    #[inline(never)]
    fn make_thing(&mut self, peer: Label)
        requires room { 0 < self.old.objects.room }
        requires above { self.old.objects.bound ≤ self.old.acts }
        ensures { state self.new ≡ made peer kinds.Thing (state self.old) }
    {
        self.make(peer, Kind::Thing);
    }

    #[inline(never)]
    fn make_board(&mut self, peer: Label)
        requires room { 0 < self.old.objects.room }
        requires above { self.old.objects.bound ≤ self.old.acts }
        ensures { state self.new ≡ made peer kinds.Board (state self.old) }
    {
        self.make(peer, Kind::Board);
    }

    fn make_field<P: Post>(&mut self, peer: Label, post: &mut P)
        requires room { 0 < self.old.objects.room }
        requires above { self.old.objects.bound ≤ self.old.acts }
        ensures state { state self.new ≡ made peer (Kind.Field (new_field peer (state self.old)))
            (state self.old) }
        ensures told { Reached P.may_follow post.old (enter_told (state self.old) peer
            (state self.old).acts (state self.old).focus) post.new }
    {
        let entered = is_number(owner_at(&self.objects, self.focus), peer);
        if let Some(surface) = self.focus {
            if entered {
                tell_enter(self.acts, surface, post);
            }
        }
        let mut field = Field::new(self.alloc);
        if entered {
            field.enter();
        }
        self.make(peer, Kind::Field(field));
    }

    #[tactic(auto, using(relay_objects::proofs::TellsAppend::reached_append))]
    fn drop_object<P: Post>(&mut self, label: Label, post: &mut P)
        ensures state { state self.new ≡ dropped label (state self.old) }
        ensures told { Reached P.may_follow post.old (drop_told label (state self.old)) post.new }
    {
        let peer = self.objects.owner(label);
        let grabs = is_number(self.keys.standing(), label) || is_number(self.serving, label);
        self.objects.remove_object(label);
        self.fall_where(grabs);
        self.unserve_where(is_number(self.serving, label));
        self.part(
            is_number(self.focus, label),
            is_number(self.holder, label),
            post,
        );
        tell_deleted(label, peer, post);
    }

    fn end_peer<P: Post>(&mut self, peer: Label, post: &mut P)
        ensures state { state self.new ≡ gone peer (state self.old) }
        ensures told { Reached P.may_follow post.old (gone_told peer (state self.old)) post.new }
    {
        let serves = is_number(owner_at(&self.objects, self.serving), peer);
        let focused = is_number(owner_at(&self.objects, self.focus), peer);
        let grabs = is_number(owner_at(&self.objects, self.keys.standing()), peer);
        self.objects.remove_peer(peer);
        self.fall_where(grabs);
        self.unserve_where(serves);
        self.part(focused, false, post);
    }

    // Plays an act that may do something. The route is that of a key act. It stands in line in both of its callers' ways:
    // those of acts that boards have to do with, and of all others.
    #[inline(always)]
    fn play<P: Post>(&mut self, act: &Act, post: &mut P) -> Option<Route>
        requires room { HasRoom self.old.objects.room act.now }
        requires above { self.old.objects.bound ≤ self.old.acts }
        requires spare { HasSpare (state self.old) self.old.spare act.now }
        requires fits { FitsMessage act.now }
        ensures state { state self.new ≡ moved act.now (state self.old) }
        ensures told { Reached P.may_follow post.old (says act.now (state self.old)) post.new }
        ensures route { result ≡ route_of act.now (state self.old) }
    {
        match act {
            Act::Peer => self.make_peer(),
            Act::Gone { peer, .. } => self.end_peer(*peer, post),
            Act::Surface { peer } => self.make_surface(*peer),
            Act::Field { peer } => self.make_field(*peer, post),
            Act::Method { peer } => self.make_method(*peer, post),
            Act::Drop { label } => self.drop_object(*label, post),
            Act::Focus { surface } => self.focus(*surface, post),
            Act::Unfocus => self.unfocus(post),
            Act::Enable { field }
            | Act::Disable { field }
            | Act::Surround { field, .. }
            | Act::Cause { field, .. }
            | Act::Content { field, .. }
            | Act::Cursor { field, .. } => self.objects.request(*field, act, &mut self.spare.room),
            Act::Commit { field } => {
                self.commit(*field, post);
                self.tell_popups_of(*field, post);
            }
            Act::MString { method, text } => self.set_string(*method, text),
            Act::MPreedit {
                method,
                text,
                begin,
                end,
            } => self.set_preedit(*method, text, *begin, *end),
            Act::MDelete {
                method,
                before,
                after,
            } => self.set_deletion(*method, *before, *after),
            Act::MCommit { method, serial } => self.commit_batch(*method, *serial, post),
            Act::Popup { method, surface } => self.make_popup(*method, *surface, post),
            Act::Grab { method } => self.make_grab(*method, post),
            Act::Area { surface, rect } => self.set_area(*surface, *rect, post),
            Act::Screen { size } => self.set_screen(*size, post),
            Act::Key { time, key, state } => return Some(self.turn_key(*time, *key, *state, post)),
            Act::Mods(mods) => self.set_mods(*mods, post),
            Act::Keymap(keymap) => self.set_keymap(*keymap, post),
            Act::Repeat(repeat) => self.set_repeat(*repeat, post),
            Act::Registry { peer, role } => self.make_registry(*peer, *role, post),
            Act::Sync { peer } => tell_synced(self.acts, *peer, post),
            Act::Seat { peer } => self.make_seat(*peer, post),
            Act::Thing { peer } => self.make_thing(*peer),
            Act::Bad {
                peer,
                fault,
                object,
            } => tell_error(*peer, *object, *fault, post),
            Act::VBoard { peer } => self.make_board(*peer),
            Act::VKeymap { .. }
            | Act::VKey { .. }
            | Act::VMods { .. }
            | Act::Took { .. }
            | Act::Idle => {}
        }
        None
    }

    /// Takes one act, and tells the post what the act tells.
    #[inline(always)]
    pub fn turn<P: Post>(&mut self, act: &Act, post: &mut P) -> Option<Route>
        requires room { HasRoom self.old.objects.room act.now }
        requires spare { HasSpare (state self.old) self.old.spare act.now }
        requires fits { FitsMessage act.now }
        requires acts { self.old.acts < 4294967295 }
        ensures state { state self.new ≡ after act.now (state self.old) }
        ensures told { Reached P.may_follow post.old (tells act.now (state self.old)) post.new }
        ensures route { result ≡ route_of act.now (state self.old) }
    {
        let live = self.is_live(act);
        self.acts += 1;
        if live { self.play(act, post) } else { None }
    }
}
