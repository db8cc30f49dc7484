//! The relay's part on what a peer does beside its surfaces, fields and methods: registries, syncs,
//! bound globals and refused messages.
ghost use Rattle.std.specs.Prelude.{◌≡◌, ◌<◌, ◌≤◌, [], ◌∷◌, map};
ghost use Rattle.relay_model.specs.Globals.{global_told, globals_told};
ghost use Rattle.relay_model.specs.Told.{to, synced};
ghost use Rattle.relay_objects.specs.Reached.{Reached};
ghost use Rattle.relay_core.specs.Kept.{state};
ghost use Rattle.relay_core.specs.Machine.{made};

use crate::machine::Machine;
use relay_model::{Fault, Interface, Label, Role, Said, Told};
use relay_objects::{Kind, Post, tell_deleted};

// Tells the object an event.
#[inline(always)]
fn tell<P: Post>(object: Label, event: Said, post: &mut P)
    ensures { Reached P.may_follow post.old (to object event ∷ []) post.new }
{
    post.tell(&Told { to: object, event });
}

// Every global has version 1.
fn tell_global<P: Post>(registry: Label, name: u32, interface: Interface, post: &mut P)
    ensures { Reached P.may_follow post.old (to registry (Said.Global name interface 1) ∷ [])
        post.new }
{
    tell(
        registry,
        Said::Global {
            name,
            interface,
            version: 1,
        },
        post,
    );
}

// Tells a registry each of these globals.
#[tactic(auto, using(relay_objects::proofs::TellsAppend::reached_append))]
fn tell_offers<P: Post>(registry: Label, offers: &[(u32, Interface)], post: &mut P)
    ensures { Reached P.may_follow post.old (map (global_told registry) offers.now) post.new }
{
    match offers {
        [] => {}
        [(name, interface), rest @ ..] => {
            tell_global(registry, *name, *interface, post);
            tell_offers(registry, rest, post);
        }
    }
}

// Tells a new registry the globals that are offered to the role.
fn tell_globals<P: Post>(registry: Label, role: Role, post: &mut P)
    ensures { Reached P.may_follow post.old (globals_told registry role) post.new }
{
    tell_offers(registry, role.globals(), post);
}

/// Tells the callback of a sync its value, and the peer that its id is free again.
pub fn tell_synced<P: Post>(callback: Label, peer: Label, post: &mut P)
    ensures { Reached P.may_follow post.old (synced callback peer) post.new }
{
    tell(callback, Said::CallbackDone { value: 0 }, post);
    tell_deleted(callback, Some(peer), post);
}

// The seat has no pointer, no keyboard and no touch.
fn tell_capabilities<P: Post>(seat: Label, post: &mut P)
    ensures { Reached P.may_follow post.old (to seat (Said.Capabilities 0) ∷ []) post.new }
{
    tell(seat, Said::Capabilities { value: 0 }, post);
}

/// Tells the peer that a message was refused, and of which object it is an error.
pub fn tell_error<P: Post>(peer: Label, object: Label, fault: Fault, post: &mut P)
    ensures { Reached P.may_follow post.old (to peer (Said.Error object fault) ∷ []) post.new }
{
    tell(peer, Said::Error { object, fault }, post);
}

impl Machine {
    pub fn make_registry<P: Post>(&mut self, peer: Label, role: Role, post: &mut P)
        requires room { 0 < self.old.objects.room }
        requires above { self.old.objects.bound ≤ self.old.acts }
        ensures state { state self.new ≡ made peer Kind.Thing (state self.old) }
        ensures told { Reached P.may_follow post.old (globals_told (state self.old).acts role)
            post.new }
    {
        tell_globals(self.acts, role, post);
        self.make(peer, Kind::Thing);
    }

    pub fn make_seat<P: Post>(&mut self, peer: Label, post: &mut P)
        requires room { 0 < self.old.objects.room }
        requires above { self.old.objects.bound ≤ self.old.acts }
        ensures state { state self.new ≡ made peer Kind.Thing (state self.old) }
        ensures told { Reached P.may_follow post.old (to (state self.old).acts
            (Said.Capabilities 0) ∷ []) post.new }
    {
        tell_capabilities(self.acts, post);
        self.make(peer, Kind::Thing);
    }
}
