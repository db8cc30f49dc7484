//! The relay's part on the hold: the focus, a field's commits, and what the serving method is told of them.
ghost use Rattle.std.specs.Prelude.{◌≡◌, ◌-◌, ◌<◌, true, option_map, Option, Some, None};
ghost use Rattle.relay_model.specs.declared.act.Act.TheVariants as acts;
ghost use Rattle.field_state.specs.Hold.{holds_after};
ghost use Rattle.relay_objects.specs.Objects.{find, field_in, count_in};
ghost use Rattle.relay_objects.specs.Reached.{Reached};
ghost use Rattle.relay_core.specs.Kept.{state, text_pending};
ghost use Rattle.relay_core.specs.Machine.{owner_at, activated, updated, deactivated, released};
ghost use Rattle.relay_core.specs.Machine.{refocused_to, unfocused, parted, gone, taken_in};
ghost use Rattle.relay_core.specs.Machine.{taken_by, displaced_by, held, committing};
ghost use Rattle.relay_core.specs.Machine.{field_committed, leaves_of, text_around, state_of};
ghost use Rattle.relay_core.specs.Machine.{activate_told, update_told, release_told, part_told};
ghost use Rattle.relay_core.specs.Machine.{commit_told, says};

use crate::machine::Machine;
use crate::turning::owner_at;
use field_state::Taken;
use relay_model::Label;
use relay_objects::{
    Objects, Post, tell_activate, tell_deactivate, tell_enters, tell_leaves, tell_update,
};
use serial_count::Since;

// What a commit of the field does.
fn taken(objects: &Objects, field: Label) -> Taken
    ensures { result ≡ taken_in (field_in (find objects.now.items field)) }
{
    match objects.field_of(field) {
        Some(field) => field.commit_answer(),
        None => Taken::Nothing,
    }
}

// How often a field committed that may be there.
fn commits_of(objects: &Objects, field: Option<Label>) -> Option<u32>
    ensures { result ≡ option_map (λ f. count_in (find objects.now.items f)) field }
{
    match field {
        Some(field) => Some(objects.count_of(field)),
        None => None,
    }
}

// The field that had the seat, where a commit that does this begins a hold.
fn displaced(taken: Taken, holder: Option<Label>) -> Option<Label>
    ensures { result ≡ displaced_by taken holder }
{
    match taken {
        Taken::Begun => holder,
        Taken::Updated | Taken::Ended | Taken::Nothing => None,
    }
}

impl Machine {
    /// How often the holder committed.
    pub fn holder_commits(&self) -> Option<u32>
        ensures { result ≡ option_map (λ f. count_in (find (state self.now).objects f))
            (state self.now).holder }
    {
        commits_of(&self.objects, self.holder)
    }

    // The serving method was told of an activation, which forgets its pending edits.
    fn count_activate(&mut self)
        ensures state { state self.new ≡ activated (state self.old) }
        ensures objects { self.new.objects ≡ self.old.objects }
    {
        if self.serving.is_some() {
            self.dones.next();
            self.active = true;
            self.since.begin();
            self.pending.reset();
        }
    }

    fn count_update(&mut self)
        ensures { state self.new ≡ updated (state self.old) }
    {
        if self.serving.is_some() {
            self.dones.next();
            if self.active {
                self.since.next();
            }
        }
    }

    fn count_deactivate(&mut self)
        ensures { state self.new ≡ deactivated (state self.old) }
    {
        if self.serving.is_some() {
            self.dones.next();
            self.active = false;
            self.since = Since::at(0);
            self.pending.reset();
        }
    }

    // A hold of the field begins, or a method comes while it holds.
    pub fn activate<P: Post>(&mut self, field: Label, post: &mut P)
        requires { self.old.spare.text ≡ text_around (state_of (state self.old) field).surrounding }
        ensures state { state self.new ≡ activated (state self.old) }
        ensures objects { self.new.objects ≡ self.old.objects }
        ensures told { Reached P.may_follow post.old
            (activate_told (state_of (state self.old) field) (state self.old).serving) post.new }
    {
        let text = self.spare.take_text(self.alloc);
        tell_activate(self.serving, self.objects.field_of(field), text, post);
        self.count_activate();
    }

    // The field goes on holding.
    fn update<P: Post>(&mut self, field: Label, post: &mut P)
        requires { self.old.spare.text ≡ text_around (state_of (state self.old) field).surrounding }
        ensures state { state self.new ≡ updated (state self.old) }
        ensures told { Reached P.may_follow post.old (update_told (state_of (state self.old) field)
            (state self.old).serving) post.new }
    {
        let text = self.spare.take_text(self.alloc);
        tell_update(self.serving, self.objects.field_of(field), text, post);
        self.count_update();
    }

    // Ends the hold, if there is one.
    pub fn release<P: Post>(&mut self, post: &mut P)
        ensures state { state self.new ≡ released (state self.old) }
        ensures objects { self.new.objects.items ≡ self.old.objects.items }
        ensures told { Reached P.may_follow post.old
            (release_told (state self.old).holder (state self.old).serving) post.new }
    {
        if self.holder.is_some() {
            self.holder = None;
            tell_deactivate(self.serving, post);
            self.count_deactivate();
        }
    }

    // Moves the focus, which enters and leaves fields.
    pub fn refocus(&mut self, surface: Option<Label>)
        ensures { state self.new ≡ refocused_to surface (state self.old) }
    {
        let peer = owner_at(&self.objects, surface);
        self.objects.refocus(peer);
        self.focus = surface;
    }

    pub fn tell_leaves<P: Post>(&self, post: &mut P)
        ensures { Reached P.may_follow post.old (leaves_of (state self.now) (state self.now).focus)
            post.new }
    {
        if let Some(surface) = self.focus {
            let peer = owner_at(&self.objects, self.focus);
            tell_leaves(&self.objects, peer, surface, post);
        }
    }

    // The surface that has the focus may be gone, or the holder.
    pub fn part<P: Post>(&mut self, focus: bool, holder: bool, post: &mut P)
        ensures state { state self.new ≡ parted focus holder (state self.old) }
        ensures told { Reached P.may_follow post.old (part_told focus holder (state self.old).holder
            (state self.old).serving) post.new }
    {
        if focus {
            self.release(post);
            self.refocus(None);
        } else if holder {
            self.release(post);
        }
    }

    #[tactic(auto, using(relay_objects::proofs::TellsAppend::reached_append))]
    pub fn focus<P: Post>(&mut self, surface: Label, post: &mut P)
        ensures state { state self.new ≡ refocused_to (Some surface) (released (state self.old)) }
        ensures told { Reached P.may_follow post.old (says (acts.Focus surface) (state self.old))
            post.new }
    {
        let peer = self.objects.owner(surface);
        self.tell_leaves(post);
        self.release(post);
        tell_enters(&self.objects, peer, surface, post);
        self.refocus(Some(surface));
    }

    #[tactic(auto, using(relay_objects::proofs::TellsAppend::reached_append))]
    pub fn unfocus<P: Post>(&mut self, post: &mut P)
        ensures state { state self.new ≡ unfocused (state self.old) }
        ensures told { Reached P.may_follow post.old (says acts.Unfocus (state self.old)) post.new }
    {
        self.tell_leaves(post);
        self.release(post);
        self.refocus(None);
    }

    // A commit of the field that does this.
    fn hold<P: Post>(&mut self, field: Label, taken: Taken, post: &mut P)
        requires { holds_after taken ≡ true →
            self.old.spare.text ≡ text_around (state_of (state self.old) field).surrounding }
        ensures state { state self.new ≡ held field taken (state self.old) }
        ensures told { Reached P.may_follow post.old (commit_told field taken (state self.old))
            post.new }
    {
        match taken {
            Taken::Begun => {
                self.holder = Some(field);
                self.activate(field, post);
            }
            Taken::Updated => self.update(field, post),
            Taken::Ended => self.release(post),
            Taken::Nothing => {}
        }
    }

    // The field commits, and another loses the seat where this begins a hold.
    fn commit_field(&mut self, field: Label, taken: Taken)
        ensures state { state self.new ≡ committing field taken (state self.old) }
        ensures spare { self.new.spare ≡ self.old.spare }
    {
        let other = displaced(taken, self.holder);
        self.objects.commit(field, other);
    }

    pub fn commit<P: Post>(&mut self, field: Label, post: &mut P)
        requires { self.old.spare.text ≡ text_pending
            (field_in (find (state self.old).objects field)) }
        ensures state { state self.new ≡ field_committed field (state self.old) }
        ensures told { let taken = taken_by field (state self.old) in Reached P.may_follow post.old
            (commit_told field taken (committing field taken (state self.old))) post.new }
    {
        let taken = taken(&self.objects, field);
        self.commit_field(field, taken);
        self.hold(field, taken, post);
    }
}
