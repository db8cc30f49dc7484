//! The relay's part on methods: which one serves, its pending edits, and its commits.
ghost use Rattle.std.specs.Prelude.{◌≡◌, ◌&&◌, ◌-◌, ◌<◌, ◌≤◌, Some, None, length};
ghost use Rattle.relay_model.specs.declared.act.Act.TheVariants as acts;
ghost use Rattle.relay_model.specs.Objects.{is_at};
ghost use Rattle.relay_objects.specs.Reached.{Reached};
ghost use Rattle.relay_core.specs.Kept.{state};
ghost use Rattle.relay_objects.specs.Groups.{batch_in};
ghost use Rattle.relay_core.specs.Machine.{served_unless, serving_unless, serves, method_made};
ghost use Rattle.relay_core.specs.Machine.{gone, moved, after, text_around, holder_state};
ghost use Rattle.relay_core.specs.Machine.{method_told, batch_of, is_fresh, group_of_holder};
ghost use Rattle.relay_core.specs.Machine.{batch_told};

use crate::machine::Machine;
use relay_model::{Label, Text};
use relay_objects::{Group, Kind, Post, Preedit, is_number, tell_group, tell_unavailable};
use serial_count::{Count32, Since, fresh};

// The serial names a done of the present activation.
fn is_fresh(dones: Count32, since: Since, serial: u32) -> bool
    ensures { result ≡ is_fresh dones since serial }
{
    fresh(dones, since, serial)
}

impl Machine {
    fn serve(&mut self)
        ensures state { state self.new ≡ serves (state self.old) }
        ensures objects { self.new.objects ≡ self.old.objects }
        ensures spare { self.new.spare ≡ self.old.spare }
    {
        self.serving = Some(self.acts);
        self.pending.reset();
        self.active = false;
        self.dones = Count32::at(0);
        self.since = Since::at(0);
    }

    pub fn make_method<P: Post>(&mut self, peer: Label, post: &mut P)
        requires room { 0 < self.old.objects.room }
        requires above { self.old.objects.bound ≤ self.old.acts }
        requires spare { self.old.spare.text ≡ text_around
            (holder_state (state self.old)).surrounding }
        ensures state { state self.new ≡ method_made peer (state self.old) }
        ensures told { Reached P.may_follow post.old (method_told (state self.old)) post.new }
    {
        if self.serving.is_some() {
            tell_unavailable(self.acts, post);
        } else {
            self.serve();
            if let Some(holder) = self.holder {
                self.activate(holder, post);
            }
        }
        self.make(peer, Kind::Method);
    }

    // The serving method may be gone.
    pub fn unserve_where(&mut self, gone: bool)
        ensures state { state self.new ≡ served_unless gone (state self.old) }
        ensures serving { self.new.serving ≡ serving_unless gone self.old.serving }
        ensures holder { self.new.holder ≡ self.old.holder }
    {
        if gone {
            self.serving = None;
            self.pending.reset();
            self.active = false;
            self.dones = Count32::at(0);
            self.since = Since::at(0);
        }
    }

    // The method serves, and an activation is present.
    fn is_editing(&self, method: Label) -> bool
        ensures { result ≡ (is_at self.now.serving method && self.now.active) }
    {
        is_number(self.serving, method) && self.active
    }

    // Each edit counts where the method serves and an activation is present.

    pub fn set_string(&mut self, method: Label, text: &Text)
        requires { length text.now ≤ 4083 }
        ensures { state self.new ≡ moved (acts.MString method text.now) (state self.old) }
    {
        if self.is_editing(method) {
            self.pending.string(text);
        }
    }

    pub fn set_preedit(&mut self, method: Label, text: &Text, begin: i32, end: i32)
        requires { length text.now ≤ 4075 }
        ensures { state self.new ≡ moved (acts.MPreedit method text.now begin end) (state
            self.old) }
    {
        if self.is_editing(method) {
            self.pending.preedit(text, begin, end);
        }
    }

    pub fn set_deletion(&mut self, method: Label, before: u32, after: u32)
        ensures { state self.new ≡ moved (acts.MDelete method before after) (state self.old) }
    {
        if self.is_editing(method) {
            self.pending.delete(before, after);
        }
    }

    // The pending edits, with the copies of their texts.
    fn take_group(&mut self) -> Group
        requires string { self.old.spare.text ≡ (state self.old).edits.string }
        requires preedit { self.old.spare.preedit ≡ (state self.old).edits.preedit.text }
        ensures edits { batch_in result ≡ batch_of (state self.old).edits }
        ensures state { state self.new ≡ state self.old }
    {
        let string = self.spare.take_text(self.alloc);
        let preedit = self.spare.take_preedit(self.alloc);
        let edits = self.pending.edits();
        Group {
            before: edits.before,
            after: edits.after,
            string,
            preedit: Preedit {
                text: preedit,
                begin: edits.begin,
                end: edits.end,
            },
        }
    }

    fn tell_batch<P: Post>(&self, edits: Group, post: &mut P)
        requires { batch_in edits ≡ batch_of (state self.now).edits }
        ensures { Reached P.may_follow post.old
            (group_of_holder (state self.now) (state self.now).holder) post.new }
    {
        if let Some(field) = self.holder {
            tell_group(field, edits, self.objects.count_of(field), post);
        }
    }

    pub fn commit_batch<P: Post>(&mut self, method: Label, serial: u32, post: &mut P)
        requires string { self.old.spare.text ≡ (state self.old).edits.string }
        requires preedit { self.old.spare.preedit ≡ (state self.old).edits.preedit.text }
        ensures state { state self.new ≡ moved (acts.MCommit method serial) (state self.old) }
        ensures told { Reached P.may_follow post.old (batch_told method serial (state self.old))
            post.new }
    {
        if !is_number(self.serving, method) {
            return;
        }
        if is_fresh(self.dones, self.since, serial) {
            let edits = self.take_group();
            self.tell_batch(edits, post);
        }
        self.pending.reset();
    }
}
