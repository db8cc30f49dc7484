//! Where the relay puts what is told.
ghost use Rattle.std.specs.Prelude.{◌≡◌, [], ◌∷◌, map, option_map};
ghost use Rattle.relay_model.specs.declared.said.Told.{Told};
ghost use Rattle.relay_model.specs.Batch.{deletion_said, string_said, preedit_said};
ghost use Rattle.relay_model.specs.Told.{to, deleted};
ghost use Rattle.relay_objects.specs.Reached.{Reached};
ghost use Rattle.relay_objects.specs.Groups.{preedit_in, batch_in};
ghost use Rattle.relay_objects.specs.Saying.{said_to, told_each, current_of, text_around};
ghost use Rattle.relay_objects.specs.Saying.{around_told, state_told, group_told, activate_told};
ghost use Rattle.relay_objects.specs.Saying.{update_told, deactivate_told};

use crate::listed::LiveField;
use crate::objects::Objects;
use field_state::Field;
use relay_model::{Label, Said, Text, Told};

/// Takes what is told, one event at a time. Its one meaning is which posts may follow a post that is told something.
pub trait Post {
    /// The post before, what it is told, and a post that may follow.
    ghost may_follow: { Self → Told → Self → Type 0 };

    /// Always returns. A post that needs memory keeps a mark that it found none, and from then on
    /// drops what it is told; its relation says so.
    fn tell(&mut self, told: &Told)
        ensures { may_follow self.old told.now self.new };
}

/// Tells the field that the surface has the focus.
pub fn tell_enter<P: Post>(field: Label, surface: Label, post: &mut P)
    ensures { Reached P.may_follow post.old (record { to = field; event = Said.Enter surface } ∷ [])
        post.new }
{
    post.tell(&Told {
        to: field,
        event: Said::Enter { surface },
    });
}

fn enter_each<P: Post>(fields: &[LiveField], surface: Label, post: &mut P)
    ensures { Reached P.may_follow post.old (told_each (Said.Enter surface) fields.now) post.new }
{
    for field in fields {
        tell_enter(field.label, surface, post);
    }
}

/// Tells each field of the peer that the surface has the focus, by rising label.
pub fn tell_enters<P: Post>(objects: &Objects, peer: Option<Label>, surface: Label, post: &mut P)
    ensures { Reached P.may_follow post.old (said_to (Said.Enter surface) peer objects.now.items)
        post.new }
{
    if let Some(peer) = peer {
        enter_each(objects.fields_of(peer), surface, post);
    }
}

fn tell_leave<P: Post>(field: Label, surface: Label, post: &mut P)
    ensures { Reached P.may_follow post.old (record { to = field; event = Said.Leave surface } ∷ [])
        post.new }
{
    post.tell(&Told {
        to: field,
        event: Said::Leave { surface },
    });
}

fn leave_each<P: Post>(fields: &[LiveField], surface: Label, post: &mut P)
    ensures { Reached P.may_follow post.old (told_each (Said.Leave surface) fields.now) post.new }
{
    for field in fields {
        tell_leave(field.label, surface, post);
    }
}

/// Tells each field of the peer that the surface has the focus no longer, by rising label.
pub fn tell_leaves<P: Post>(objects: &Objects, peer: Option<Label>, surface: Label, post: &mut P)
    ensures { Reached P.may_follow post.old (said_to (Said.Leave surface) peer objects.now.items)
        post.new }
{
    if let Some(peer) = peer {
        leave_each(objects.fields_of(peer), surface, post);
    }
}

fn tell_around<P: Post>(method: Label, field: &Field, text: Text, post: &mut P)
    requires { text ≡ text_around field.now.current.surrounding }
    ensures { Reached P.may_follow post.old
        (around_told method field.now.current.surrounding field.now.current.cause) post.new }
{
    if let Some((_, cursor, anchor)) = field.surrounding() {
        post.tell(&Told {
            to: method,
            event: Said::Surrounding {
                text,
                cursor: cursor.unsigned_abs(),
                anchor: anchor.unsigned_abs(),
            },
        });
        post.tell(&Told {
            to: method,
            event: Said::ChangeCause {
                cause: field.cause(),
            },
        });
    }
}

fn tell_content<P: Post>(method: Label, hint: u32, purpose: u32, post: &mut P)
    ensures { Reached P.may_follow post.old (to method (Said.ContentType hint purpose) ∷ to method
        Said.MethodDone ∷ []) post.new }
{
    post.tell(&Told {
        to: method,
        event: Said::ContentType { hint, purpose },
    });
    post.tell(&Told {
        to: method,
        event: Said::MethodDone,
    });
}

// Tells the method the state of the field, with a copy of its surrounding text, and the done that ends it.
#[tactic(auto, using(crate::proofs::TellsAppend::reached_append))]
fn tell_state<P: Post>(method: Label, field: Option<&Field>, text: Text, post: &mut P)
    requires { text ≡ text_around (current_of (option_map (λ f. f.now) field)).surrounding }
    ensures { Reached P.may_follow post.old (state_told method
        (current_of (option_map (λ f. f.now) field.entry))) post.new }
{
    let Some(field) = field else {
        tell_content(method, 0, 0, post);
        return;
    };
    tell_around(method, field, text, post);
    let (hint, purpose) = field.content();
    tell_content(method, hint, purpose, post);
}

/// Tells the serving method the state of the holder, with a copy of its surrounding text, and the done that ends it.
pub fn tell_update<P: Post>(
    serving: Option<Label>,
    holder: Option<&Field>,
    text: Text,
    post: &mut P,
)
    requires { text ≡ text_around (current_of (option_map (λ f. f.now) holder)).surrounding }
    ensures { Reached P.may_follow post.old (update_told
        (current_of (option_map (λ f. f.now) holder.entry)) serving) post.new }
{
    if let Some(method) = serving {
        tell_state(method, holder, text, post);
    }
}

/// Tells the serving method that a hold begins, and then what `tell_update` tells.
pub fn tell_activate<P: Post>(
    serving: Option<Label>,
    holder: Option<&Field>,
    text: Text,
    post: &mut P,
)
    requires { text ≡ text_around (current_of (option_map (λ f. f.now) holder)).surrounding }
    ensures { Reached P.may_follow post.old (activate_told
        (current_of (option_map (λ f. f.now) holder.entry)) serving) post.new }
{
    if let Some(method) = serving {
        post.tell(&Told {
            to: method,
            event: Said::Activate,
        });
        tell_state(method, holder, text, post);
    }
}

/// Tells the serving method that a hold ends, and the done behind it.
pub fn tell_deactivate<P: Post>(serving: Option<Label>, post: &mut P)
    ensures { Reached P.may_follow post.old (deactivate_told serving) post.new }
{
    let Some(method) = serving else {
        return;
    };
    post.tell(&Told {
        to: method,
        event: Said::Deactivate,
    });
    post.tell(&Told {
        to: method,
        event: Said::MethodDone,
    });
}

/// Tells the method that another one serves.
pub fn tell_unavailable<P: Post>(method: Label, post: &mut P)
    ensures { Reached P.may_follow post.old (record { to = method; event = Said.Unavailable } ∷ [])
        post.new }
{
    post.tell(&Told {
        to: method,
        event: Said::Unavailable,
    });
}

/// Tells the peer that the object's id is free again.
pub fn tell_deleted<P: Post>(label: Label, peer: Option<Label>, post: &mut P)
    ensures { Reached P.may_follow post.old (deleted label peer) post.new }
{
    if let Some(peer) = peer {
        post.tell(&Told {
            to: peer,
            event: Said::DeleteId { label },
        });
    }
}

/// The edits of one batch.
#[derive(Drop)]
pub struct Group {
    /// How many bytes before the cursor are deleted.
    pub before: u32,
    /// How many bytes behind it.
    pub after: u32,
    /// What is inserted.
    pub string: Text,
    /// What is shown at the cursor.
    pub preedit: Preedit,
}

/// A preedit with the bytes where its cursor begins and ends.
#[derive(Drop)]
pub struct Preedit {
    /// The text.
    pub text: Text,
    /// Where its cursor begins, in bytes.
    pub begin: i32,
    /// Where its cursor ends.
    pub end: i32,
}

/// Tells the holder a batch: its deletion, its string and its preedit, each unless it is empty, and
/// the done with the count of the field's commits.
pub fn tell_group<P: Post>(field: Label, edits: Group, count: u32, post: &mut P)
    ensures { Reached P.may_follow post.old (group_told (batch_in edits) count field) post.new }
{
    tell_deletion(field, edits.before, edits.after, post);
    tell_string(field, edits.string, post);
    tell_preedit(field, edits.preedit, post);
    tell_done(field, count, post);
}

fn tell_done<P: Post>(field: Label, count: u32, post: &mut P)
    ensures { Reached P.may_follow post.old (to field (Said.FieldDone count) ∷ []) post.new }
{
    post.tell(&Told {
        to: field,
        event: Said::FieldDone { serial: count },
    });
}

fn tell_deletion<P: Post>(field: Label, before: u32, after: u32, post: &mut P)
    ensures { Reached P.may_follow post.old (map (to field)
        (deletion_said (record { before = before; after = after }))) post.new }
{
    if before != 0 || after != 0 {
        post.tell(&Told {
            to: field,
            event: Said::Delete { before, after },
        });
    }
}

fn tell_string<P: Post>(field: Label, string: Text, post: &mut P)
    ensures { Reached P.may_follow post.old (map (to field) (string_said string)) post.new }
{
    if !string.is_empty() {
        post.tell(&Told {
            to: field,
            event: Said::CommitString { text: string },
        });
    }
}

fn tell_preedit<P: Post>(field: Label, preedit: Preedit, post: &mut P)
    ensures { Reached P.may_follow post.old (map (to field) (preedit_said (preedit_in preedit)))
        post.new }
{
    if !(preedit.text.is_empty() && preedit.begin == 0 && preedit.end == 0) {
        post.tell(&Told {
            to: field,
            event: Said::Preedit {
                text: preedit.text,
                begin: preedit.begin,
                end: preedit.end,
            },
        });
    }
}
