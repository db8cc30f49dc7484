//! What the method's client tells.
ghost use Rattle.std.specs.Prelude.{◌≡◌, ◌+◌, ◌≤◌, ◌++◌, length};
ghost use Rattle.trial_field.specs.Log.{IsBatch, batch_of};
ghost use Rattle.trial_field.specs.declared.batch_view.TheConstants.{MAX_STRING, MAX_PREEDIT};
ghost use Rattle.client_side.specs.Messages.{spelled};
ghost use Rattle.client_side.specs.MethodSends.{deletion_sent, string_sent, preedit_sent};
ghost use Rattle.client_side.specs.MethodSends.{batch_sent};

use crate::outbox::Outbox;
use trial_field::BatchView;
use wl_proto::Request;

/// The id of the client's input method.
const METHOD: u32 = 5;

// A deletion, unless it is empty: at most 16 bytes.
fn put_deletion(out: &mut Outbox, before: u32, after: u32)
    requires { 16 ≤ out.old.room }
    ensures bytes { out.new.bytes ≡ out.old.bytes ++ spelled (deletion_sent before after) }
    ensures room { out.old.room ≤ out.new.room + 16 }
{
    if before == 0 && after == 0 {
        return;
    }
    out.put(METHOD, &Request::DeleteSurroundingText { before, after });
}

// A string, unless it is empty.
fn put_string(out: &mut Outbox, text: &str)
    requires fits { length text.now ≤ MAX_STRING }
    requires room { 16 + length text.now ≤ out.old.room }
    ensures bytes { out.new.bytes ≡ out.old.bytes ++ spelled (string_sent text.now) }
    ensures room { out.old.room ≤ out.new.room + (16 + length text.now) }
{
    if text.len() == 0 {
        return;
    }
    out.put(METHOD, &Request::CommitString { text });
}

// The batch's preedit, unless it is empty and its cursors are 0.
fn put_preedit(out: &mut Outbox, batch: &BatchView<'_>)
    requires fits { length batch.now.preedit.now ≤ MAX_PREEDIT }
    requires room { 24 + length batch.now.preedit.now ≤ out.old.room }
    ensures bytes { let b = batch_of batch.now in out.new.bytes
        ≡ out.old.bytes ++ spelled (preedit_sent b.preedit b.begin b.end) }
    ensures room { out.old.room ≤ out.new.room + (24 + length batch.now.preedit.now) }
{
    let (text, begin, end) = (batch.preedit, batch.begin, batch.end);
    if text.len() == 0 && begin == 0 && end == 0 {
        return;
    }
    out.put(METHOD, &Request::SetPreeditString { text, begin, end });
}

// A batch, and its commit.
pub(crate) fn put_batch(out: &mut Outbox, batch: &BatchView<'_>, serial: u32)
    requires batch { IsBatch batch.now }
    requires room { 68 + length batch.now.string.now + length batch.now.preedit.now ≤ out.old.room }
    ensures bytes { out.new.bytes ≡ out.old.bytes
        ++ spelled (batch_sent (batch_of batch.now) serial) }
    ensures room { out.old.room ≤ out.new.room +
        (68 + length batch.now.string.now + length batch.now.preedit.now) }
{
    put_deletion(out, batch.before, batch.after);
    put_string(out, batch.string);
    put_preedit(out, batch);
    out.put(METHOD, &Request::InputMethodCommit { serial });
}
