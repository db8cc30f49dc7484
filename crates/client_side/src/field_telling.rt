//! What a field's client tells of its field.
ghost use Rattle.std.specs.Prelude.{◌≡◌, ◌+◌, ◌≤◌, ◌++◌, ◌∷◌, [], pos, length};
ghost use Rattle.wl_proto.specs.Spelling.{message_bytes};
ghost use Rattle.client_side.specs.Messages.{spelled, set_surrounding_text};
ghost use Rattle.client_side.specs.FieldSends.{surrounding, change_sent, enable_sent};

use crate::outbox::Outbox;
use trial_field::TrialField;
use wl_proto::Request;

/// The id of the client's text input.
const INPUT: u32 = 7;

// A text and a cursor in it: at most 4,024 bytes.
fn put_window(out: &mut Outbox, text: &str, cursor: usize)
    requires short { length text.now ≤ 4000 }
    requires cursor { cursor ≤ 4000 }
    requires room { 4024 ≤ out.old.room }
    ensures bytes { out.new.bytes ≡ out.old.bytes
        ++ message_bytes 7 (set_surrounding_text text.now (pos cursor)) }
    ensures room { out.old.room ≤ out.new.room + 4024 }
{
    let place = cursor as i32;
    let request = Request::SetSurroundingText {
        text,
        cursor: place,
        anchor: place,
    };
    out.put(INPUT, &request);
}

// The text round the cursor.
fn put_surrounding(out: &mut Outbox, field: &TrialField)
    requires { 4024 ≤ out.old.room }
    ensures bytes { let said = surrounding field.now in out.new.bytes
        ≡ out.old.bytes ++ spelled (said ∷ []) }
    ensures room { out.old.room ≤ out.new.room + 4024 }
{
    let (begin, end) = field.surround_window();
    let cursor = field.cursor() - begin;
    put_window(out, &field.text()[begin..end], cursor);
}

// A change of the text, and why it came.
pub(crate) fn put_change(out: &mut Outbox, field: &TrialField, cause: u32)
    requires { 4080 ≤ out.old.room }
    ensures bytes { out.new.bytes ≡ out.old.bytes ++ spelled (change_sent cause field.now) }
    ensures room { out.old.room ≤ out.new.room + 4080 }
{
    put_surrounding(out, field);
    out.put(INPUT, &Request::SetTextChangeCause { cause });
    out.put(INPUT, &Request::TextInputCommit);
}

// All of the state, when the field is entered.
pub(crate) fn put_enable(out: &mut Outbox, field: &TrialField)
    requires { 4080 ≤ out.old.room }
    ensures bytes { out.new.bytes ≡ out.old.bytes ++ spelled (enable_sent field.now) }
    ensures room { out.old.room ≤ out.new.room + 4080 }
{
    out.put(INPUT, &Request::Enable);
    put_surrounding(out, field);
    out.put(
        INPUT,
        &Request::SetContentType {
            hint: 0,
            purpose: 0,
        },
    );
    out.put(
        INPUT,
        &Request::SetCursorRectangle {
            x: 0,
            y: 0,
            width: 1,
            height: 1,
        },
    );
    out.put(INPUT, &Request::TextInputCommit);
}
