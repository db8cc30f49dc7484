//! The events of a field, by their values.
ghost use Rattle.std.specs.Prelude.{◌≡◌, [], true, false, IfSome, IfNone, Ok};
ghost use Rattle.std.specs.Option.{option_copied};
ghost use Rattle.wl_proto.specs.declared.interface.Interface.TheVariants.{TextInput};
ghost use Rattle.wl_proto.specs.Reading.{event_reading};
ghost use Rattle.wl_proto.specs.Rows.{Message};
ghost use Rattle.audit_fields.specs.Values.{field_message};
ghost use Rattle.audit_fields.specs.Heard.{is_field_opcode};

use wl_proto::{Event, Interface, read_event};
use wl_wire::Raw;

/// What a text input is told of its method: the four events with opcodes 2 to 5.
#[derive(Clone, Copy)]
pub(crate) enum FieldEvent<'a> {
    Preedit(Option<&'a str>, i32, i32),
    Commit(Option<&'a str>),
    Delete(u32, u32),
    Done(u32),
}

/// Whether the opcode is that of one of them.
pub(crate) fn is_field_opcode(opcode: u16) -> bool
    ensures { result ≡ is_field_opcode opcode }
{
    2 <= opcode && opcode <= 5
}

/// The event that a message with such an opcode and this body spells to a text input, if it spells
/// one.
pub(crate) fn read_field(opcode: u16, body: &[u8]) -> Option<FieldEvent<'_>>
    requires { is_field_opcode opcode ≡ true }
    ensures found { IfSome result (λ e.
        event_reading TextInput opcode [] body.now ≡ Ok (field_message e)) }
    ensures none { IfNone result ((m : Message) →
        event_reading TextInput opcode [] body.now ≡ Ok m → ⊥) }
{
    let raw = Raw {
        id: 0,
        opcode,
        body,
    };
    match read_event(Interface::TextInput, &raw, &[]) {
        Ok(Event::PreeditString { text, begin, end }) => Some(FieldEvent::Preedit(
            text, begin, end,
        )),
        Ok(Event::CommitString { text }) => Some(FieldEvent::Commit(text)),
        Ok(Event::DeleteSurroundingText { before, after }) => {
            Some(FieldEvent::Delete(before, after))
        }
        Ok(Event::TextInputDone { serial }) => Some(FieldEvent::Done(serial)),
        Ok(_) => unreachable!(),
        Err(_) => None,
    }
}

// Whether both are the same text, or both null.
fn is_same_text(a: Option<&str>, b: Option<&str>) -> bool
    ensures same { result ≡ true → option_copied a.entry ≡ option_copied b.entry }
    ensures other { result ≡ false → option_copied a.entry ≡ option_copied b.entry → ⊥ }
{
    match (a, b) {
        (Some(a), Some(b)) => a == b,
        (None, None) => true,
        (Some(_), None) | (None, Some(_)) => false,
    }
}

/// Whether both are the same in all their values.
pub(crate) fn is_same(a: &FieldEvent<'_>, b: &FieldEvent<'_>) -> bool
    ensures same { result ≡ true → field_message a.now ≡ field_message b.now }
    ensures other { result ≡ false → field_message a.now ≡ field_message b.now → ⊥ }
{
    match *a {
        FieldEvent::Preedit(text, begin, end) => match *b {
            FieldEvent::Preedit(other, from, to) => {
                is_same_text(text, other) && begin == from && end == to
            }
            FieldEvent::Commit(_) | FieldEvent::Delete(..) | FieldEvent::Done(_) => false,
        },
        FieldEvent::Commit(text) => match *b {
            FieldEvent::Commit(other) => is_same_text(text, other),
            FieldEvent::Preedit(..) | FieldEvent::Delete(..) | FieldEvent::Done(_) => false,
        },
        FieldEvent::Delete(before, after) => match *b {
            FieldEvent::Delete(front, back) => before == front && after == back,
            FieldEvent::Preedit(..) | FieldEvent::Commit(_) | FieldEvent::Done(_) => false,
        },
        FieldEvent::Done(serial) => match *b {
            FieldEvent::Done(other) => serial == other,
            FieldEvent::Preedit(..) | FieldEvent::Commit(_) | FieldEvent::Delete(..) => false,
        },
    }
}
