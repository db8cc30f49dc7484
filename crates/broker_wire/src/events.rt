//! A thing told as an event of the wire.
ghost use Rattle.std.specs.Prelude.{◌≡◌};
ghost use Rattle.broker_wire.specs.Events.{named, IsEventOf, IsTokenOf};

use relay_model::{Label, Said};
use wl_proto::Event;

/// The label of the object whose id the event names, if it names one.
pub fn named(said: &Said) -> Option<Label>
    ensures { result ≡ named said.now }
{
    match said {
        Said::Enter { surface } => Some(*surface),
        Said::Leave { surface } => Some(*surface),
        Said::DeleteId { label } => Some(*label),
        Said::Error { object, .. } => Some(*object),
        Said::Preedit { .. }
        | Said::CommitString { .. }
        | Said::Delete { .. }
        | Said::FieldDone { .. }
        | Said::Activate
        | Said::Deactivate
        | Said::Surrounding { .. }
        | Said::ChangeCause { .. }
        | Said::ContentType { .. }
        | Said::MethodDone
        | Said::Unavailable
        | Said::PopupRect { .. }
        | Said::Keymap { .. }
        | Said::Key { .. }
        | Said::Mods { .. }
        | Said::Repeat { .. }
        | Said::Global { .. }
        | Said::CallbackDone { .. }
        | Said::Capabilities { .. }
        | Said::Pass { .. }
        | Said::VMods { .. }
        | Said::Placed { .. } => None,
    }
}

/// The token of the keymap, if it is one.
pub fn token_of(said: &Said) -> Option<u32>
    ensures { IsTokenOf said.now result }
{
    match said {
        Said::Keymap(keymap) => Some(keymap.token),
        Said::Enter { .. }
        | Said::Leave { .. }
        | Said::DeleteId { .. }
        | Said::Error { .. }
        | Said::Preedit { .. }
        | Said::CommitString { .. }
        | Said::Delete { .. }
        | Said::FieldDone { .. }
        | Said::Activate
        | Said::Deactivate
        | Said::Surrounding { .. }
        | Said::ChangeCause { .. }
        | Said::ContentType { .. }
        | Said::MethodDone
        | Said::Unavailable
        | Said::PopupRect { .. }
        | Said::Key { .. }
        | Said::Mods { .. }
        | Said::Repeat { .. }
        | Said::Global { .. }
        | Said::CallbackDone { .. }
        | Said::Capabilities { .. }
        | Said::Pass { .. }
        | Said::VMods { .. }
        | Said::Placed { .. } => None,
    }
}

/// The event that says what is told, with this id for the object that `named` finds. None for what
/// the shell is told.
pub fn event_of<'a>(said: &'a Said, id: u32) -> Option<Event<'a>>
    ensures { IsEventOf said.now id result }
{
    let event = match said {
        Said::Enter { .. } => Event::Enter { surface: id },
        Said::Leave { .. } => Event::Leave { surface: id },
        Said::Preedit { text, begin, end } => Event::PreeditString {
            text: Some(text.as_str()),
            begin: *begin,
            end: *end,
        },
        Said::CommitString { text } => Event::CommitString {
            text: Some(text.as_str()),
        },
        Said::Delete { before, after } => Event::DeleteSurroundingText {
            before: *before,
            after: *after,
        },
        Said::FieldDone { serial } => Event::TextInputDone { serial: *serial },
        Said::Activate => Event::Activate,
        Said::Deactivate => Event::Deactivate,
        Said::Surrounding {
            text,
            cursor,
            anchor,
        } => Event::SurroundingText {
            text: text.as_str(),
            cursor: *cursor,
            anchor: *anchor,
        },
        Said::ChangeCause { cause } => Event::TextChangeCause { cause: *cause },
        Said::ContentType { hint, purpose } => Event::ContentType {
            hint: *hint,
            purpose: *purpose,
        },
        Said::MethodDone => Event::InputMethodDone,
        Said::Unavailable => Event::Unavailable,
        Said::PopupRect {
            x,
            y,
            width,
            height,
        } => Event::TextInputRectangle {
            x: *x,
            y: *y,
            width: *width,
            height: *height,
        },
        Said::Keymap(keymap) => Event::Keymap {
            format: keymap.format,
            token: keymap.token,
            size: keymap.size,
        },
        Said::Key {
            serial,
            time,
            key,
            state,
        } => Event::Key {
            serial: *serial,
            time: *time,
            key: *key,
            state: *state,
        },
        Said::Mods { serial, mods } => Event::Modifiers {
            serial: *serial,
            depressed: mods.depressed,
            latched: mods.latched,
            locked: mods.locked,
            group: mods.group,
        },
        Said::Repeat(repeat) => Event::RepeatInfo {
            rate: repeat.rate,
            delay: repeat.delay,
        },
        Said::Global {
            name,
            interface,
            version,
        } => Event::Global {
            name: *name,
            interface: interface.name(),
            version: *version,
        },
        Said::CallbackDone { value } => Event::CallbackDone { value: *value },
        Said::DeleteId { .. } => Event::DeleteId { id },
        Said::Capabilities { value } => Event::Capabilities { value: *value },
        Said::Error { fault, .. } => Event::Error {
            object: id,
            code: fault.code(),
            message: fault.text(),
        },
        Said::Pass { .. } | Said::VMods { .. } | Said::Placed { .. } => return None,
    };
    Some(event)
}
