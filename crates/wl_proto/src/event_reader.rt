//! Events are read by their rows: the opcode says which kinds of arguments the body has.
ghost use Rattle.std.specs.Prelude.{List};
ghost use Rattle.wl_proto.specs.Reading.{Gives, event_reading};
ghost use Rattle.wl_proto.specs.Rows.{event_message, event_kinds};
ghost use Rattle.wl_proto.specs.declared.interface.Interface.TheVariants as interface;
ghost use Rattle.wl_proto.specs.Spelled.{Answers};

use crate::bodies::{
    arguments, five_words, four_ints, four_words, nothing, one_string, one_word, row,
    string_two_ints, text_two_words, two_ints, two_words, two_words_text, word_text_word,
    word_token_word,
};
use crate::event::Event;
use crate::interface::Interface;
use crate::refuse::Refuse;
use wl_wire::Raw;

#[tactic(auto, unfolding(crate::specs::Reading::event_reading))]
fn display_event<'a>(opcode: u16, body: &'a [u8], tokens: &[u32]) -> Result<Event<'a>, Refuse>
    ensures { Gives event_message result
        (event_reading interface.Display opcode tokens.now body.now) }
{
    match opcode {
        0 => row!(body tokens Event Error { object: uint, code: uint, message: text }),
        1 => row!(body tokens Event DeleteId { id: uint }),
        _ => Err(Refuse::Opcode),
    }
}

#[tactic(auto, unfolding(crate::specs::Reading::event_reading))]
fn registry_event<'a>(opcode: u16, body: &'a [u8], tokens: &[u32]) -> Result<Event<'a>, Refuse>
    ensures { Gives event_message result
        (event_reading interface.Registry opcode tokens.now body.now) }
{
    match opcode {
        0 => row!(body tokens Event Global { name: uint, interface: text, version: uint }),
        1 => row!(body tokens Event GlobalRemove { name: uint }),
        _ => Err(Refuse::Opcode),
    }
}

#[tactic(auto, unfolding(crate::specs::Reading::event_reading))]
fn callback_event<'a>(opcode: u16, body: &'a [u8], tokens: &[u32]) -> Result<Event<'a>, Refuse>
    ensures { Gives event_message result
        (event_reading interface.Callback opcode tokens.now body.now) }
{
    match opcode {
        0 => row!(body tokens Event CallbackDone { value: uint }),
        _ => Err(Refuse::Opcode),
    }
}

#[tactic(auto, unfolding(crate::specs::Reading::event_reading))]
fn seat_event<'a>(opcode: u16, body: &'a [u8], tokens: &[u32]) -> Result<Event<'a>, Refuse>
    ensures { Gives event_message result (event_reading interface.Seat opcode tokens.now body.now) }
{
    match opcode {
        0 => row!(body tokens Event Capabilities { value: uint }),
        _ => Err(Refuse::Opcode),
    }
}

#[tactic(auto, unfolding(crate::specs::Reading::event_reading))]
fn text_input_event<'a>(opcode: u16, body: &'a [u8], tokens: &[u32]) -> Result<Event<'a>, Refuse>
    ensures { Gives event_message result
        (event_reading interface.TextInput opcode tokens.now body.now) }
{
    match opcode {
        0 => row!(body tokens Event Enter { surface: uint }),
        1 => row!(body tokens Event Leave { surface: uint }),
        2 => row!(body tokens Event PreeditString { text: string, begin: int, end: int }),
        3 => row!(body tokens Event CommitString { text: string }),
        4 => row!(body tokens Event DeleteSurroundingText { before: uint, after: uint }),
        5 => row!(body tokens Event TextInputDone { serial: uint }),
        _ => Err(Refuse::Opcode),
    }
}

#[tactic(auto, unfolding(crate::specs::Reading::event_reading))]
fn input_method_event<'a>(opcode: u16, body: &'a [u8], tokens: &[u32]) -> Result<Event<'a>, Refuse>
    ensures { Gives event_message result
        (event_reading interface.InputMethod opcode tokens.now body.now) }
{
    match opcode {
        0 => row!(body tokens Event Activate {}),
        1 => row!(body tokens Event Deactivate {}),
        2 => row!(body tokens Event SurroundingText { text: text, cursor: uint, anchor: uint }),
        3 => row!(body tokens Event TextChangeCause { cause: uint }),
        4 => row!(body tokens Event ContentType { hint: uint, purpose: uint }),
        5 => row!(body tokens Event InputMethodDone {}),
        6 => row!(body tokens Event Unavailable {}),
        _ => Err(Refuse::Opcode),
    }
}

#[tactic(auto, unfolding(crate::specs::Reading::event_reading))]
fn input_popup_surface_event<'a>(
    opcode: u16,
    body: &'a [u8],
    tokens: &[u32],
) -> Result<Event<'a>, Refuse>
    ensures { Gives event_message result
        (event_reading interface.InputPopupSurface opcode tokens.now body.now) }
{
    match opcode {
        0 => row!(body tokens Event TextInputRectangle { x: int, y: int, width: int, height: int }),
        _ => Err(Refuse::Opcode),
    }
}

#[tactic(auto, unfolding(crate::specs::Reading::event_reading))]
fn keyboard_grab_event<'a>(opcode: u16, body: &'a [u8], tokens: &[u32]) -> Result<Event<'a>, Refuse>
    ensures { Gives event_message result
        (event_reading interface.KeyboardGrab opcode tokens.now body.now) }
{
    match opcode {
        0 => row!(body tokens Event Keymap { format: uint, token: descriptor, size: uint }),
        1 => row!(body tokens Event Key { serial: uint, time: uint, key: uint, state: uint }),
        2 =>
            row!(body tokens Event Modifiers { serial: uint, depressed: uint, latched: uint, locked: uint, group: uint }),
        3 => row!(body tokens Event RepeatInfo { rate: int, delay: int }),
        _ => Err(Refuse::Opcode),
    }
}

#[tactic(auto, unfolding(crate::specs::Reading::event_reading))]
fn event_of<'a>(
    interface: Interface,
    opcode: u16,
    body: &'a [u8],
    tokens: &[u32],
) -> Result<Event<'a>, Refuse>
    ensures { Gives event_message result (event_reading interface opcode tokens.now body.now) }
{
    match interface {
        Interface::Display => display_event(opcode, body, tokens),
        Interface::Registry => registry_event(opcode, body, tokens),
        Interface::Callback => callback_event(opcode, body, tokens),
        Interface::Seat => seat_event(opcode, body, tokens),
        Interface::TextInput => text_input_event(opcode, body, tokens),
        Interface::InputMethod => input_method_event(opcode, body, tokens),
        Interface::InputPopupSurface => input_popup_surface_event(opcode, body, tokens),
        Interface::KeyboardGrab => keyboard_grab_event(opcode, body, tokens),
        Interface::Compositor
        | Interface::Surface
        | Interface::TextInputManager
        | Interface::InputMethodManager
        | Interface::VirtualKeyboardManager
        | Interface::VirtualKeyboard => Err(Refuse::Opcode),
    }
}

fn answer_event<'a>(
    interface: Interface,
    opcode: u16,
    body: &'a [u8],
    tokens: &[u32],
) -> Result<Event<'a>, Refuse>
    ensures { Answers event_message (event_kinds interface opcode) interface opcode tokens.now
        body.now result }
{
    event_of(interface, opcode, body, tokens)
}

/// The event that the message is, by the rows of the interface.
pub fn read_event<'a>(
    interface: Interface,
    raw: &Raw<'a>,
    tokens: &[u32],
) -> Result<Event<'a>, Refuse>
    ensures { Answers event_message (event_kinds interface raw.now.opcode) interface raw.now.opcode
        tokens.now raw.now.body.now result }
{
    answer_event(interface, raw.opcode, raw.body, tokens)
}
