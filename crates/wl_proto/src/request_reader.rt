//! Requests are read by their rows: the opcode says which kinds of arguments the body has.
ghost use Rattle.std.specs.Prelude.{List};
ghost use Rattle.wl_proto.specs.Reading.{Gives, request_reading};
ghost use Rattle.wl_proto.specs.Rows.{request_message, request_kinds};
ghost use Rattle.wl_proto.specs.declared.interface.Interface.TheVariants as interface;
ghost use Rattle.wl_proto.specs.Spelled.{Answers};

use crate::bodies::{
    arguments, four_ints, four_words, nothing, one_text, one_word, row, text_two_ints, three_words,
    two_words, word_text_two_words, word_token_word,
};
use crate::interface::Interface;
use crate::refuse::Refuse;
use crate::request::Request;
use wl_wire::Raw;

#[tactic(auto, unfolding(crate::specs::Reading::request_reading))]
fn display_request<'a>(opcode: u16, body: &'a [u8], tokens: &[u32]) -> Result<Request<'a>, Refuse>
    ensures { Gives request_message result
        (request_reading interface.Display opcode tokens.now body.now) }
{
    match opcode {
        0 => row!(body tokens Request Sync { callback: uint }),
        1 => row!(body tokens Request GetRegistry { registry: uint }),
        _ => Err(Refuse::Opcode),
    }
}

#[tactic(auto, unfolding(crate::specs::Reading::request_reading))]
fn registry_request<'a>(opcode: u16, body: &'a [u8], tokens: &[u32]) -> Result<Request<'a>, Refuse>
    ensures { Gives request_message result
        (request_reading interface.Registry opcode tokens.now body.now) }
{
    match opcode {
        0 =>
            row!(body tokens Request Bind { name: uint, interface: text, version: uint, id: uint }),
        _ => Err(Refuse::Opcode),
    }
}

#[tactic(auto, unfolding(crate::specs::Reading::request_reading))]
fn compositor_request<'a>(
    opcode: u16,
    body: &'a [u8],
    tokens: &[u32],
) -> Result<Request<'a>, Refuse>
    ensures { Gives request_message result
        (request_reading interface.Compositor opcode tokens.now body.now) }
{
    match opcode {
        0 => row!(body tokens Request CreateSurface { id: uint }),
        _ => Err(Refuse::Opcode),
    }
}

#[tactic(auto, unfolding(crate::specs::Reading::request_reading))]
fn surface_request<'a>(opcode: u16, body: &'a [u8], tokens: &[u32]) -> Result<Request<'a>, Refuse>
    ensures { Gives request_message result
        (request_reading interface.Surface opcode tokens.now body.now) }
{
    match opcode {
        0 => row!(body tokens Request SurfaceDestroy {}),
        2 => row!(body tokens Request Damage { x: int, y: int, width: int, height: int }),
        6 => row!(body tokens Request SurfaceCommit {}),
        _ => Err(Refuse::Opcode),
    }
}

#[tactic(auto, unfolding(crate::specs::Reading::request_reading))]
fn seat_request<'a>(opcode: u16, body: &'a [u8], tokens: &[u32]) -> Result<Request<'a>, Refuse>
    ensures { Gives request_message result
        (request_reading interface.Seat opcode tokens.now body.now) }
{
    match opcode {
        0 => row!(body tokens Request GetPointer { id: uint }),
        1 => row!(body tokens Request GetKeyboard { id: uint }),
        2 => row!(body tokens Request GetTouch { id: uint }),
        _ => Err(Refuse::Opcode),
    }
}

#[tactic(auto, unfolding(crate::specs::Reading::request_reading))]
fn text_input_manager_request<'a>(
    opcode: u16,
    body: &'a [u8],
    tokens: &[u32],
) -> Result<Request<'a>, Refuse>
    ensures { Gives request_message result
        (request_reading interface.TextInputManager opcode tokens.now body.now) }
{
    match opcode {
        0 => row!(body tokens Request TextInputManagerDestroy {}),
        1 => row!(body tokens Request GetTextInput { id: uint, seat: uint }),
        _ => Err(Refuse::Opcode),
    }
}

#[tactic(auto, unfolding(crate::specs::Reading::request_reading))]
fn text_input_request<'a>(
    opcode: u16,
    body: &'a [u8],
    tokens: &[u32],
) -> Result<Request<'a>, Refuse>
    ensures { Gives request_message result
        (request_reading interface.TextInput opcode tokens.now body.now) }
{
    match opcode {
        0 => row!(body tokens Request TextInputDestroy {}),
        1 => row!(body tokens Request Enable {}),
        2 => row!(body tokens Request Disable {}),
        3 => row!(body tokens Request SetSurroundingText { text: text, cursor: int, anchor: int }),
        4 => row!(body tokens Request SetTextChangeCause { cause: uint }),
        5 => row!(body tokens Request SetContentType { hint: uint, purpose: uint }),
        6 =>
            row!(body tokens Request SetCursorRectangle { x: int, y: int, width: int, height: int }),
        7 => row!(body tokens Request TextInputCommit {}),
        _ => Err(Refuse::Opcode),
    }
}

#[tactic(auto, unfolding(crate::specs::Reading::request_reading))]
fn input_method_manager_request<'a>(
    opcode: u16,
    body: &'a [u8],
    tokens: &[u32],
) -> Result<Request<'a>, Refuse>
    ensures { Gives request_message result
        (request_reading interface.InputMethodManager opcode tokens.now body.now) }
{
    match opcode {
        0 => row!(body tokens Request GetInputMethod { seat: uint, input_method: uint }),
        1 => row!(body tokens Request InputMethodManagerDestroy {}),
        _ => Err(Refuse::Opcode),
    }
}

#[tactic(auto, unfolding(crate::specs::Reading::request_reading))]
fn input_method_request<'a>(
    opcode: u16,
    body: &'a [u8],
    tokens: &[u32],
) -> Result<Request<'a>, Refuse>
    ensures { Gives request_message result
        (request_reading interface.InputMethod opcode tokens.now body.now) }
{
    match opcode {
        0 => row!(body tokens Request CommitString { text: text }),
        1 => row!(body tokens Request SetPreeditString { text: text, begin: int, end: int }),
        2 => row!(body tokens Request DeleteSurroundingText { before: uint, after: uint }),
        3 => row!(body tokens Request InputMethodCommit { serial: uint }),
        4 => row!(body tokens Request GetInputPopupSurface { id: uint, surface: uint }),
        5 => row!(body tokens Request GrabKeyboard { keyboard: uint }),
        6 => row!(body tokens Request InputMethodDestroy {}),
        _ => Err(Refuse::Opcode),
    }
}

#[tactic(auto, unfolding(crate::specs::Reading::request_reading))]
fn input_popup_surface_request<'a>(
    opcode: u16,
    body: &'a [u8],
    tokens: &[u32],
) -> Result<Request<'a>, Refuse>
    ensures { Gives request_message result
        (request_reading interface.InputPopupSurface opcode tokens.now body.now) }
{
    match opcode {
        0 => row!(body tokens Request InputPopupSurfaceDestroy {}),
        _ => Err(Refuse::Opcode),
    }
}

#[tactic(auto, unfolding(crate::specs::Reading::request_reading))]
fn keyboard_grab_request<'a>(
    opcode: u16,
    body: &'a [u8],
    tokens: &[u32],
) -> Result<Request<'a>, Refuse>
    ensures { Gives request_message result
        (request_reading interface.KeyboardGrab opcode tokens.now body.now) }
{
    match opcode {
        0 => row!(body tokens Request KeyboardGrabRelease {}),
        _ => Err(Refuse::Opcode),
    }
}

#[tactic(auto, unfolding(crate::specs::Reading::request_reading))]
fn virtual_keyboard_manager_request<'a>(
    opcode: u16,
    body: &'a [u8],
    tokens: &[u32],
) -> Result<Request<'a>, Refuse>
    ensures { Gives request_message result
        (request_reading interface.VirtualKeyboardManager opcode tokens.now body.now) }
{
    match opcode {
        0 => row!(body tokens Request CreateVirtualKeyboard { seat: uint, id: uint }),
        _ => Err(Refuse::Opcode),
    }
}

#[tactic(auto, unfolding(crate::specs::Reading::request_reading))]
fn virtual_keyboard_request<'a>(
    opcode: u16,
    body: &'a [u8],
    tokens: &[u32],
) -> Result<Request<'a>, Refuse>
    ensures { Gives request_message result
        (request_reading interface.VirtualKeyboard opcode tokens.now body.now) }
{
    match opcode {
        0 => row!(body tokens Request Keymap { format: uint, token: descriptor, size: uint }),
        1 => row!(body tokens Request Key { time: uint, key: uint, state: uint }),
        2 =>
            row!(body tokens Request Modifiers { depressed: uint, latched: uint, locked: uint, group: uint }),
        3 => row!(body tokens Request VirtualKeyboardDestroy {}),
        _ => Err(Refuse::Opcode),
    }
}

#[tactic(auto, unfolding(crate::specs::Reading::request_reading))]
fn request_of<'a>(
    interface: Interface,
    opcode: u16,
    body: &'a [u8],
    tokens: &[u32],
) -> Result<Request<'a>, Refuse>
    ensures { Gives request_message result (request_reading interface opcode tokens.now body.now) }
{
    match interface {
        Interface::Display => display_request(opcode, body, tokens),
        Interface::Registry => registry_request(opcode, body, tokens),
        Interface::Compositor => compositor_request(opcode, body, tokens),
        Interface::Surface => surface_request(opcode, body, tokens),
        Interface::Seat => seat_request(opcode, body, tokens),
        Interface::TextInputManager => text_input_manager_request(opcode, body, tokens),
        Interface::TextInput => text_input_request(opcode, body, tokens),
        Interface::InputMethodManager => input_method_manager_request(opcode, body, tokens),
        Interface::InputMethod => input_method_request(opcode, body, tokens),
        Interface::InputPopupSurface => input_popup_surface_request(opcode, body, tokens),
        Interface::KeyboardGrab => keyboard_grab_request(opcode, body, tokens),
        Interface::VirtualKeyboardManager => virtual_keyboard_manager_request(opcode, body, tokens),
        Interface::VirtualKeyboard => virtual_keyboard_request(opcode, body, tokens),
        Interface::Callback => Err(Refuse::Opcode),
    }
}

fn answer_request<'a>(
    interface: Interface,
    opcode: u16,
    body: &'a [u8],
    tokens: &[u32],
) -> Result<Request<'a>, Refuse>
    ensures { Answers request_message (request_kinds interface opcode) interface opcode tokens.now
        body.now result }
{
    request_of(interface, opcode, body, tokens)
}

/// The request that the message is, by the rows of the interface. `tokens` are those that wait, the first of which is
/// the request's descriptor where its row has one.
pub fn read_request<'a>(
    interface: Interface,
    raw: &Raw<'a>,
    tokens: &[u32],
) -> Result<Request<'a>, Refuse>
    ensures { Answers request_message (request_kinds interface raw.now.opcode) interface
        raw.now.opcode tokens.now raw.now.body.now result }
{
    answer_request(interface, raw.opcode, raw.body, tokens)
}
