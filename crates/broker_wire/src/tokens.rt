//! Which messages take a token.
ghost use Rattle.std.specs.Prelude.{◌≡◌, ℕ};
ghost use Rattle.wl_proto.specs.Rows.{request_kinds};
ghost use Rattle.broker_model.specs.Waiting.{has_descriptor};

use wl_proto::Interface;

/// The row of the request has a descriptor, which is the first token that waits for the sender: so
/// it is with the keymap of a board alone.
pub(crate) fn takes_token(interface: Interface, opcode: u16) -> bool
    ensures { result ≡ has_descriptor (request_kinds interface opcode) }
{
    match interface {
        Interface::VirtualKeyboard => opcode == 0,
        Interface::Display
        | Interface::Registry
        | Interface::Callback
        | Interface::Compositor
        | Interface::Surface
        | Interface::Seat
        | Interface::TextInputManager
        | Interface::TextInput
        | Interface::InputMethodManager
        | Interface::InputMethod
        | Interface::InputPopupSurface
        | Interface::KeyboardGrab
        | Interface::VirtualKeyboardManager => false,
    }
}
