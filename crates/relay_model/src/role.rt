//! What a peer may do on the seat.
ghost use Rattle.std.specs.Prelude.{◌≡◌};
ghost use Rattle.relay_model.specs.Globals.{offered};

use wl_proto::Interface;

/// Which globals a peer is offered: those of an application, of an input method, or of one that
/// sends keys of its own besides.
#[derive(Clone, Copy, Debug, PartialEq, Eq)]
pub enum Role {
    /// An application, which has text fields.
    App,
    /// An input method.
    Method,
    /// An input method that has virtual keyboards.
    Keyed,
}

impl Role {
    /// The globals that a peer of the role is offered (`wl_registry.global`): their names, rising, each with its
    /// interface.
    pub fn globals(self) -> &'static [(u32, Interface)]
        ensures { result.now ≡ offered self }
    {
        match self {
            Role::App => &[
                (1, Interface::Compositor),
                (2, Interface::Seat),
                (3, Interface::TextInputManager),
            ],
            Role::Method => &[
                (1, Interface::Compositor),
                (2, Interface::Seat),
                (4, Interface::InputMethodManager),
            ],
            Role::Keyed => &[
                (1, Interface::Compositor),
                (2, Interface::Seat),
                (4, Interface::InputMethodManager),
                (5, Interface::VirtualKeyboardManager),
            ],
        }
    }
}
