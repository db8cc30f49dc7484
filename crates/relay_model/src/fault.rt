//! Why a message is refused.
ghost use Rattle.std.specs.Prelude.{◌≡◌};
ghost use Rattle.relay_model.specs.Faults.{code_of, text_of};

/// Why a message of a peer is refused. The tests are made in this order, and the first that fails
/// decides. Each but the last three is told as an error of the peer's `wl_display`; those three as
/// an error of the object that the message went to.
#[derive(Clone, Copy, Debug, PartialEq, Eq)]
pub enum Fault {
    /// The header's size is under 8, above 4096, or no multiple of 4.
    Size,
    /// The message goes to an id that isn't live.
    Object,
    /// The object's interface has no request of the opcode.
    Opcode,
    /// The body isn't a spelling of the request's arguments.
    Malformed,
    /// An object argument is 0, isn't live, or is of another interface.
    Argument,
    /// The new id is 0, in the server's range, or live.
    NewId,
    /// The peer has as many live objects as it may.
    TooMany,
    /// A bind of a name that the role isn't offered, of another interface than the name's, or of
    /// another version than 1.
    Bind,
    /// A pointer, a keyboard or a touch is asked of a seat that has none.
    Capability,
    /// A popup is asked on the surface of a live popup.
    Role,
    /// A virtual keyboard that has had no keymap sends a key or modifiers.
    NoKeymap,
}

impl Fault {
    /// The code of `wl_display.error`, a number of the interface of the object that the error is of.
    pub fn code(self) -> u32
        ensures code { result ≡ code_of self }
    {
        match self {
            // `wl_display`: invalid_object, invalid_method, implementation.
            Fault::Object | Fault::Argument | Fault::NewId | Fault::Bind => 0,
            Fault::Size | Fault::Opcode | Fault::Malformed => 1,
            Fault::TooMany => 3,
            // `wl_seat`: missing_capability.
            Fault::Capability => 0,
            // `zwp_input_method_v2`: role.
            Fault::Role => 0,
            // `zwp_virtual_keyboard_v1`: no_keymap.
            Fault::NoKeymap => 0,
        }
    }

    /// The message of `wl_display.error`.
    pub fn text(self) -> &'static str
        ensures text { result.now ≡ text_of self }
    {
        match self {
            Fault::Size => "bad size",
            Fault::Object => "unknown object",
            Fault::Opcode => "unknown opcode",
            Fault::Malformed => "malformed request",
            Fault::Argument => "wrong object",
            Fault::NewId => "bad new id",
            Fault::TooMany => "too many objects",
            Fault::Bind => "no such global",
            Fault::Capability => "missing capability",
            Fault::Role => "surface has a role",
            Fault::NoKeymap => "no keymap",
        }
    }
}
