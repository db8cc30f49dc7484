//! What a request asks: its object argument, its new id, and the fault of its own.
ghost use Rattle.std.specs.Prelude.{◌≡◌, ℕ, not, option_map, option_to_list};
ghost use Rattle.wl_proto.specs.Rows.{request_message};
ghost use Rattle.broker_model.specs.Ids.{Past};
ghost use Rattle.broker_model.specs.Requests.{arguments_of, global_at, new_of};
ghost use Rattle.broker_model.specs.Refusals.{is_offered};
ghost use Rattle.broker_model.specs.Refusals as refusals;
ghost use Rattle.relay_model.specs.declared.fault.Fault.TheVariants as fault;
ghost use Rattle.broker_wire.specs.Asked.{asked, SaysPopup, SaysKeymap};

use relay_model::{Fault, Role};
use wl_proto::{Interface, Request};

/// An argument that names an object or a new one, and the interface of that.
#[derive(Clone, Copy)]
pub struct Argument {
    /// The object's id.
    pub id: u32,
    /// The interface that it has, or gets.
    pub interface: Interface,
}

/// The argument that names an object, of which no request has two.
pub(crate) fn object_argument(request: &Request) -> Option<Argument>
    ensures { let m = request_message request.now in
        option_to_list (option_map asked result) ≡ arguments_of m.interface m.opcode m.values }
{
    match request {
        Request::GetTextInput { seat, .. }
        | Request::GetInputMethod { seat, .. }
        | Request::CreateVirtualKeyboard { seat, .. } => Some(Argument {
            id: *seat,
            interface: Interface::Seat,
        }),
        Request::GetInputPopupSurface { surface, .. } => Some(Argument {
            id: *surface,
            interface: Interface::Surface,
        }),
        _ => None,
    }
}

// The interface of the global with a name.
fn global_at(name: u32) -> Interface
    ensures { result ≡ global_at name }
{
    match name {
        1 => Interface::Compositor,
        2 => Interface::Seat,
        3 => Interface::TextInputManager,
        4 => Interface::InputMethodManager,
        _ => Interface::VirtualKeyboardManager,
    }
}

/// The new id, with the interface of what is made under it.
pub(crate) fn new_object(request: &Request) -> Option<Argument>
    ensures { let m = request_message request.now in
        option_map asked result ≡ new_of m.interface m.opcode m.values }
{
    let (id, interface) = match request {
        Request::Sync { callback } => (*callback, Interface::Callback),
        Request::GetRegistry { registry } => (*registry, Interface::Registry),
        Request::Bind { name, id, .. } => (*id, global_at(*name)),
        Request::CreateSurface { id } => (*id, Interface::Surface),
        Request::GetPointer { id } | Request::GetKeyboard { id } | Request::GetTouch { id } => (
            *id,
            Interface::Seat,
        ),
        Request::GetTextInput { id, .. } => (*id, Interface::TextInput),
        Request::GetInputMethod { input_method, .. } => (*input_method, Interface::InputMethod),
        Request::GetInputPopupSurface { id, .. } => (*id, Interface::InputPopupSurface),
        Request::GrabKeyboard { keyboard } => (*keyboard, Interface::KeyboardGrab),
        Request::CreateVirtualKeyboard { id, .. } => (*id, Interface::VirtualKeyboard),
        Request::SurfaceDestroy
        | Request::Damage { .. }
        | Request::SurfaceCommit
        | Request::TextInputManagerDestroy
        | Request::TextInputDestroy
        | Request::Enable
        | Request::Disable
        | Request::SetSurroundingText { .. }
        | Request::SetTextChangeCause { .. }
        | Request::SetContentType { .. }
        | Request::SetCursorRectangle { .. }
        | Request::TextInputCommit
        | Request::InputMethodManagerDestroy
        | Request::CommitString { .. }
        | Request::SetPreeditString { .. }
        | Request::DeleteSurroundingText { .. }
        | Request::InputMethodCommit { .. }
        | Request::InputMethodDestroy
        | Request::InputPopupSurfaceDestroy
        | Request::KeyboardGrabRelease
        | Request::Keymap { .. }
        | Request::Key { .. }
        | Request::Modifiers { .. }
        | Request::VirtualKeyboardDestroy => return None,
    };
    Some(Argument { id, interface })
}

// The role is offered a global under the name, and the text is the name of its interface.
fn is_offered(role: Role, name: u32, text: &str) -> bool
    ensures { result ≡ is_offered role name text.now }
{
    role.globals().iter().any(|(offered, interface)| *offered == name && interface.name() == text)
}

// A board sends keys and modifiers once it has had a keymap.
fn keymap_fault(has_keymap: bool) -> Option<Fault>
    ensures { result ≡ refusals.fault_if (not has_keymap) fault.NoKeymap }
{
    if has_keymap {
        None
    } else {
        Some(Fault::NoKeymap)
    }
}

// What else a message goes by than its sender's table: whether a live popup has the surface of a
// popup that is asked for, and whether the board that it goes to has had a keymap. It says nothing
// where the message asks for neither.
#[derive(Clone, Copy)]
pub(crate) struct Beside {
    pub has_popup: bool,
    pub has_keymap: bool,
}

/// The fault of the request alone: a bind of what isn't offered, what the seat lacks, a popup on a
/// surface that has one, a key's state that is neither 0 nor 1, or a key or modifiers of a board
/// that has had no keymap.
pub(crate) fn own_fault(request: &Request, role: Role, beside: Beside) -> Option<Fault>
    ensures { (past : Past) (x : ℕ) (at : ℕ → ℕ) →
        SaysPopup past at request.now beside.has_popup →
        SaysKeymap past x request.now beside.has_keymap →
        let m = request_message request.now in
        result ≡ refusals.own_fault past x role at m.interface m.opcode m.values }
{
    match request {
        Request::Bind {
            name,
            interface,
            version,
            ..
        } => {
            if is_offered(role, *name, interface) && *version == 1 {
                None
            } else {
                Some(Fault::Bind)
            }
        }
        Request::GetPointer { .. } | Request::GetKeyboard { .. } | Request::GetTouch { .. } => Some(
            Fault::Capability,
        ),
        Request::GetInputPopupSurface { .. } => {
            if beside.has_popup {
                Some(Fault::Role)
            } else {
                None
            }
        }
        Request::Key { state, .. } if *state > 1 => Some(Fault::Malformed),
        Request::Key { .. } | Request::Modifiers { .. } => keymap_fault(beside.has_keymap),
        _ => None,
    }
}
