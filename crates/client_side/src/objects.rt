//! The objects of a client, by their ids.
ghost use Rattle.std.specs.Prelude.{◌≡◌};
ghost use Rattle.client_side.specs.Events.{object_in, field_objects, method_objects};

use wl_proto::Interface;

// The interface of a field's client's object.
pub(crate) fn field_object(id: u32) -> Option<Interface>
    ensures { result ≡ object_in field_objects id }
{
    match id {
        1 => Some(Interface::Display),
        2 => Some(Interface::Registry),
        3 => Some(Interface::Compositor),
        4 => Some(Interface::Seat),
        5 => Some(Interface::TextInputManager),
        6 => Some(Interface::Surface),
        7 => Some(Interface::TextInput),
        _ => None,
    }
}

// The interface of the method's client's object.
pub(crate) fn method_object(id: u32) -> Option<Interface>
    ensures { result ≡ object_in method_objects id }
{
    match id {
        1 => Some(Interface::Display),
        2 => Some(Interface::Registry),
        3 => Some(Interface::Seat),
        4 => Some(Interface::InputMethodManager),
        5 => Some(Interface::InputMethod),
        6 => Some(Interface::KeyboardGrab),
        _ => None,
    }
}
