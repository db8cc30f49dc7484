//! The set-up messages of the clients.
ghost use Rattle.std.specs.Prelude.{◌≡◌, ◌≤◌, ◌++◌, []};
ghost use Rattle.wl_proto.specs.Rows.{request_message};
ghost use Rattle.client_side.specs.Messages.{spelled, field_setup, method_setup};
ghost use Rattle.client_side.specs.Messages.{bind as bind_message};

use crate::outbox::Outbox;
use wl_proto::{Interface, Request};

// The global of this name is bound to the id, in version 1.
fn bind(name: u32, interface: Interface, id: u32) -> Request<'static>
    ensures { request_message result ≡ bind_message name interface id }
{
    Request::Bind {
        name,
        interface: interface.name(),
        version: 1,
        id,
    }
}

// The set-up of a field's client: at most 256 bytes.
pub(crate) fn put_field_setup(out: &mut Outbox)
    requires { 256 ≤ out.old.room }
    ensures { out.new.bytes ≡ out.old.bytes ++ spelled field_setup }
{
    out.put(1, &Request::GetRegistry { registry: 2 });
    out.put(2, &bind(1, Interface::Compositor, 3));
    out.put(2, &bind(2, Interface::Seat, 4));
    out.put(2, &bind(3, Interface::TextInputManager, 5));
    out.put(3, &Request::CreateSurface { id: 6 });
    out.put(5, &Request::GetTextInput { id: 7, seat: 4 });
}

// The set-up of the method's client: at most 256 bytes.
pub(crate) fn put_method_setup(out: &mut Outbox)
    requires { 256 ≤ out.old.room }
    ensures { out.new.bytes ≡ out.old.bytes ++ spelled method_setup }
{
    out.put(1, &Request::GetRegistry { registry: 2 });
    out.put(2, &bind(2, Interface::Seat, 3));
    out.put(2, &bind(4, Interface::InputMethodManager, 4));
    out.put(
        4,
        &Request::GetInputMethod {
            seat: 3,
            input_method: 5,
        },
    );
    out.put(5, &Request::GrabKeyboard { keyboard: 6 });
}
