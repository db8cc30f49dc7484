//! How a generated session begins: four app peers and a method join, and each sends its set-up
//! messages.
ghost use Rattle.std.specs.Prelude.{◌≡◌, ◌<◌, Some, IfOk};
ghost use Rattle.std.specs.List.{slice_get};
ghost use Rattle.wl_proto.specs.Rows.{request_message};
ghost use Rattle.broker_steps.specs.Ranges.{IsStep};
ghost use Rattle.session_gen.specs.Sending.{IsShort};
ghost use Rattle.session_gen.specs.Sending.{bind as bind_message};
ghost use Rattle.session_gen.specs.Setup.{to, app_messages, method_messages, app_steps};
ghost use Rattle.session_gen.specs.Setup.{method_steps, setup};

use crate::sending::request_step;
use broker_steps::Step;
use relay_model::Role;
use std::alloc::Global;
use wio_core::NoMemory;
use wl_proto::{Interface, Request};

/// The steps of the set-up.
pub(crate) const SETUP_STEPS: u32 = 33;

/// The steps of an app peer's set-up: it joins, and sends six messages.
const APP_STEPS: u32 = 7;

/// The app peers.
const APPS: u32 = 4;

// The step at this place of the set-up.
pub(crate) fn setup_step(alloc: Global, place: u32) -> Result<Step, NoMemory>
    requires { place < 33 }
    ensures step { IfOk result (λ step. slice_get setup place ≡ Some step) }
    ensures valid { IfOk result IsStep }
{
    let peer = 1 + place / APP_STEPS;
    if peer <= APPS {
        app_step(alloc, peer, place % APP_STEPS)
    } else {
        method_step(alloc, peer, place % APP_STEPS)
    }
}

// A step of an app peer's set-up.
fn app_step(alloc: Global, peer: u32, place: u32) -> Result<Step, NoMemory>
    requires { place < 7 }
    ensures step { IfOk result (λ step. slice_get (app_steps peer) place ≡ Some step) }
    ensures valid { IfOk result IsStep }
{
    if place == 0 {
        return Ok(Step::Join(Role::App));
    }
    let (object, request) = app_message(place - 1);
    request_step(alloc, peer, object, &request)
}

// A step of the method's set-up.
fn method_step(alloc: Global, peer: u32, place: u32) -> Result<Step, NoMemory>
    requires { place < 5 }
    ensures step { IfOk result (λ step. slice_get (method_steps peer) place ≡ Some step) }
    ensures valid { IfOk result IsStep }
{
    if place == 0 {
        return Ok(Step::Join(Role::Method));
    }
    let (object, request) = method_message(place - 1);
    request_step(alloc, peer, object, &request)
}

// An app peer's set-up message, and the object that it is sent to.
fn app_message(place: u32) -> (u32, Request<'static>)
    requires { place < 6 }
    ensures message { slice_get app_messages place ≡ Some (to result.0 (request_message result.1)) }
    ensures short { IsShort (request_message result.1) }
{
    match place {
        0 => (1, Request::GetRegistry { registry: 2 }),
        1 => (2, bind(1, Interface::Compositor, 3)),
        2 => (2, bind(2, Interface::Seat, 4)),
        3 => (2, bind(3, Interface::TextInputManager, 5)),
        4 => (3, Request::CreateSurface { id: 6 }),
        _ => (5, Request::GetTextInput { id: 7, seat: 4 }),
    }
}

// The method's set-up message, and the object that it is sent to.
fn method_message(place: u32) -> (u32, Request<'static>)
    requires { place < 4 }
    ensures message { slice_get method_messages place
        ≡ Some (to result.0 (request_message result.1)) }
    ensures short { IsShort (request_message result.1) }
{
    match place {
        0 => (1, Request::GetRegistry { registry: 2 }),
        1 => (2, bind(2, Interface::Seat, 3)),
        2 => (2, bind(4, Interface::InputMethodManager, 4)),
        _ => (
            4,
            Request::GetInputMethod {
                seat: 3,
                input_method: 5,
            },
        ),
    }
}

// The global of this name is bound to the id, in version 1.
fn bind(name: u32, interface: Interface, id: u32) -> Request<'static>
    ensures { request_message result ≡ bind_message name interface id }
{
    Request::Bind {
        name,
        interface: interface.name(),
        version: 1,
        id,
    }
}
