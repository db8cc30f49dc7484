//! Requests are written by their rows.
ghost use Rattle.std.specs.Prelude.{◌≡◌, ◌<◌, ◌≤◌, ◌^◌, ◌++◌, List, length, drop};
ghost use Rattle.wl_proto.specs.Rows.{request_message};
ghost use Rattle.wl_proto.specs.Arguments.{most, message_put};
ghost use Rattle.wl_proto.specs.Spelling.{message_len, message_bytes};

use crate::argument::{
    Argument, int_argument, put_four, put_nothing, put_one, put_three, put_two, text_argument,
    text_size,
};
use crate::request::Request;
use crate::rows::{argument, put_row};

/// How many bytes the request has on the wire, its header included: 8 to 4,096, as its text is within the limits. Takes
/// no memory.
pub fn request_len(request: &Request) -> usize
    ensures len { result ≡ message_len (request_message request.now) }
{
    match *request {
        Request::SurfaceDestroy
        | Request::SurfaceCommit
        | Request::TextInputManagerDestroy
        | Request::TextInputDestroy
        | Request::Enable
        | Request::Disable
        | Request::TextInputCommit
        | Request::InputMethodManagerDestroy
        | Request::InputMethodDestroy
        | Request::InputPopupSurfaceDestroy
        | Request::KeyboardGrabRelease
        | Request::VirtualKeyboardDestroy => 8,
        Request::Sync { .. }
        | Request::GetRegistry { .. }
        | Request::CreateSurface { .. }
        | Request::GetPointer { .. }
        | Request::GetKeyboard { .. }
        | Request::GetTouch { .. }
        | Request::SetTextChangeCause { .. }
        | Request::InputMethodCommit { .. }
        | Request::GrabKeyboard { .. } => 12,
        Request::GetTextInput { .. }
        | Request::SetContentType { .. }
        | Request::GetInputMethod { .. }
        | Request::DeleteSurroundingText { .. }
        | Request::GetInputPopupSurface { .. }
        | Request::CreateVirtualKeyboard { .. }
        | Request::Keymap { .. } => 16,
        Request::Key { .. } => 20,
        Request::Damage { .. } | Request::SetCursorRectangle { .. } | Request::Modifiers { .. } =>
            24,
        Request::CommitString { text } => text_size(text) + 8,
        Request::SetSurroundingText { text, .. } | Request::SetPreeditString { text, .. } =>
            text_size(text) + 16,
        Request::Bind { interface, .. } => text_size(interface) + 20,
    }
}

// The rows: an opcode, and the arguments with their kinds. Rows that are written alike share an arm.
macro_rules! put_by_row {
    ($request:ident $out:ident $id:ident) => {
        match *$request {
            Request::SurfaceDestroy
            | Request::TextInputManagerDestroy
            | Request::TextInputDestroy
            | Request::InputPopupSurfaceDestroy
            | Request::KeyboardGrabRelease => put_row!(put_nothing $out $id 0),
            Request::Enable
            | Request::InputMethodManagerDestroy => put_row!(put_nothing $out $id 1),
            Request::Disable => put_row!(put_nothing $out $id 2),
            Request::VirtualKeyboardDestroy => put_row!(put_nothing $out $id 3),
            Request::SurfaceCommit
            | Request::InputMethodDestroy => put_row!(put_nothing $out $id 6),
            Request::TextInputCommit => put_row!(put_nothing $out $id 7),
            Request::Sync { callback: word }
            | Request::CreateSurface { id: word }
            | Request::GetPointer { id: word } => put_row!(put_one $out $id 0 uint word),
            Request::GetRegistry { registry: word }
            | Request::GetKeyboard { id: word } => put_row!(put_one $out $id 1 uint word),
            Request::GetTouch { id: word } => put_row!(put_one $out $id 2 uint word),
            Request::InputMethodCommit { serial } => put_row!(put_one $out $id 3 uint serial),
            Request::SetTextChangeCause { cause } => put_row!(put_one $out $id 4 uint cause),
            Request::GrabKeyboard { keyboard } => put_row!(put_one $out $id 5 uint keyboard),
            Request::CommitString { text } => put_row!(put_one $out $id 0 text text),
            Request::GetInputMethod { seat, input_method: made }
            | Request::CreateVirtualKeyboard { seat, id: made } => {
                put_row!(put_two $out $id 0 uint seat, uint made)
            }
            Request::GetTextInput { id: field, seat } => {
                put_row!(put_two $out $id 1 uint field, uint seat)
            }
            Request::DeleteSurroundingText { before, after } => {
                put_row!(put_two $out $id 2 uint before, uint after)
            }
            Request::GetInputPopupSurface { id: popup, surface } => {
                put_row!(put_two $out $id 4 uint popup, uint surface)
            }
            Request::SetContentType { hint, purpose } => {
                put_row!(put_two $out $id 5 uint hint, uint purpose)
            }
            Request::Keymap { format, token, size } => {
                put_row!(put_three $out $id 0 uint format, descriptor token, uint size)
            }
            Request::Key { time, key, state } => {
                put_row!(put_three $out $id 1 uint time, uint key, uint state)
            }
            Request::SetPreeditString { text, begin, end } => {
                put_row!(put_three $out $id 1 text text, int begin, int end)
            }
            Request::SetSurroundingText { text, cursor, anchor } => {
                put_row!(put_three $out $id 3 text text, int cursor, int anchor)
            }
            Request::Damage { x, y, width, height } => {
                put_row!(put_four $out $id 2 int x, int y, int width, int height)
            }
            Request::SetCursorRectangle { x, y, width, height } => {
                put_row!(put_four $out $id 6 int x, int y, int width, int height)
            }
            Request::Modifiers { depressed, latched, locked, group } => {
                put_row!(put_four $out $id 2 uint depressed, uint latched, uint locked, uint group)
            }
            Request::Bind { name, interface, version, id: made } => {
                put_row!(put_four $out $id 0 uint name, text interface, uint version, uint made)
            }
        }
    };
}

// One premise and one clause: they are proved at each row.
#[inline(always)]
fn put_request(id: u32, request: &Request, out: &mut [u8]) -> usize
    requires { message_len (request_message request.now) ≤ most out.old }
    ensures { message_put id (request_message request.now) out.old ≡ (result, out.new) }
{
    put_by_row!(request out id)
}

/// Writes the request to the object of this id into the front of the buffer, and says how many
/// bytes it has. The rest of the buffer stays. The descriptor's token is not written. Takes no
/// memory.
#[tactic(auto, unfolding(crate::specs::Arguments::most, crate::specs::Arguments::put_result))]
pub fn write_request(id: u32, request: &Request, out: &mut [u8]) -> usize
    requires short { message_len (request_message request.now) ≤ 4096 }
    requires room { message_len (request_message request.now) ≤ length out.old }
    ensures len { result ≡ message_len (request_message request.now) }
    ensures bytes { out.new ≡ message_bytes id (request_message request.now) ++ drop result
        out.old }
{
    put_request(id, request, out)
}
