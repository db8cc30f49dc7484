//! Events are written by their rows.
ghost use Rattle.std.specs.Prelude.{◌≡◌, ◌<◌, ◌≤◌, ◌^◌, ◌++◌, List, length, drop};
ghost use Rattle.wl_proto.specs.Rows.{event_message};
ghost use Rattle.wl_proto.specs.Arguments.{most, message_put};
ghost use Rattle.wl_proto.specs.Spelling.{message_len, message_bytes};

use crate::argument::{
    Argument, int_argument, put_five, put_four, put_nothing, put_one, put_three, put_two,
    string_argument, string_size, text_argument, text_size,
};
use crate::event::Event;
use crate::rows::{argument, put_row};

/// How many bytes the event has on the wire, its header included: 8 to 4,096, as its text is within
/// the limits. Takes no memory.
pub fn event_len(event: &Event) -> usize
    ensures len { result ≡ message_len (event_message event.now) }
{
    match *event {
        Event::Activate | Event::Deactivate | Event::InputMethodDone | Event::Unavailable => 8,
        Event::DeleteId { .. }
        | Event::GlobalRemove { .. }
        | Event::CallbackDone { .. }
        | Event::Capabilities { .. }
        | Event::Enter { .. }
        | Event::Leave { .. }
        | Event::TextInputDone { .. }
        | Event::TextChangeCause { .. } => 12,
        Event::DeleteSurroundingText { .. }
        | Event::ContentType { .. }
        | Event::Keymap { .. }
        | Event::RepeatInfo { .. } => 16,
        Event::TextInputRectangle { .. } | Event::Key { .. } => 24,
        Event::Modifiers { .. } => 28,
        Event::CommitString { text } => string_size(text) + 8,
        Event::PreeditString { text, .. } => string_size(text) + 16,
        Event::Error { message: text, .. }
        | Event::Global {
            interface: text,
            ..
        }
        | Event::SurroundingText { text, .. } => text_size(text) + 16,
    }
}

// The rows: an opcode, and the arguments with their kinds. Rows that are written alike share an arm.
macro_rules! put_by_row {
    ($event:ident $out:ident $id:ident) => {
        match *$event {
            Event::Activate => put_row!(put_nothing $out $id 0),
            Event::Deactivate => put_row!(put_nothing $out $id 1),
            Event::InputMethodDone => put_row!(put_nothing $out $id 5),
            Event::Unavailable => put_row!(put_nothing $out $id 6),
            Event::CallbackDone { value: word }
            | Event::Capabilities { value: word }
            | Event::Enter { surface: word } => put_row!(put_one $out $id 0 uint word),
            Event::DeleteId { id: word }
            | Event::GlobalRemove { name: word }
            | Event::Leave { surface: word } => put_row!(put_one $out $id 1 uint word),
            Event::TextChangeCause { cause } => put_row!(put_one $out $id 3 uint cause),
            Event::TextInputDone { serial } => put_row!(put_one $out $id 5 uint serial),
            Event::CommitString { text } => put_row!(put_one $out $id 3 string text),
            Event::DeleteSurroundingText { before: first, after: second }
            | Event::ContentType { hint: first, purpose: second } => {
                put_row!(put_two $out $id 4 uint first, uint second)
            }
            Event::RepeatInfo { rate, delay } => put_row!(put_two $out $id 3 int rate, int delay),
            Event::Error { object, code, message } => {
                put_row!(put_three $out $id 0 uint object, uint code, text message)
            }
            Event::Global { name, interface, version } => {
                put_row!(put_three $out $id 0 uint name, text interface, uint version)
            }
            Event::PreeditString { text, begin, end } => {
                put_row!(put_three $out $id 2 string text, int begin, int end)
            }
            Event::SurroundingText { text, cursor, anchor } => {
                put_row!(put_three $out $id 2 text text, uint cursor, uint anchor)
            }
            Event::Keymap { format, token, size } => {
                put_row!(put_three $out $id 0 uint format, descriptor token, uint size)
            }
            Event::TextInputRectangle { x, y, width, height } => {
                put_row!(put_four $out $id 0 int x, int y, int width, int height)
            }
            Event::Key { serial, time, key, state } => {
                put_row!(put_four $out $id 1 uint serial, uint time, uint key, uint state)
            }
            Event::Modifiers { serial, depressed, latched, locked, group } => {
                put_row!(put_five $out $id 2 uint serial, uint depressed, uint latched, uint locked, uint group)
            }
        }
    };
}

// One premise and one clause: they are proved at each row.
#[inline(always)]
fn put_event(id: u32, event: &Event, out: &mut [u8]) -> usize
    requires { message_len (event_message event.now) ≤ most out.old }
    ensures { message_put id (event_message event.now) out.old ≡ (result, out.new) }
{
    put_by_row!(event out id)
}

/// Writes the event to the object of this id into the front of the buffer, and says how many bytes
/// it has. The rest of the buffer stays. The descriptor's token is not written. Takes no memory.
#[tactic(auto, unfolding(crate::specs::Arguments::most, crate::specs::Arguments::put_result))]
pub fn write_event(id: u32, event: &Event, out: &mut [u8]) -> usize
    requires short { message_len (event_message event.now) ≤ 4096 }
    requires room { message_len (event_message event.now) ≤ length out.old }
    ensures len { result ≡ message_len (event_message event.now) }
    ensures bytes { out.new ≡ message_bytes id (event_message event.now) ++ drop result out.old }
{
    put_event(id, event, out)
}
