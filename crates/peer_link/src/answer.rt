//! The answer to a shell's order.
ghost use Rattle.std.specs.Prelude.{◌≡◌, ◌<◌, ◌≤◌, ℕ, length, take, OnOk, OnErr};
ghost use Rattle.std.specs.Io.KnownBytes.{Appends};
ghost use Rattle.wio_core.specs.Io.{Rose, StaysQuiet};
ghost use Rattle.peer_link.specs.ShellAnswers.{answer, answer_end};

use hub_lock::Route;
use itoa::Buffer;
use wio_core::{Failed, Sink, write_all};

// The most bytes of an answer: a number, a word and a line feed.
const ROOM: usize = 32;

// What stands behind the number: of a key where it went, and a line feed.
fn answer_end(route: Option<Route>) -> &'static [u8]
    ensures value { result.now ≡ answer_end route }
    ensures short { length result.now ≤ 9 }
{
    match route {
        None => b"\n",
        Some(Route::ToGrab(_)) => b" grab\n",
        Some(Route::Pass) => b" pass\n",
        Some(Route::Nowhere) => b" nowhere\n",
        Some(Route::TooMany) => b" many\n",
    }
}

// Puts the answer at the front of the room, and says how many bytes it has.
fn spell(room: &mut [u8; 32], entry: u32, route: Option<Route>) -> usize
    ensures within { result ≤ 32 }
    ensures spelled { take result room.new ≡ answer entry route }
{
    let mut buffer = Buffer::new();
    let number = buffer.format(entry).as_bytes();
    let end = answer_end(route);
    let size = number.len() + end.len();
    room[..number.len()].copy_from_slice(number);
    room[number.len()..size].copy_from_slice(end);
    size
}

/// Writes the answer to an order in one piece: the number of its entry, of a key also where it went,
/// and a line feed. (no memory)
pub(crate) fn write_answer<K: Sink>(
    sink: &mut K,
    entry: u32,
    route: Option<Route>,
) -> Result<(), Failed>
    ensures whole { OnOk result
        (Appends (K.held sink.old) (K.held sink.new) (answer entry route)) }
    ensures prefix { OnErr result ((n : ℕ) × (n < length (answer entry route))
        × Appends (K.held sink.old) (K.held sink.new) (take n (answer entry route))) }
    ensures quiet { StaysQuiet (K.held sink.old) (K.held sink.new) }
    ensures never_falls { K.fault_count sink.old ≤ K.fault_count sink.new }
    ensures cause { OnErr result (Rose (K.fault_count sink.old) (K.fault_count sink.new)) }
    ensures no_fault { OnOk result (K.fault_count sink.new ≡ K.fault_count sink.old) }
{
    let mut room = [0; ROOM];
    let size = spell(&mut room, entry, route);
    write_all(sink, &room[..size])
}
