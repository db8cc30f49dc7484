//! Where a key went.
ghost use Rattle.std.specs.Prelude.{◌≡◌, ◌++◌, List, OnOk, string_bytes};
ghost use Rattle.relay_model.specs.declared.act.Act.{Act};
ghost use Rattle.relay_core.specs.Stands.{StandsFor};
ghost use Rattle.lines_explained.specs.KeyWay.{key_before, way_past, way_in, way_of, way_words};
ghost use Rattle.lines_explained.specs.KeyWay.{key_end_words};

use crate::phrase::add_phrase;
use relay_core::Relay;
use relay_model::{Act, Label};
use wio_core::NoMemory;

/// What is known of a key before it is sent.
#[derive(Clone, Copy, Debug, PartialEq, Eq)]
pub struct KeySent {
    /// A board sends it (`zwp_virtual_keyboard_v1.key`), not the seat's keyboard.
    pub of_board: bool,
    /// The grab that stands.
    pub standing: Option<Label>,
}

/// Where a key went. One that is down goes where its first press went.
#[derive(Clone, Copy, Debug, PartialEq, Eq)]
pub enum KeyWay {
    /// To the grab that stands.
    ToGrab(Label),
    /// To the shell: no grab stands.
    ToShell,
    /// To the shell past the grab that stands, which did not get its press.
    PastGrab(Label),
    /// The same of a board's key; or the grab is of the board's own client.
    PastOwn(Label),
    /// Nowhere: the grab that got its press stands no more. Where one stands, it did not get the
    /// press, or its client's store had no room, and that client ends.
    Nowhere(Option<Label>),
}

/// What is known of the key that the act sends, which the relay is about to take: none where it
/// sends none.
pub(crate) fn key_before(relay: &Relay, act: &Act) -> Option<KeySent>
    ensures { (log : List Act) → StandsFor relay.now log → result ≡ key_before act.now log }
{
    let of_board = match act {
        Act::Key { .. } => false,
        Act::VKey { .. } => true,
        _ => return None,
    };
    if !relay.is_live(act) {
        return None;
    }
    Some(KeySent {
        of_board,
        standing: relay.standing(),
    })
}

fn way_past(of_board: bool, standing: Option<Label>) -> KeyWay
    ensures { result ≡ way_past of_board standing }
{
    match standing {
        None => KeyWay::ToShell,
        Some(grab) => {
            if of_board {
                KeyWay::PastOwn(grab)
            } else {
                KeyWay::PastGrab(grab)
            }
        }
    }
}

fn way_in(standing: Option<Label>, put: bool) -> KeyWay
    ensures { result ≡ way_in standing put }
{
    match standing {
        Some(grab) => {
            if put {
                KeyWay::ToGrab(grab)
            } else {
                KeyWay::Nowhere(Some(grab))
            }
        }
        None => KeyWay::Nowhere(None),
    }
}

/// Where a key went, by whether the shell was told it, and whether a group of events was put.
pub fn way_of(sent: KeySent, passed: bool, put: bool) -> KeyWay
    ensures { result ≡ way_of sent passed put }
{
    if passed {
        way_past(sent.of_board, sent.standing)
    } else {
        way_in(sent.standing, put)
    }
}

fn add_way(line: &mut String, way: KeyWay) -> Result<(), NoMemory>
    ensures { OnOk result (string_bytes line.new ≡ string_bytes line.old ++ way_words way) }
{
    match way {
        KeyWay::ToGrab(grab) => add_phrase(line, ", goes to grab", Some(grab), "", None),
        KeyWay::ToShell => {
            line.push_str(", passes to the shell: no grab stands")?;
            Ok(())
        }
        KeyWay::PastGrab(grab) => add_phrase(
            line,
            ", passes to the shell: grab",
            Some(grab),
            " did not get its press",
            None,
        ),
        KeyWay::PastOwn(grab) => add_phrase(
            line,
            ", passes to the shell: grab",
            Some(grab),
            " is its own client's or did not get its press",
            None,
        ),
        KeyWay::Nowhere(None) => {
            line.push_str(", goes nowhere: the grab that got its press stands no more")?;
            Ok(())
        }
        KeyWay::Nowhere(Some(grab)) => add_phrase(
            line,
            ", goes nowhere: grab",
            Some(grab),
            " did not get its press or had no room",
            None,
        ),
    }
}

/// Adds to a line where a key went, if one was sent.
pub(crate) fn add_key_end(
    line: &mut String,
    sent: Option<KeySent>,
    passed: bool,
    put: bool,
) -> Result<(), NoMemory>
    ensures { OnOk result (string_bytes line.new ≡ string_bytes line.old ++
        key_end_words sent passed put) }
{
    match sent {
        Some(sent) => add_way(line, way_of(sent, passed, put)),
        None => Ok(()),
    }
}
