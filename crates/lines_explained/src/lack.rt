//! Why an act does nothing on the seat.
ghost use Rattle.std.specs.Prelude.{◌≡◌, ◌++◌, List, OnOk, string_bytes};
ghost use Rattle.relay_model.specs.declared.act.Act.{Act};
ghost use Rattle.relay_model.specs.Idle.{history, is_place, is_sized};
ghost use Rattle.relay_core.specs.Stands.{StandsFor};
ghost use Rattle.lines_explained.specs.Lack.{reason, names_nothing, is_of_seat, idle_lack};
ghost use Rattle.lines_explained.specs.Lack.{lack_of, reason_words, lack_words};

use crate::phrase::add_phrase;
use broker_core::Entry;
use broker_steps::ShellStep;
use relay_core::Relay;
use relay_model::{Act, Label, Rect};
use wio_core::NoMemory;

/// Why something that asks for an effect on the seat has none.
#[derive(Clone, Copy, Debug, PartialEq, Eq)]
pub enum Lack {
    /// The shell names a surface that the peer doesn't have.
    NoSurface,
    /// The surface has the focus already.
    HasFocus,
    /// No surface has the focus that is taken away.
    NoFocus,
    /// The field isn't entered (`zwp_text_input_v3.enter`).
    NotEntered,
    /// The cursor or the anchor is neither at the first byte of a character nor at the text's end.
    NoPlace,
    /// A width or a height is below 0.
    NegativeSide,
    /// 64 keys are down on the keyboard or the board, and this would be another.
    ManyKeys,
    /// The board has had no keymap, or isn't live.
    NoKeymap,
    /// An object that it names isn't live, or is of another kind.
    NotLive,
}

// A cursor or an anchor that the text can have.
fn is_place(text: &str, at: i32) -> bool
    ensures { result ≡ is_place text.now at }
{
    at >= 0 && text.is_char_boundary(at as usize)
}

fn is_sized(rect: &Rect) -> bool
    ensures { result ≡ is_sized rect.now }
{
    rect.width >= 0 && rect.height >= 0
}

fn unfocused(relay: &Relay, surface: Label) -> Lack
    ensures { (log : List Act) → StandsFor relay.now log →
        result ≡ reason (Act.Focus surface) (history log) }
{
    match relay.focus() {
        Some(focus) => {
            if focus == surface {
                Lack::HasFocus
            } else {
                Lack::NotLive
            }
        }
        None => Lack::NotLive,
    }
}

// Why an act that isn't live does nothing on the relay.
fn reason(relay: &Relay, act: &Act) -> Lack
    ensures { (log : List Act) → StandsFor relay.now log → result ≡ reason act.now (history log) }
{
    match act {
        Act::Focus { surface } => unfocused(relay, *surface),
        Act::Unfocus => Lack::NoFocus,
        Act::Enable { .. } | Act::Disable { .. } | Act::Cause { .. } | Act::Content { .. } => {
            Lack::NotEntered
        }
        Act::Surround {
            text,
            cursor,
            anchor,
            ..
        } => {
            if is_place(text.as_str(), *cursor) && is_place(text.as_str(), *anchor) {
                Lack::NotEntered
            } else {
                Lack::NoPlace
            }
        }
        Act::Cursor { rect, .. } => {
            if is_sized(rect) {
                Lack::NotEntered
            } else {
                Lack::NegativeSide
            }
        }
        Act::Key { .. } => Lack::ManyKeys,
        Act::VKey { board, .. } => {
            if relay.has_keymap(*board) {
                Lack::ManyKeys
            } else {
                Lack::NoKeymap
            }
        }
        Act::VMods { .. } => Lack::NoKeymap,
        _ => Lack::NotLive,
    }
}

fn names_nothing(entry: &Entry) -> Option<Lack>
    ensures { result ≡ names_nothing entry.now }
{
    match entry {
        Entry::Shell(ShellStep::Focus { .. } | ShellStep::Area { .. }) => Some(Lack::NoSurface),
        _ => None,
    }
}

fn is_of_seat(act: &Act) -> bool
    ensures { result ≡ is_of_seat act.now }
{
    match act {
        Act::Took { .. } => false,
        Act::Idle => false,
        _ => true,
    }
}

fn idle_lack(entry: &Entry, act: &Act) -> Option<Lack>
    ensures { result ≡ idle_lack entry.now act.now }
{
    match act {
        Act::Idle => names_nothing(entry),
        _ => None,
    }
}

/// Why the entry does nothing on the relay, which is about to take its act; none where it does
/// something, or asks nothing of the seat.
pub(crate) fn lack_of(relay: &Relay, entry: &Entry, act: &Act) -> Option<Lack>
    ensures { (log : List Act) → StandsFor relay.now log → result ≡ lack_of entry.now act.now log }
{
    if is_of_seat(act) && !relay.is_live(act) {
        return Some(reason(relay, act));
    }
    idle_lack(entry, act)
}

fn words_of(lack: Lack) -> &'static str
    ensures { result.now ≡ reason_words lack }
{
    match lack {
        Lack::NoSurface => "the peer has no such surface",
        Lack::HasFocus => "the surface has the focus",
        Lack::NoFocus => "no surface has the focus",
        Lack::NotEntered => "the field is not entered",
        Lack::NoPlace => "cursor or anchor is inside a character or outside the text",
        Lack::NegativeSide => "a side is negative",
        Lack::ManyKeys => "64 keys are down",
        Lack::NoKeymap => "the board has had no keymap",
        Lack::NotLive => "an object that it names is not live",
    }
}

/// Adds to a line that the entry does nothing on the seat, and why.
pub(crate) fn add_lack(line: &mut String, lack: Option<Lack>) -> Result<(), NoMemory>
    ensures { OnOk result (string_bytes line.new ≡ string_bytes line.old ++ lack_words lack) }
{
    match lack {
        Some(lack) => add_phrase(line, ", without effect: ", None, words_of(lack), None),
        None => Ok(()),
    }
}
