//! Idle acts, which change nothing and tell nothing.
ghost use Rattle.std.specs.Prelude.{◌≡◌, ◌<◌, ◌^◌, ◌&&◌, not, length, IfOk};
ghost use Rattle.relay_model.specs.Boards.{sends, board_refused};
ghost use Rattle.relay_model.specs.Idle.{is_boundary, is_place, is_sized, is_live, cleaned};

use crate::boards::{board_refused, sends};
use crate::copying::copy_of_act;
use crate::focus::{entered, focus};
use crate::keys::is_refused;
use crate::objects::{alive, has_popup, is_at, is_board, is_field, is_method, is_peer, is_surface};
use relay_model::{Act, Label, Rect, Text};
use std::alloc::Global;
use wio_core::NoMemory;

// The offset is that of a character's first byte, or the text's end.
fn is_boundary(text: &[u8], at: usize) -> bool
    ensures { result ≡ is_boundary text.now at }
{
    at == text.len() || at < text.len() && (text[at] < 128 || 192 <= text[at])
}

// A cursor or an anchor that a text can have (`zwp_text_input_v3.set_surrounding_text`).
fn is_place(text: &Text, at: i32) -> bool
    ensures { result ≡ is_place text.now at }
{
    at >= 0 && is_boundary(text.as_bytes(), at as usize)
}

// A rectangle that a field can have (`zwp_text_input_v3.set_cursor_rectangle`).
fn is_sized(rect: Rect) -> bool
    ensures { result ≡ is_sized rect }
{
    rect.width >= 0 && rect.height >= 0
}

// The board may send the key, and no press of it is refused.
fn sends_key(
    alloc: Global,
    older: &[Act],
    board: Label,
    key: u32,
    state: u32,
) -> Result<bool, NoMemory>
    requires { length older.now < 2 ^ 32 }
    ensures { IfOk result (λ live. live ≡ (sends older.now board
        && not (board_refused older.now board key state))) }
{
    let refused = board_refused(alloc, older, board, key, state)?;
    Ok(sends(older, board) && !refused)
}

// The act does something after these acts.
fn is_live(alloc: Global, act: &Act, older: &[Act]) -> Result<bool, NoMemory>
    requires { length older.now < 2 ^ 32 }
    ensures { IfOk result (λ live. live ≡ is_live act.now older.now) }
{
    let live = match act {
        Act::Peer | Act::Screen { .. } | Act::Mods(_) | Act::Keymap(_) | Act::Repeat(_) => true,
        Act::Took { .. } | Act::Idle => false,
        Act::Gone { peer, .. }
        | Act::Surface { peer }
        | Act::Field { peer }
        | Act::Method { peer }
        | Act::Registry { peer, .. }
        | Act::Sync { peer }
        | Act::Seat { peer }
        | Act::Thing { peer }
        | Act::VBoard { peer }
        | Act::Bad { peer, .. } => is_peer(older, *peer),
        Act::Popup { method, surface } => {
            let taken = has_popup(alloc, older, *surface)?;
            is_method(older, *method) && (is_surface(older, *surface) && !taken)
        }
        Act::Grab { method }
        | Act::MString { method, .. }
        | Act::MPreedit { method, .. }
        | Act::MDelete { method, .. }
        | Act::MCommit { method, .. } => is_method(older, *method),
        Act::Drop { label } => alive(older, *label) && !is_peer(older, *label),
        Act::Focus { surface } => is_surface(older, *surface) && !is_at(focus(older), *surface),
        Act::Unfocus => focus(older).is_some(),
        Act::Area { surface, .. } => is_surface(older, *surface),
        Act::Enable { field }
        | Act::Disable { field }
        | Act::Cause { field, .. }
        | Act::Content { field, .. } => entered(older, *field),
        Act::Surround {
            field,
            text,
            cursor,
            anchor,
        } => entered(older, *field) && is_place(text, *cursor) && is_place(text, *anchor),
        Act::Cursor { field, rect } => entered(older, *field) && is_sized(*rect),
        Act::Commit { field } => is_field(older, *field),
        Act::Key { key, state, .. } => !is_refused(alloc, older, *key, *state)?,
        Act::VKeymap { board, .. } => is_board(older, *board),
        Act::VKey {
            board,
            key,
            state,
            ..
        } => sends_key(alloc, older, *board, *key, *state)?,
        Act::VMods { board, .. } => sends(older, *board),
    };
    Ok(live)
}

// The act, or Idle in its place.
pub fn cleaned(alloc: Global, act: &Act, older: &[Act]) -> Result<Act, NoMemory>
    requires { length older.now < 2 ^ 32 }
    ensures { IfOk result (λ copy. copy ≡ cleaned act.now older.now) }
{
    if is_live(alloc, act, older)? {
        copy_of_act(alloc, act)
    } else {
        Ok(Act::Idle)
    }
}
