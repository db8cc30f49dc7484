//! Virtual keyboards: where the keys go that methods send of their own.
ghost use Rattle.std.specs.Prelude.{◌≡◌, ◌≤◌, ◌<◌, ◌^◌, length, IfOk};
ghost use Rattle.std.specs.List.{count_by};
ghost use Rattle.relay_model.specs.Boards.{had_keymap, sends, grab_for, board_pressed, board_down};
ghost use Rattle.relay_model.specs.Boards.{board_number, first_on_board, board_went, board_route};
ghost use Rattle.relay_model.specs.Boards.{board_refused};
ghost use Rattle.relay_plain.specs.Keys.{goes_of};

use crate::keys::{Goes, as_first, is_press, standing, to_standing, with_key};
use crate::objects::{is_board, is_same, peer_of};
use relay_model::{Act, Label};
use std::alloc::Global;
use wio_core::NoMemory;

// The board has had a keymap.
fn had_keymap(log: &[Act], board: Label) -> bool
    ensures { result ≡ had_keymap log.now board }
{
    match log {
        [] => false,
        [act, older @ ..] => match act {
            Act::VKeymap { board: named, .. } if *named == board => true,
            _ => had_keymap(older, board),
        },
    }
}

/// The live board has had a keymap: it may send keys and modifiers.
pub fn sends(log: &[Act], board: Label) -> bool
    ensures { result ≡ sends log.now board }
{
    is_board(log, board) && had_keymap(log, board)
}

/// The grab that stands, unless it is of the board's own peer.
pub fn grab_for(log: &[Act], board: Label) -> Option<Label>
    requires { length log.now < 2 ^ 32 }
    ensures { result ≡ grab_for log.now board }
{
    match standing(log) {
        Some(grab) if !is_same(peer_of(log, grab), peer_of(log, board)) => Some(grab),
        _ => None,
    }
}

// The keys that were pressed on the board, each once.
fn board_pressed(alloc: Global, log: &[Act], board: Label) -> Result<Vec<u32>, NoMemory>
    ensures { IfOk result (λ keys. keys.items ≡ board_pressed log.now board) }
{
    match log {
        [] => Ok(Vec::new(alloc)),
        [act, older @ ..] => {
            let keys = board_pressed(alloc, older, board)?;
            match act {
                Act::VKey {
                    board: named,
                    key,
                    state,
                    ..
                } if *named == board && is_press(*state) => with_key(*key, keys),
                _ => Ok(keys),
            }
        }
    }
}

// The key is down on the board: its last act there pressed it.
fn board_down(log: &[Act], board: Label, key: u32) -> bool
    ensures { result ≡ board_down log.now board key }
{
    match log {
        [] => false,
        [act, older @ ..] => match act {
            Act::VKey {
                board: other,
                key: named,
                state,
                ..
            } if *other == board && key == *named => is_press(*state),
            _ => board_down(older, board, key),
        },
    }
}

// How many of the keys are down on the board.
fn count_down(log: &[Act], board: Label, keys: &[u32]) -> usize
    ensures number { result ≡ count_by (board_down log.now board) keys.now }
    ensures within { result ≤ length keys.now }
{
    match keys {
        [] => 0,
        [key, rest @ ..] => {
            if board_down(log, board, *key) {
                count_down(log, board, rest) + 1
            } else {
                count_down(log, board, rest)
            }
        }
    }
}

// How many keys are down on the board.
fn board_number(alloc: Global, log: &[Act], board: Label) -> Result<usize, NoMemory>
    ensures { IfOk result (λ number. number ≡ board_number log.now board) }
{
    let keys = board_pressed(alloc, log, board)?;
    Ok(count_down(log, board, &keys))
}

// The act presses a key that is up on the board.
fn first_on_board(log: &[Act], board: Label, key: u32, state: u32) -> bool
    ensures { result ≡ first_on_board log.now board key state }
{
    is_press(state) && !board_down(log, board, key)
}

// Of a key that is down on the board: the grab that its first press went to since it was last up, none where that
// passed to the shell.
fn board_went(log: &[Act], board: Label, key: u32) -> Option<Label>
    requires { length log.now < 2 ^ 32 }
    ensures { result ≡ board_went log.now board key }
{
    match log {
        [] => None,
        [act, older @ ..] => match act {
            Act::VKey {
                board: other,
                key: named,
                state,
                ..
            } if *other == board && key == *named && first_on_board(older, board, key, *state) => {
                grab_for(older, board)
            }
            _ => board_went(older, board, key),
        },
    }
}

/// Where a key of the board goes: one that is down to where its first press went, a release of
/// another to the shell, a first press to the grab that stands and isn't of the board's peer, else
/// to the shell, and it is refused where 64 keys are down on the board.
pub fn board_route(
    alloc: Global,
    log: &[Act],
    board: Label,
    key: u32,
    state: u32,
) -> Result<Goes, NoMemory>
    requires { length log.now < 2 ^ 32 }
    ensures { IfOk result (λ goes. goes_of goes ≡ board_route log.now board key state) }
{
    let goes = if board_down(log, board, key) {
        as_first(log, board_went(log, board, key))
    } else if !is_press(state) {
        Goes::ToShell
    } else if board_number(alloc, log, board)? < 64 {
        to_standing(grab_for(log, board))
    } else {
        Goes::Refused
    };
    Ok(goes)
}

/// The press is refused: 64 keys are down on the board, and this is another.
pub fn board_refused(
    alloc: Global,
    log: &[Act],
    board: Label,
    key: u32,
    state: u32,
) -> Result<bool, NoMemory>
    ensures { IfOk result (λ refused. refused ≡ board_refused log.now board key state) }
{
    let number = board_number(alloc, log, board)?;
    Ok(first_on_board(log, board, key, state) && !(number < 64))
}
