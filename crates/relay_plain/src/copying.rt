//! Acts in memory of their own.
ghost use Rattle.std.specs.Prelude.{◌≡◌, IfOk};

use relay_model::Act;
use std::alloc::Global;
use wio_core::NoMemory;

/// The same act in memory of its own. `NoMemory` is its one error.
pub fn copy_of_act(alloc: Global, act: &Act) -> Result<Act, NoMemory>
    ensures { IfOk result (λ copy. copy ≡ act.now) }
{
    let copy = match act {
        Act::Peer => Act::Peer,
        Act::Gone { peer, cause } => Act::Gone {
            peer: *peer,
            cause: *cause,
        },
        Act::Surface { peer } => Act::Surface { peer: *peer },
        Act::Field { peer } => Act::Field { peer: *peer },
        Act::Method { peer } => Act::Method { peer: *peer },
        Act::Popup { method, surface } => Act::Popup {
            method: *method,
            surface: *surface,
        },
        Act::Grab { method } => Act::Grab { method: *method },
        Act::Drop { label } => Act::Drop { label: *label },
        Act::Focus { surface } => Act::Focus { surface: *surface },
        Act::Unfocus => Act::Unfocus,
        Act::Area { surface, rect } => Act::Area {
            surface: *surface,
            rect: *rect,
        },
        Act::Screen { size } => Act::Screen { size: *size },
        Act::Enable { field } => Act::Enable { field: *field },
        Act::Disable { field } => Act::Disable { field: *field },
        Act::Surround {
            field,
            text,
            cursor,
            anchor,
        } => Act::Surround {
            field: *field,
            text: text.copy(alloc)?,
            cursor: *cursor,
            anchor: *anchor,
        },
        Act::Cause { field, cause } => Act::Cause {
            field: *field,
            cause: *cause,
        },
        Act::Content {
            field,
            hint,
            purpose,
        } => Act::Content {
            field: *field,
            hint: *hint,
            purpose: *purpose,
        },
        Act::Cursor { field, rect } => Act::Cursor {
            field: *field,
            rect: *rect,
        },
        Act::Commit { field } => Act::Commit { field: *field },
        Act::MString { method, text } => Act::MString {
            method: *method,
            text: text.copy(alloc)?,
        },
        Act::MPreedit {
            method,
            text,
            begin,
            end,
        } => Act::MPreedit {
            method: *method,
            text: text.copy(alloc)?,
            begin: *begin,
            end: *end,
        },
        Act::MDelete {
            method,
            before,
            after,
        } => Act::MDelete {
            method: *method,
            before: *before,
            after: *after,
        },
        Act::MCommit { method, serial } => Act::MCommit {
            method: *method,
            serial: *serial,
        },
        Act::Key { time, key, state } => Act::Key {
            time: *time,
            key: *key,
            state: *state,
        },
        Act::Mods(mods) => Act::Mods(*mods),
        Act::Keymap(keymap) => Act::Keymap(*keymap),
        Act::Repeat(repeat) => Act::Repeat(*repeat),
        Act::Registry { peer, role } => Act::Registry {
            peer: *peer,
            role: *role,
        },
        Act::Sync { peer } => Act::Sync { peer: *peer },
        Act::Seat { peer } => Act::Seat { peer: *peer },
        Act::Thing { peer } => Act::Thing { peer: *peer },
        Act::Bad {
            peer,
            fault,
            object,
        } => Act::Bad {
            peer: *peer,
            fault: *fault,
            object: *object,
        },
        Act::Took { peer, bytes } => Act::Took {
            peer: *peer,
            bytes: *bytes,
        },
        Act::VBoard { peer } => Act::VBoard { peer: *peer },
        Act::VKeymap { board, keymap } => Act::VKeymap {
            board: *board,
            keymap: *keymap,
        },
        Act::VKey {
            board,
            time,
            key,
            state,
        } => Act::VKey {
            board: *board,
            time: *time,
            key: *key,
            state: *state,
        },
        Act::VMods { board, mods } => Act::VMods {
            board: *board,
            mods: *mods,
        },
        Act::Idle => Act::Idle,
    };
    Ok(copy)
}
