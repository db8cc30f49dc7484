//! What a field's requests set.
ghost use Rattle.std.specs.Prelude.{◌≡◌};
ghost use Rattle.relay_objects.specs.Fits.{FitsMessage, FindsRoom};
ghost use Rattle.relay_objects.specs.Objects.{asked};

use field_state::{Field, Room};
use relay_model::Act;

/// The act is a request of this field, other than a commit. Its first text takes the room.
pub fn ask(field: &mut Field, act: &Act, room: &mut Option<Room>)
    requires fits { FitsMessage act.now }
    requires room { FindsRoom act.now room.old }
    ensures { field.new ≡ asked act.now field.old }
{
    match act {
        Act::Enable { .. } => field.enable(),
        Act::Disable { .. } => field.disable(),
        Act::Surround {
            text,
            cursor,
            anchor,
            ..
        } => {
            let _ = field.set_surrounding(text, *cursor, *anchor, room);
        }
        Act::Cause { cause, .. } => field.set_cause(*cause),
        Act::Content { hint, purpose, .. } => field.set_content(*hint, *purpose),
        Act::Cursor { rect, .. } => {
            let _ = field.set_rect(*rect);
        }
        Act::Peer
        | Act::Gone { .. }
        | Act::Surface { .. }
        | Act::Field { .. }
        | Act::Method { .. }
        | Act::Popup { .. }
        | Act::Grab { .. }
        | Act::Drop { .. }
        | Act::Focus { .. }
        | Act::Unfocus
        | Act::Area { .. }
        | Act::Screen { .. }
        | Act::Commit { .. }
        | Act::MString { .. }
        | Act::MPreedit { .. }
        | Act::MDelete { .. }
        | Act::MCommit { .. }
        | Act::Key { .. }
        | Act::Mods { .. }
        | Act::Keymap { .. }
        | Act::Repeat { .. }
        | Act::Registry { .. }
        | Act::Sync { .. }
        | Act::Seat { .. }
        | Act::Thing { .. }
        | Act::Bad { .. }
        | Act::VBoard { .. }
        | Act::VKeymap { .. }
        | Act::VKey { .. }
        | Act::VMods { .. }
        | Act::Took { .. }
        | Act::Idle => {}
    }
}
