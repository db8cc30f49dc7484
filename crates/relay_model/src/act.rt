//! What happens on a seat.
use crate::fault::Fault;
use crate::role::Role;
use kbd_grab::{Keymap, Mods, Repeat};
use popup_place::{Rect, Size};
use wl_proto::Text;

/// Names a peer or an object: the number of the act that made it, from 1. Label 0 is the shell.
pub type Label = u32;

/// Why a peer ended.
#[derive(Clone, Copy, Debug, PartialEq, Eq)]
pub enum EndCause {
    /// Its link ended.
    Gone,
    /// Its last message was refused.
    Bad,
    /// A group of events did not fit its store.
    Full,
}

/// The last of enable and disable that a field said since its last commit (`zwp_text_input_v3`).
#[derive(Clone, Copy, Debug, PartialEq, Eq)]
pub enum Word {
    /// `enable`.
    Enabled,
    /// `disable`.
    Disabled,
}

/// One act. In a list the acts are numbered from 1, and an object's label is the number of the act
/// that made it. An act that names an object that isn't alive or is of another kind is idle, as are
/// those that `docs/MODEL.md` lists: it keeps its number, changes nothing and tells nothing.
#[derive(Debug, Drop)]
pub enum Act {
    /// A peer joins.
    Peer,
    /// A peer ends, and with it all its objects.
    Gone {
        peer: Label,
        cause: EndCause,
    },
    /// `wl_compositor.create_surface`.
    Surface {
        peer: Label,
    },
    /// `zwp_text_input_manager_v3.get_text_input`.
    Field {
        peer: Label,
    },
    /// `zwp_input_method_manager_v2.get_input_method`.
    Method {
        peer: Label,
    },
    /// `zwp_input_method_v2.get_input_popup_surface`.
    Popup {
        method: Label,
        surface: Label,
    },
    /// `zwp_input_method_v2.grab_keyboard`.
    Grab {
        method: Label,
    },
    /// An object is destroyed by its peer; never a peer.
    Drop {
        label: Label,
    },
    /// The shell gives the keyboard focus to a surface.
    Focus {
        surface: Label,
    },
    /// The shell takes the keyboard focus away.
    Unfocus,
    /// The shell places a surface on the screen. Pixels; the size isn't negative.
    Area {
        surface: Label,
        rect: Rect,
    },
    /// The shell says how large the screen is. Pixels; not negative.
    Screen {
        size: Size,
    },
    /// `zwp_text_input_v3.enable`.
    Enable {
        field: Label,
    },
    /// `zwp_text_input_v3.disable`.
    Disable {
        field: Label,
    },
    /// `zwp_text_input_v3.set_surrounding_text`. Cursor and anchor are offsets in bytes.
    Surround {
        field: Label,
        text: Text,
        cursor: i32,
        anchor: i32,
    },
    /// `zwp_text_input_v3.set_text_change_cause`.
    Cause {
        field: Label,
        cause: u32,
    },
    /// `zwp_text_input_v3.set_content_type`.
    Content {
        field: Label,
        hint: u32,
        purpose: u32,
    },
    /// `zwp_text_input_v3.set_cursor_rectangle`.
    Cursor {
        field: Label,
        rect: Rect,
    },
    /// `zwp_text_input_v3.commit`.
    Commit {
        field: Label,
    },
    /// `zwp_input_method_v2.commit_string`.
    MString {
        method: Label,
        text: Text,
    },
    /// `zwp_input_method_v2.set_preedit_string`. Begin and end are offsets of the cursor in bytes, relayed unchanged.
    MPreedit {
        method: Label,
        text: Text,
        begin: i32,
        end: i32,
    },
    /// `zwp_input_method_v2.delete_surrounding_text`. Lengths in bytes before and after the cursor.
    MDelete {
        method: Label,
        before: u32,
        after: u32,
    },
    /// `zwp_input_method_v2.commit`. The serial names one of the dones that the method was told.
    MCommit {
        method: Label,
        serial: u32,
    },
    /// A key of the seat's keyboard: state 0 is released, 1 pressed. The time is in milliseconds.
    Key {
        time: u32,
        key: u32,
        state: u32,
    },
    /// The modifiers of the seat's keyboard.
    Mods(Mods),
    /// The keymap of the seat's keyboard.
    Keymap(Keymap),
    /// How keys repeat.
    Repeat(Repeat),
    /// `wl_display.get_registry`. The role is the peer's.
    Registry {
        peer: Label,
        role: Role,
    },
    /// `wl_display.sync`. Its callback is gone when the act is over.
    Sync {
        peer: Label,
    },
    /// `wl_registry.bind` of `wl_seat`.
    Seat {
        peer: Label,
    },
    /// `wl_registry.bind` of another global.
    Thing {
        peer: Label,
    },
    /// A message is refused. The object is the one that the peer is told: its `wl_display`, or the
    /// one that the message went to.
    Bad {
        peer: Label,
        fault: Fault,
        object: Label,
    },
    /// So many bytes of what is stored for a peer are taken; also for a peer that ended.
    Took {
        peer: Label,
        bytes: u32,
    },
    /// `zwp_virtual_keyboard_manager_v1.create_virtual_keyboard`: a board, on which the peer sends
    /// keys of its own.
    VBoard {
        peer: Label,
    },
    /// `zwp_virtual_keyboard_v1.keymap`. It is told to nobody; a board sends no key before it.
    VKeymap {
        board: Label,
        keymap: Keymap,
    },
    /// `zwp_virtual_keyboard_v1.key`: state 0 is released, 1 pressed. The time is in milliseconds.
    VKey {
        board: Label,
        time: u32,
        key: u32,
        state: u32,
    },
    /// `zwp_virtual_keyboard_v1.modifiers`.
    VMods {
        board: Label,
        mods: Mods,
    },
    /// Nothing happens; the act has its number alone.
    Idle,
}
