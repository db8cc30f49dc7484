//! What a peer is told.
use crate::act::Label;
use crate::fault::Fault;
use kbd_grab::{Keymap, Mods, Repeat};
use wl_proto::{Interface, Text};

/// One event, for the object that it is told to.
#[derive(Debug, Drop)]
pub enum Said {
    /// `zwp_text_input_v3.enter`: the surface has the focus.
    Enter {
        surface: Label,
    },
    /// `zwp_text_input_v3.leave`: the surface has the focus no longer.
    Leave {
        surface: Label,
    },
    /// `zwp_text_input_v3.preedit_string`. Begin and end are offsets of the cursor in bytes.
    Preedit {
        text: Text,
        begin: i32,
        end: i32,
    },
    /// `zwp_text_input_v3.commit_string`.
    CommitString {
        text: Text,
    },
    /// `zwp_text_input_v3.delete_surrounding_text`. Lengths in bytes before and after the cursor.
    Delete {
        before: u32,
        after: u32,
    },
    /// `zwp_text_input_v3.done`: the events before it are applied at once. The serial is the count
    /// of the field's commits.
    FieldDone {
        serial: u32,
    },
    /// `zwp_input_method_v2.activate`.
    Activate,
    /// `zwp_input_method_v2.deactivate`.
    Deactivate,
    /// `zwp_input_method_v2.surrounding_text`. Cursor and anchor are offsets in bytes.
    Surrounding {
        text: Text,
        cursor: u32,
        anchor: u32,
    },
    /// `zwp_input_method_v2.text_change_cause`.
    ChangeCause {
        cause: u32,
    },
    /// `zwp_input_method_v2.content_type`.
    ContentType {
        hint: u32,
        purpose: u32,
    },
    /// `zwp_input_method_v2.done`: the events before it are applied at once.
    MethodDone,
    /// `zwp_input_method_v2.unavailable`: another method serves the seat.
    Unavailable,
    /// `zwp_input_popup_surface_v2.text_input_rectangle`, in pixels of the popup's surface.
    PopupRect {
        x: i32,
        y: i32,
        width: i32,
        height: i32,
    },
    /// `zwp_input_method_keyboard_grab_v2.keymap`.
    Keymap(Keymap),
    /// `zwp_input_method_keyboard_grab_v2.key`. The serial is the number of the key's act.
    Key {
        serial: u32,
        time: u32,
        key: u32,
        state: u32,
    },
    /// `zwp_input_method_keyboard_grab_v2.modifiers`. The serial is the number of the act.
    Mods {
        serial: u32,
        mods: Mods,
    },
    /// `zwp_input_method_keyboard_grab_v2.repeat_info`.
    Repeat(Repeat),
    /// `wl_registry.global`: the peer may bind the interface under this name.
    Global {
        name: u32,
        interface: Interface,
        version: u32,
    },
    /// `wl_callback.done`, the answer to a sync.
    CallbackDone {
        value: u32,
    },
    /// `wl_display.delete_id`: the object's id may be used again.
    DeleteId {
        label: Label,
    },
    /// `wl_seat.capabilities`: a mask of the pointer, the keyboard and the touch that the seat has.
    Capabilities {
        value: u32,
    },
    /// `wl_display.error`: a message was refused. The code and the text are the fault's.
    Error {
        object: Label,
        fault: Fault,
    },
    /// A key that no grab has, told to the shell.
    Pass {
        time: u32,
        key: u32,
        state: u32,
    },
    /// Modifiers of a board that no grab has, told to the shell.
    VMods(Mods),
    /// Where a popup stands on the screen, told to the shell. Pixels.
    Placed {
        popup: Label,
        x: i64,
        y: i64,
    },
}

/// An event and the label of the object that it is told to.
#[derive(Debug, Drop)]
pub struct Told {
    /// Whom it is told to.
    pub to: Label,
    /// What is told.
    pub event: Said,
}
