//! Events: what a peer is told.

/// An event, one variant for each row. The fields are the row's arguments; an id is the number of
/// an object of the peer.
#[derive(Clone, Copy)]
pub enum Event<'a> {
    /// `wl_display.error`: the object, the code that its interface gives, and a text for the log.
    Error {
        object: u32,
        code: u32,
        message: &'a str,
    },
    /// `wl_display.delete_id`
    DeleteId {
        id: u32,
    },
    /// `wl_registry.global`
    Global {
        name: u32,
        interface: &'a str,
        version: u32,
    },
    /// `wl_registry.global_remove`, which is never told.
    GlobalRemove {
        name: u32,
    },
    /// `wl_callback.done`
    CallbackDone {
        value: u32,
    },
    /// `wl_seat.capabilities`
    Capabilities {
        value: u32,
    },
    /// `zwp_text_input_v3.enter`
    Enter {
        surface: u32,
    },
    /// `zwp_text_input_v3.leave`
    Leave {
        surface: u32,
    },
    /// `zwp_text_input_v3.preedit_string`; `None` is the null string, which is never told. The cursor's begin and end
    /// are offsets in bytes.
    PreeditString {
        text: Option<&'a str>,
        begin: i32,
        end: i32,
    },
    /// `zwp_text_input_v3.commit_string`; `None` is the null string, which is never told.
    CommitString {
        text: Option<&'a str>,
    },
    /// `zwp_text_input_v3.delete_surrounding_text`, in bytes before and after the cursor.
    DeleteSurroundingText {
        before: u32,
        after: u32,
    },
    /// `zwp_text_input_v3.done`; the serial is the number of the field's commits.
    TextInputDone {
        serial: u32,
    },
    /// `zwp_input_method_v2.activate`
    Activate,
    /// `zwp_input_method_v2.deactivate`
    Deactivate,
    /// `zwp_input_method_v2.surrounding_text`; cursor and anchor are offsets in bytes.
    SurroundingText {
        text: &'a str,
        cursor: u32,
        anchor: u32,
    },
    /// `zwp_input_method_v2.text_change_cause`
    TextChangeCause {
        cause: u32,
    },
    /// `zwp_input_method_v2.content_type`
    ContentType {
        hint: u32,
        purpose: u32,
    },
    /// `zwp_input_method_v2.done`
    InputMethodDone,
    /// `zwp_input_method_v2.unavailable`
    Unavailable,
    /// `zwp_input_popup_surface_v2.text_input_rectangle`
    TextInputRectangle {
        x: i32,
        y: i32,
        width: i32,
        height: i32,
    },
    /// `zwp_input_method_keyboard_grab_v2.keymap`; its descriptor travels beside the bytes, as a token.
    Keymap {
        format: u32,
        token: u32,
        size: u32,
    },
    /// `zwp_input_method_keyboard_grab_v2.key`; the time is in milliseconds.
    Key {
        serial: u32,
        time: u32,
        key: u32,
        state: u32,
    },
    /// `zwp_input_method_keyboard_grab_v2.modifiers`
    Modifiers {
        serial: u32,
        depressed: u32,
        latched: u32,
        locked: u32,
        group: u32,
    },
    /// `zwp_input_method_keyboard_grab_v2.repeat_info`; the rate is in keys a second, the delay in milliseconds.
    RepeatInfo {
        rate: i32,
        delay: i32,
    },
}
