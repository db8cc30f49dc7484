//! Requests: what a peer asks.

/// A request, one variant for each row. The fields are the row's arguments; an id is the number of an object of the
/// peer, and a new id is one that the peer chose.
#[derive(Clone, Copy)]
pub enum Request<'a> {
    /// `wl_display.sync`
    Sync {
        callback: u32,
    },
    /// `wl_display.get_registry`
    GetRegistry {
        registry: u32,
    },
    /// `wl_registry.bind`, whose new id has no interface of its own in the protocol, so that its name and version
    /// stand before it.
    Bind {
        name: u32,
        interface: &'a str,
        version: u32,
        id: u32,
    },
    /// `wl_compositor.create_surface`
    CreateSurface {
        id: u32,
    },
    /// `wl_surface.destroy`
    SurfaceDestroy,
    /// `wl_surface.damage`
    Damage {
        x: i32,
        y: i32,
        width: i32,
        height: i32,
    },
    /// `wl_surface.commit`
    SurfaceCommit,
    /// `wl_seat.get_pointer`
    GetPointer {
        id: u32,
    },
    /// `wl_seat.get_keyboard`
    GetKeyboard {
        id: u32,
    },
    /// `wl_seat.get_touch`
    GetTouch {
        id: u32,
    },
    /// `zwp_text_input_manager_v3.destroy`
    TextInputManagerDestroy,
    /// `zwp_text_input_manager_v3.get_text_input`
    GetTextInput {
        id: u32,
        seat: u32,
    },
    /// `zwp_text_input_v3.destroy`
    TextInputDestroy,
    /// `zwp_text_input_v3.enable`
    Enable,
    /// `zwp_text_input_v3.disable`
    Disable,
    /// `zwp_text_input_v3.set_surrounding_text`; cursor and anchor are offsets in bytes.
    SetSurroundingText {
        text: &'a str,
        cursor: i32,
        anchor: i32,
    },
    /// `zwp_text_input_v3.set_text_change_cause`
    SetTextChangeCause {
        cause: u32,
    },
    /// `zwp_text_input_v3.set_content_type`
    SetContentType {
        hint: u32,
        purpose: u32,
    },
    /// `zwp_text_input_v3.set_cursor_rectangle`
    SetCursorRectangle {
        x: i32,
        y: i32,
        width: i32,
        height: i32,
    },
    /// `zwp_text_input_v3.commit`
    TextInputCommit,
    /// `zwp_input_method_manager_v2.get_input_method`
    GetInputMethod {
        seat: u32,
        input_method: u32,
    },
    /// `zwp_input_method_manager_v2.destroy`
    InputMethodManagerDestroy,
    /// `zwp_input_method_v2.commit_string`
    CommitString {
        text: &'a str,
    },
    /// `zwp_input_method_v2.set_preedit_string`; the cursor's begin and end are offsets in bytes,
    /// or negative to hide it.
    SetPreeditString {
        text: &'a str,
        begin: i32,
        end: i32,
    },
    /// `zwp_input_method_v2.delete_surrounding_text`, in bytes before and after the cursor.
    DeleteSurroundingText {
        before: u32,
        after: u32,
    },
    /// `zwp_input_method_v2.commit`; the serial is a number of done events.
    InputMethodCommit {
        serial: u32,
    },
    /// `zwp_input_method_v2.get_input_popup_surface`
    GetInputPopupSurface {
        id: u32,
        surface: u32,
    },
    /// `zwp_input_method_v2.grab_keyboard`
    GrabKeyboard {
        keyboard: u32,
    },
    /// `zwp_input_method_v2.destroy`
    InputMethodDestroy,
    /// `zwp_input_popup_surface_v2.destroy`
    InputPopupSurfaceDestroy,
    /// `zwp_input_method_keyboard_grab_v2.release`
    KeyboardGrabRelease,
    /// `zwp_virtual_keyboard_manager_v1.create_virtual_keyboard`
    CreateVirtualKeyboard {
        seat: u32,
        id: u32,
    },
    /// `zwp_virtual_keyboard_v1.keymap`; the token stands for the file descriptor, the size is in bytes.
    Keymap {
        format: u32,
        token: u32,
        size: u32,
    },
    /// `zwp_virtual_keyboard_v1.key`; the time is in milliseconds, the state any number (`wl_keyboard.key_state` has 0
    /// and 1).
    Key {
        time: u32,
        key: u32,
        state: u32,
    },
    /// `zwp_virtual_keyboard_v1.modifiers`: three masks and the layout.
    Modifiers {
        depressed: u32,
        latched: u32,
        locked: u32,
        group: u32,
    },
    /// `zwp_virtual_keyboard_v1.destroy`
    VirtualKeyboardDestroy,
}
