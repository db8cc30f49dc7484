//! An event as a method's client heard it.
ghost use Rattle.std.specs.Prelude.{◌≡◌, IfOk, option_map, string_bytes};
ghost use Rattle.trial_client_logs.specs.MethodLogs.{anywhere, lent_anywhere};

use std::alloc::Global;
use wio_core::NoMemory;
use wl_proto::Event;

/// An event in memory of its own, one variant for each of `Event`. Objects are the client's own,
/// by their ids.
#[derive(Debug, Drop)]
pub enum HeardEvent {
    /// `wl_display.error`: the object, the code that its interface gives, and a text for the log.
    Error {
        object: u32,
        code: u32,
        message: String,
    },
    /// `wl_display.delete_id`
    DeleteId {
        id: u32,
    },
    /// `wl_registry.global`
    Global {
        name: u32,
        interface: String,
        version: u32,
    },
    /// `wl_registry.global_remove`, which is never told.
    GlobalRemove {
        name: u32,
    },
    /// `wl_callback.done`
    CallbackDone {
        value: u32,
    },
    /// `wl_seat.capabilities`
    Capabilities {
        value: u32,
    },
    /// `zwp_text_input_v3.enter`
    Enter {
        surface: u32,
    },
    /// `zwp_text_input_v3.leave`
    Leave {
        surface: u32,
    },
    /// `zwp_text_input_v3.preedit_string`; `None` is the null string, which is never told. The cursor's begin and end
    /// are offsets in bytes.
    PreeditString {
        text: Option<String>,
        begin: i32,
        end: i32,
    },
    /// `zwp_text_input_v3.commit_string`; `None` is the null string, which is never told.
    CommitString {
        text: Option<String>,
    },
    /// `zwp_text_input_v3.delete_surrounding_text`, in bytes before and after the cursor.
    DeleteSurroundingText {
        before: u32,
        after: u32,
    },
    /// `zwp_text_input_v3.done`; the serial is the number of the field's commits.
    TextInputDone {
        serial: u32,
    },
    /// `zwp_input_method_v2.activate`
    Activate,
    /// `zwp_input_method_v2.deactivate`
    Deactivate,
    /// `zwp_input_method_v2.surrounding_text`; cursor and anchor are offsets in bytes.
    SurroundingText {
        text: String,
        cursor: u32,
        anchor: u32,
    },
    /// `zwp_input_method_v2.text_change_cause`
    TextChangeCause {
        cause: u32,
    },
    /// `zwp_input_method_v2.content_type`
    ContentType {
        hint: u32,
        purpose: u32,
    },
    /// `zwp_input_method_v2.done`
    InputMethodDone,
    /// `zwp_input_method_v2.unavailable`
    Unavailable,
    /// `zwp_input_popup_surface_v2.text_input_rectangle`
    TextInputRectangle {
        x: i32,
        y: i32,
        width: i32,
        height: i32,
    },
    /// `zwp_input_method_keyboard_grab_v2.keymap`; its descriptor travels beside the bytes, as a token.
    Keymap {
        format: u32,
        token: u32,
        size: u32,
    },
    /// `zwp_input_method_keyboard_grab_v2.key`; the time is in milliseconds.
    Key {
        serial: u32,
        time: u32,
        key: u32,
        state: u32,
    },
    /// `zwp_input_method_keyboard_grab_v2.modifiers`
    Modifiers {
        serial: u32,
        depressed: u32,
        latched: u32,
        locked: u32,
        group: u32,
    },
    /// `zwp_input_method_keyboard_grab_v2.repeat_info`; the rate is in keys a second, the delay in milliseconds.
    RepeatInfo {
        rate: i32,
        delay: i32,
    },
}

// The text in memory of its own.
fn text_copy(alloc: Global, text: &str) -> Result<String, NoMemory>
    ensures { IfOk result (λ copy. string_bytes copy ≡ text.now) }
{
    Ok(String::from_str(alloc, text)?)
}

// A text that may be the null string.
fn null_or_copy(alloc: Global, text: Option<&str>) -> Result<Option<String>, NoMemory>
    ensures { IfOk result (λ copy. option_map (λ t. anywhere (string_bytes t)) copy
        ≡ option_map lent_anywhere text.entry) }
{
    match text {
        Some(text) => Ok(Some(text_copy(alloc, text)?)),
        None => Ok(None),
    }
}

// Each event with its numbers, and its text copied.
macro_rules! heard_by_row {
    ($event:ident $alloc:ident) => {
        match *$event {
            Event::Error { object, code, message } => {
                HeardEvent::Error { object, code, message: text_copy($alloc, message)? }
            }
            Event::DeleteId { id } => HeardEvent::DeleteId { id },
            Event::Global { name, interface, version } => {
                HeardEvent::Global { name, interface: text_copy($alloc, interface)?, version }
            }
            Event::GlobalRemove { name } => HeardEvent::GlobalRemove { name },
            Event::CallbackDone { value } => HeardEvent::CallbackDone { value },
            Event::Capabilities { value } => HeardEvent::Capabilities { value },
            Event::Enter { surface } => HeardEvent::Enter { surface },
            Event::Leave { surface } => HeardEvent::Leave { surface },
            Event::PreeditString { text, begin, end } => {
                HeardEvent::PreeditString { text: null_or_copy($alloc, text)?, begin, end }
            }
            Event::CommitString { text } => {
                HeardEvent::CommitString { text: null_or_copy($alloc, text)? }
            }
            Event::DeleteSurroundingText { before, after } => {
                HeardEvent::DeleteSurroundingText { before, after }
            }
            Event::TextInputDone { serial } => HeardEvent::TextInputDone { serial },
            Event::Activate => HeardEvent::Activate,
            Event::Deactivate => HeardEvent::Deactivate,
            Event::SurroundingText { text, cursor, anchor } => {
                HeardEvent::SurroundingText { text: text_copy($alloc, text)?, cursor, anchor }
            }
            Event::TextChangeCause { cause } => HeardEvent::TextChangeCause { cause },
            Event::ContentType { hint, purpose } => HeardEvent::ContentType { hint, purpose },
            Event::InputMethodDone => HeardEvent::InputMethodDone,
            Event::Unavailable => HeardEvent::Unavailable,
            Event::TextInputRectangle { x, y, width, height } => {
                HeardEvent::TextInputRectangle { x, y, width, height }
            }
            Event::Keymap { format, token, size } => HeardEvent::Keymap { format, token, size },
            Event::Key { serial, time, key, state } => {
                HeardEvent::Key { serial, time, key, state }
            }
            Event::Modifiers { serial, depressed, latched, locked, group } => {
                HeardEvent::Modifiers { serial, depressed, latched, locked, group }
            }
            Event::RepeatInfo { rate, delay } => HeardEvent::RepeatInfo { rate, delay },
        }
    };
}

impl HeardEvent {
    ghost use Rattle.std.specs.Prelude.{IfOk};
    ghost use Rattle.trial_client_logs.specs.MethodLogs.{IsHeard};

    // The event.
    pub(crate) fn of(alloc: Global, event: &Event<'_>) -> Result<HeardEvent, NoMemory>
        ensures { IfOk result (λ heard. IsHeard event.now heard) }
    {
        Ok(heard_by_row!(event alloc))
    }
}
