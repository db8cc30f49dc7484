//! Every row, written and read back. The words are from the profile's table, and not from the program.
use crate::equal::{equal, equal_at};
use std::process::Abort;
use std::test::Fail;
use wl_proto::{
    Event, Interface, Request, event_len, read_event, read_request, request_len, write_event,
    write_request,
};
use wl_wire::Raw;

#[rattlefmt::skip]
static REQUESTS: [(Interface, Request<'static>, &[u32]); 36] = [
    (Interface::Display, Request::Sync { callback: 2 }, &[7, 0x000c_0000, 2]),
    (Interface::Display, Request::GetRegistry { registry: 2 }, &[7, 0x000c_0001, 2]),
    (Interface::Registry, Request::Bind { name: 1, interface: "wl_seat", version: 2, id: 3 },
     &[7, 0x0020_0000, 1, 8, 0x735f_6c77, 0x0074_6165, 2, 3]),
    (Interface::Compositor, Request::CreateSurface { id: 2 }, &[7, 0x000c_0000, 2]),
    (Interface::Surface, Request::SurfaceDestroy, &[7, 0x0008_0000]),
    (Interface::Surface, Request::Damage { x: 1, y: -2, width: 3, height: 4 }, &[7, 0x0018_0002, 1, 0xffff_fffe, 3, 4]),
    (Interface::Surface, Request::SurfaceCommit, &[7, 0x0008_0006]),
    (Interface::Seat, Request::GetPointer { id: 2 }, &[7, 0x000c_0000, 2]),
    (Interface::Seat, Request::GetKeyboard { id: 2 }, &[7, 0x000c_0001, 2]),
    (Interface::Seat, Request::GetTouch { id: 2 }, &[7, 0x000c_0002, 2]),
    (Interface::TextInputManager, Request::TextInputManagerDestroy, &[7, 0x0008_0000]),
    (Interface::TextInputManager, Request::GetTextInput { id: 2, seat: 3 }, &[7, 0x0010_0001, 2, 3]),
    (Interface::TextInput, Request::TextInputDestroy, &[7, 0x0008_0000]),
    (Interface::TextInput, Request::Enable, &[7, 0x0008_0001]),
    (Interface::TextInput, Request::Disable, &[7, 0x0008_0002]),
    (Interface::TextInput, Request::SetSurroundingText { text: "abc", cursor: 1, anchor: -2 },
     &[7, 0x0018_0003, 4, 0x0063_6261, 1, 0xffff_fffe]),
    (Interface::TextInput, Request::SetTextChangeCause { cause: 1 }, &[7, 0x000c_0004, 1]),
    (Interface::TextInput, Request::SetContentType { hint: 1, purpose: 2 }, &[7, 0x0010_0005, 1, 2]),
    (Interface::TextInput, Request::SetCursorRectangle { x: -1, y: 2, width: 3, height: 4 },
     &[7, 0x0018_0006, 0xffff_ffff, 2, 3, 4]),
    (Interface::TextInput, Request::TextInputCommit, &[7, 0x0008_0007]),
    (Interface::InputMethodManager, Request::GetInputMethod { seat: 2, input_method: 3 }, &[7, 0x0010_0000, 2, 3]),
    (Interface::InputMethodManager, Request::InputMethodManagerDestroy, &[7, 0x0008_0001]),
    (Interface::InputMethod, Request::CommitString { text: "" }, &[7, 0x0010_0000, 1, 0]),
    (Interface::InputMethod, Request::SetPreeditString { text: "ab", begin: 1, end: 2 },
     &[7, 0x0018_0001, 3, 0x0000_6261, 1, 2]),
    (Interface::InputMethod, Request::DeleteSurroundingText { before: 1, after: 2 }, &[7, 0x0010_0002, 1, 2]),
    (Interface::InputMethod, Request::InputMethodCommit { serial: 9 }, &[7, 0x000c_0003, 9]),
    (Interface::InputMethod, Request::GetInputPopupSurface { id: 2, surface: 3 }, &[7, 0x0010_0004, 2, 3]),
    (Interface::InputMethod, Request::GrabKeyboard { keyboard: 2 }, &[7, 0x000c_0005, 2]),
    (Interface::InputMethod, Request::InputMethodDestroy, &[7, 0x0008_0006]),
    (Interface::InputPopupSurface, Request::InputPopupSurfaceDestroy, &[7, 0x0008_0000]),
    (Interface::KeyboardGrab, Request::KeyboardGrabRelease, &[7, 0x0008_0000]),
    (Interface::VirtualKeyboardManager, Request::CreateVirtualKeyboard { seat: 2, id: 3 }, &[7, 0x0010_0000, 2, 3]),
    (Interface::VirtualKeyboard, Request::Keymap { format: 1, token: 5, size: 2 }, &[7, 0x0010_0000, 1, 2]),
    (Interface::VirtualKeyboard, Request::Key { time: 1, key: 2, state: 3 }, &[7, 0x0014_0001, 1, 2, 3]),
    (Interface::VirtualKeyboard, Request::Modifiers { depressed: 1, latched: 2, locked: 3, group: 4 },
     &[7, 0x0018_0002, 1, 2, 3, 4]),
    (Interface::VirtualKeyboard, Request::VirtualKeyboardDestroy, &[7, 0x0008_0003]),
];

#[rattlefmt::skip]
static EVENTS: [(Interface, Event<'static>, &[u32]); 24] = [
    (Interface::Display, Event::Error { object: 1, code: 2, message: "bad size" },
     &[7, 0x0020_0000, 1, 2, 9, 0x2064_6162, 0x657a_6973, 0]),
    (Interface::Display, Event::DeleteId { id: 2 }, &[7, 0x000c_0001, 2]),
    (Interface::Registry, Event::Global { name: 1, interface: "wl_seat", version: 2 },
     &[7, 0x001c_0000, 1, 8, 0x735f_6c77, 0x0074_6165, 2]),
    (Interface::Registry, Event::GlobalRemove { name: 1 }, &[7, 0x000c_0001, 1]),
    (Interface::Callback, Event::CallbackDone { value: 9 }, &[7, 0x000c_0000, 9]),
    (Interface::Seat, Event::Capabilities { value: 9 }, &[7, 0x000c_0000, 9]),
    (Interface::TextInput, Event::Enter { surface: 2 }, &[7, 0x000c_0000, 2]),
    (Interface::TextInput, Event::Leave { surface: 2 }, &[7, 0x000c_0001, 2]),
    (Interface::TextInput, Event::PreeditString { text: Some("a"), begin: 1, end: -1 },
     &[7, 0x0018_0002, 2, 0x0000_0061, 1, 0xffff_ffff]),
    (Interface::TextInput, Event::CommitString { text: None }, &[7, 0x000c_0003, 0]),
    (Interface::TextInput, Event::DeleteSurroundingText { before: 1, after: 2 }, &[7, 0x0010_0004, 1, 2]),
    (Interface::TextInput, Event::TextInputDone { serial: 9 }, &[7, 0x000c_0005, 9]),
    (Interface::InputMethod, Event::Activate, &[7, 0x0008_0000]),
    (Interface::InputMethod, Event::Deactivate, &[7, 0x0008_0001]),
    (Interface::InputMethod, Event::SurroundingText { text: "abcd", cursor: 1, anchor: 2 },
     &[7, 0x001c_0002, 5, 0x6463_6261, 0, 1, 2]),
    (Interface::InputMethod, Event::TextChangeCause { cause: 1 }, &[7, 0x000c_0003, 1]),
    (Interface::InputMethod, Event::ContentType { hint: 1, purpose: 2 }, &[7, 0x0010_0004, 1, 2]),
    (Interface::InputMethod, Event::InputMethodDone, &[7, 0x0008_0005]),
    (Interface::InputMethod, Event::Unavailable, &[7, 0x0008_0006]),
    (Interface::InputPopupSurface, Event::TextInputRectangle { x: -1, y: 2, width: 3, height: 4 },
     &[7, 0x0018_0000, 0xffff_ffff, 2, 3, 4]),
    (Interface::KeyboardGrab, Event::Keymap { format: 1, token: 5, size: 2 }, &[7, 0x0010_0000, 1, 2]),
    (Interface::KeyboardGrab, Event::Key { serial: 1, time: 2, key: 3, state: 4 }, &[7, 0x0018_0001, 1, 2, 3, 4]),
    (Interface::KeyboardGrab, Event::Modifiers { serial: 1, depressed: 2, latched: 3, locked: 4, group: 5 },
     &[7, 0x001c_0002, 1, 2, 3, 4, 5]),
    (Interface::KeyboardGrab, Event::RepeatInfo { rate: 1, delay: -2 }, &[7, 0x0010_0003, 1, 0xffff_fffe]),
];

// The bytes are these words, of which the second has the opcode.
fn written_as(rt: &impl Abort, bytes: &[u8], words: &[u32]) -> u16 {
    equal(rt, bytes.len(), 4 * words.len());
    for (place, word) in bytes.chunks_exact(4).zip(words) {
        equal(rt, place, word.to_le_bytes().as_slice());
    }
    match words {
        [_, second, ..] => (second % 65536) as u16,
        _ => 0,
    }
}

// The bytes of the request, and how many they are, where they are as many as it is long, and at most 64.
fn request_bytes(request: &Request) -> Option<([u8; 64], usize)> {
    let size = request_len(request);
    if size > 64 {
        return None;
    }
    let mut out = [0; 64];
    if write_request(7, request, &mut out) != size {
        return None;
    }
    Some((out, size))
}

// The bytes of the event, and how many they are, where they are as many as it is long, and at most 64.
fn event_bytes(event: &Event) -> Option<([u8; 64], usize)> {
    let size = event_len(event);
    if size > 64 {
        return None;
    }
    let mut out = [0; 64];
    if write_event(7, event, &mut out) != size {
        return None;
    }
    Some((out, size))
}

#[test]
fn each_request_has_its_words(rt: HostRuntime) -> Result<(), Fail> {
    for (interface, request, words) in &REQUESTS {
        let (out, size) = request_bytes(request).expect(&rt, "request of at most 64 bytes");
        assert!(rt; 8 <= size && size <= 64);
        let opcode = written_as(&rt, &out[..size], words);
        let raw = Raw {
            id: 7,
            opcode,
            body: &out[8..size],
        };
        let again = read_request(*interface, &raw, &[5])?;
        equal_at(&rt, &opcode, request_bytes(&again), Some((out, size)));
    }
    Ok(())
}

#[test]
fn each_event_has_its_words(rt: HostRuntime) -> Result<(), Fail> {
    for (interface, event, words) in &EVENTS {
        let (out, size) = event_bytes(event).expect(&rt, "event of at most 64 bytes");
        assert!(rt; 8 <= size && size <= 64);
        let opcode = written_as(&rt, &out[..size], words);
        let raw = Raw {
            id: 7,
            opcode,
            body: &out[8..size],
        };
        let again = read_event(*interface, &raw, &[5])?;
        equal_at(&rt, &opcode, event_bytes(&again), Some((out, size)));
    }
    Ok(())
}
