//! The worked examples of the wire.
use crate::equal::{equal, equal_at};
use wl_proto::{
    Event, Interface, Refuse, Request, SURFACE_REQUESTS, Sig, SigTable, read_event, read_request,
    write_event,
};
use wl_wire::Raw;

#[test]
fn events_are_written_as_in_the_examples(rt: HostRuntime) {
    let mut out = [0; 16];
    let event = Event::CommitString { text: Some("a") };
    equal(&rt, write_event(5, &event, &mut out), 16);
    equal(
        &rt,
        out.as_slice(),
        b"\x05\0\0\0\x03\0\x10\0\x02\0\0\0a\0\0\0".as_slice(),
    );
    let mut out = [9; 16];
    equal(
        &rt,
        write_event(5, &Event::TextInputDone { serial: 1 }, &mut out),
        12,
    );
    equal(
        &rt,
        out.as_slice(),
        b"\x05\0\0\0\x05\0\x0c\0\x01\0\0\0\x09\x09\x09\x09".as_slice(),
    );
}

static BODIES: [(&[u8], Result<&str, Refuse>); 5] = [
    (b"\x02\0\0\0a\0\0\xff", Ok("a")),
    (b"\x02\0\0\0ab\0\0", Err(Refuse::Malformed)),
    (b"\x01\0\0\0", Err(Refuse::Malformed)),
    (b"\0\0\0\0", Err(Refuse::Malformed)),
    (b"\x02\0\0\0a\0\0\0\0\0\0\0", Err(Refuse::Malformed)),
];

// The body of a commit_string.
#[test]
fn a_commit_string_is_read_or_malformed(rt: HostRuntime) {
    for (body, want) in &BODIES {
        let raw = Raw {
            id: 5,
            opcode: 0,
            body,
        };
        let read = match read_request(Interface::InputMethod, &raw, &[]) {
            Ok(Request::CommitString { text }) => Ok(text),
            Ok(_) => Err(Refuse::Opcode),
            Err(refuse) => Err(refuse),
        };
        equal_at(&rt, body, read, *want);
    }
}

// The token of a board's keymap, a request, that comes while these tokens wait.
fn board_keymap_token(tokens: &[u32]) -> Result<u32, Refuse> {
    let raw = Raw {
        id: 5,
        opcode: 0,
        body: &[1, 0, 0, 0, 2, 0, 0, 0],
    };
    match read_request(Interface::VirtualKeyboard, &raw, tokens)? {
        Request::Keymap { token, .. } => Ok(token),
        _ => Err(Refuse::Opcode),
    }
}

// The token of a keymap event that comes with these tokens.
fn keymap_token(tokens: &[u32]) -> Result<u32, Refuse> {
    let raw = Raw {
        id: 5,
        opcode: 0,
        body: &[1, 0, 0, 0, 2, 0, 0, 0],
    };
    match read_event(Interface::KeyboardGrab, &raw, tokens)? {
        Event::Keymap { token, .. } => Ok(token),
        _ => Err(Refuse::Opcode),
    }
}

#[test]
fn a_descriptor_is_the_first_token(rt: HostRuntime) {
    equal(&rt, keymap_token(&[8, 9]), Ok(8));
    equal(&rt, keymap_token(&[]), Err(Refuse::Malformed));
    equal(&rt, board_keymap_token(&[8, 9]), Ok(8));
    equal(&rt, board_keymap_token(&[]), Err(Refuse::Malformed));
}

static NO_ROWS: [(Interface, u16); 5] = [
    (Interface::Surface, 1),
    (Interface::Callback, 0),
    (Interface::TextInput, 8),
    (Interface::VirtualKeyboardManager, 1),
    (Interface::VirtualKeyboard, 4),
];

#[test]
fn an_opcode_without_a_row_is_refused_and_opcodes_rise(rt: HostRuntime) {
    for (interface, opcode) in &NO_ROWS {
        let raw = Raw {
            id: 5,
            opcode: *opcode,
            body: &[],
        };
        let read = read_request(*interface, &raw, &[]);
        assert!(rt; matches!(&read, Err(Refuse::Opcode)), "at {opcode}");
    }
    assert!(rt; SURFACE_REQUESTS.opcodes_rise());
    let row = Sig {
        opcode: 3,
        kinds: [None; 5],
    };
    assert!(rt; !SigTable { rows: [row, row] }.opcodes_rise());
    equal(&rt, Interface::InputMethod.name(), "zwp_input_method_v2");
}
