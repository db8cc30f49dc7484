//! What an act is: how a line begins.
ghost use Rattle.std.specs.Prelude.{◌≡◌, ◌++◌, Some, None, OnOk, string_bytes};
ghost use Rattle.lines_explained.specs.Deed.{source_words, end_words, rule_of, message_words};
ghost use Rattle.lines_explained.specs.Deed.{argument_rule, rule_by, rule_for, refusal_words};
ghost use Rattle.lines_explained.specs.Deed.{idle_words, peer_words};
ghost use Rattle.lines_explained.specs.Deed.{object_words, shell_words, key_words, field_words, method_words};
ghost use Rattle.lines_explained.specs.Deed.{deed, begun};
ghost use Rattle.lines_explained.specs.Phrase.{phrase};

use crate::phrase::add_phrase;
use itoa::Buffer;
use relay_model::{Act, EndCause, Fault};
use wio_core::NoMemory;

/// Whose act it is. Peers are numbered from 1 in the order in which they join.
#[derive(Clone, Copy, Debug, PartialEq, Eq)]
pub enum Source {
    /// The peer with the number.
    Peer(u32),
    /// The peer with the number, by a message to the object with the id, with the opcode.
    Object {
        peer: u32,
        id: u32,
        opcode: u16,
    },
    /// The same by a header alone, whose size, in bytes, isn't one of a message.
    Head {
        peer: u32,
        id: u32,
        opcode: u16,
        size: u16,
    },
    /// The shell.
    Shell,
}

fn add_words(line: &mut String, words: &str) -> Result<(), NoMemory>
    ensures { OnOk result (string_bytes line.new ≡ string_bytes line.old ++ words.now) }
{
    line.push_str(words)?;
    Ok(())
}

// Words, a number after them, and more words.
fn add_about(line: &mut String, who: &str, number: u32, what: &str) -> Result<(), NoMemory>
    ensures { OnOk result (string_bytes line.new
        ≡ string_bytes line.old ++ phrase who.now (Some number) what.now None) }
{
    add_phrase(line, who, Some(number), what, None)
}

// A key, and whether it is pressed: any state but 1 is a release.
fn add_key(line: &mut String, key: u32, state: u32) -> Result<(), NoMemory>
    ensures { OnOk result (string_bytes line.new ≡ string_bytes line.old ++ key_words key state) }
{
    let what = if state == 1 { " pressed" } else { " released" };
    add_about(line, "key", key, what)
}

fn add_source(line: &mut String, source: Source) -> Result<(), NoMemory>
    ensures { OnOk result (string_bytes line.new ≡ string_bytes line.old ++ source_words source) }
{
    match source {
        Source::Peer(peer) => add_about(line, " peer", peer, ": "),
        Source::Object { peer, id, .. } | Source::Head { peer, id, .. } => {
            add_phrase(line, " peer", Some(peer), " to object", Some(id))?;
            add_words(line, ": ")
        }
        Source::Shell => add_words(line, " shell: "),
    }
}

fn add_end(line: &mut String, cause: EndCause) -> Result<(), NoMemory>
    ensures { OnOk result (string_bytes line.new ≡ string_bytes line.old ++ end_words cause) }
{
    match cause {
        EndCause::Gone => add_words(line, "ends, its link ended"),
        EndCause::Bad => add_words(line, "ends, a message of it was refused"),
        EndCause::Full => add_words(line, "ends, a group did not fit its store"),
    }
}

// The rule that a refused message breaks.
fn rule_of(fault: Fault) -> &'static str
    ensures { result.now ≡ rule_of fault }
{
    match fault {
        Fault::Size => ": a message has 8 to 4096 bytes, a multiple of 4",
        Fault::Object => ": the id names no live object",
        Fault::Opcode => ": the object's interface has no such request",
        Fault::Malformed => ": its bytes spell no arguments of it, or a key's state above 1",
        Fault::Argument => ": an object argument is 0, not live or of another interface",
        Fault::NewId => ": the new id is 0, above 4278190079 or live",
        Fault::TooMany => ": 256 objects of the peer are live",
        Fault::Bind => ": no global with this name, interface and version is offered",
        Fault::Capability => ": the seat has no pointer, keyboard or touch",
        Fault::Role => ": the surface has a popup",
        Fault::NoKeymap => ": the board has had no keymap",
    }
}

// An object argument, by the opcode of its request.
fn argument_rule(opcode: u16) -> &'static str
    ensures { result.now ≡ argument_rule opcode }
{
    if opcode == 4 {
        ": its surface is 0, not live or of another interface"
    } else {
        ": its seat is 0, not live or of another interface"
    }
}

fn rule_by(opcode: u16, fault: Fault) -> &'static str
    ensures { result.now ≡ rule_by opcode fault }
{
    match fault {
        Fault::Argument => argument_rule(opcode),
        _ => rule_of(fault),
    }
}

fn rule_for(source: Source, fault: Fault) -> &'static str
    ensures { result.now ≡ rule_for source fault }
{
    match source {
        Source::Object { opcode, .. } => rule_by(opcode, fault),
        Source::Head { .. } => rule_of(fault),
        Source::Peer(_) => rule_of(fault),
        Source::Shell => rule_of(fault),
    }
}

// Which message it was, as far as its header tells.
fn add_message(line: &mut String, source: Source) -> Result<(), NoMemory>
    ensures { OnOk result (string_bytes line.new ≡ string_bytes line.old ++ message_words source) }
{
    match source {
        Source::Object { opcode, .. } => {
            add_about(line, "message", opcode as u32, " is refused: ")
        }
        Source::Head { opcode, size, .. } => {
            add_phrase(
                line,
                "message",
                Some(opcode as u32),
                " of size",
                Some(size as u32),
            )?;
            add_words(line, " is refused: ")
        }
        Source::Peer(_) => add_words(line, "a message is refused: "),
        Source::Shell => add_words(line, "a message is refused: "),
    }
}

// Which message is refused and why, in the words that its sender is told, and the rule.
fn add_refusal(line: &mut String, source: Source, fault: Fault) -> Result<(), NoMemory>
    ensures { OnOk result (string_bytes line.new
        ≡ string_bytes line.old ++ refusal_words source fault) }
{
    add_message(line, source)?;
    add_words(line, fault.text())?;
    add_words(line, rule_for(source, fault))
}

// What asks nothing of the seat.
fn add_idle(line: &mut String, source: Source) -> Result<(), NoMemory>
    ensures { OnOk result (string_bytes line.new ≡ string_bytes line.old ++ idle_words source) }
{
    match source {
        Source::Peer(_) => add_words(line, "descriptors come"),
        Source::Object { opcode, .. } => {
            add_about(line, "message", opcode as u32, " asks nothing")
        }
        Source::Head { .. } => add_words(line, "nothing"),
        Source::Shell => add_words(line, "nothing"),
    }
}

fn add_of_peer(line: &mut String, source: Source, act: &Act) -> Result<(), NoMemory>
    ensures { OnOk result (string_bytes line.new
        ≡ string_bytes line.old ++ peer_words source act.now) }
{
    match act {
        Act::Peer => add_words(line, "joins"),
        Act::Gone { cause, .. } => add_end(line, *cause),
        Act::Registry { .. } => add_words(line, "get_registry"),
        Act::Sync { .. } => add_words(line, "sync"),
        Act::Seat { .. } => add_words(line, "binds the seat"),
        Act::Thing { .. } => add_words(line, "binds a global"),
        Act::Bad { fault, .. } => add_refusal(line, source, *fault),
        Act::Took { bytes, .. } => add_about(line, "takes", *bytes, " bytes"),
        Act::Idle => add_idle(line, source),
        _ => Ok(()),
    }
}

// An object is named by the number of the act that made it.
fn add_of_object(line: &mut String, number: u32, act: &Act) -> Result<(), NoMemory>
    ensures { OnOk result (string_bytes line.new
        ≡ string_bytes line.old ++ object_words number act.now) }
{
    match act {
        Act::Surface { .. } => add_about(line, "makes surface", number, ""),
        Act::Field { .. } => add_about(line, "makes field", number, ""),
        Act::Method { .. } => add_about(line, "makes method", number, ""),
        Act::Popup { .. } => add_about(line, "makes popup", number, ""),
        Act::Grab { .. } => add_about(line, "makes grab", number, ""),
        Act::VBoard { .. } => add_about(line, "makes board", number, ""),
        Act::Drop { label } => add_about(line, "object", *label, " is destroyed"),
        _ => Ok(()),
    }
}

fn add_of_shell(line: &mut String, act: &Act) -> Result<(), NoMemory>
    ensures { OnOk result (string_bytes line.new ≡ string_bytes line.old ++ shell_words act.now) }
{
    match act {
        Act::Focus { surface } => add_about(line, "focus on surface", *surface, ""),
        Act::Unfocus => add_words(line, "focus on nothing"),
        Act::Area { surface, .. } => add_about(line, "area of surface", *surface, ""),
        Act::Screen { .. } => add_words(line, "screen"),
        Act::Key { key, state, .. } => add_key(line, *key, *state),
        Act::Mods(_) => add_words(line, "modifiers"),
        Act::Keymap(_) => add_words(line, "keymap"),
        Act::Repeat(_) => add_words(line, "repeat of keys"),
        _ => Ok(()),
    }
}

fn add_of_field(line: &mut String, act: &Act) -> Result<(), NoMemory>
    ensures { OnOk result (string_bytes line.new ≡ string_bytes line.old ++ field_words act.now) }
{
    match act {
        Act::Enable { field } => add_about(line, "field", *field, " enable"),
        Act::Disable { field } => add_about(line, "field", *field, " disable"),
        Act::Surround { field, .. } => add_about(line, "field", *field, " set_surrounding_text"),
        Act::Cause { field, .. } => add_about(line, "field", *field, " set_text_change_cause"),
        Act::Content { field, .. } => add_about(line, "field", *field, " set_content_type"),
        Act::Cursor { field, .. } => add_about(line, "field", *field, " set_cursor_rectangle"),
        Act::Commit { field } => add_about(line, "field", *field, " commit"),
        _ => Ok(()),
    }
}

fn add_of_method(line: &mut String, act: &Act) -> Result<(), NoMemory>
    ensures { OnOk result (string_bytes line.new ≡ string_bytes line.old ++ method_words act.now) }
{
    match act {
        Act::MString { method, .. } => add_about(line, "method", *method, " commit_string"),
        Act::MPreedit { method, .. } => add_about(line, "method", *method, " set_preedit_string"),
        Act::MDelete { method, .. } => {
            add_about(line, "method", *method, " delete_surrounding_text")
        }
        Act::MCommit { method, serial } => {
            add_phrase(line, "method", Some(*method), " commit", Some(*serial))
        }
        Act::VKeymap { board, .. } => add_about(line, "board", *board, " keymap"),
        Act::VKey {
            board,
            key,
            state,
            ..
        } => {
            add_about(line, "board", *board, " ")?;
            add_key(line, *key, *state)
        }
        Act::VMods { board, .. } => add_about(line, "board", *board, " modifiers"),
        _ => Ok(()),
    }
}

// What the act with the number is.
fn add_deed(line: &mut String, number: u32, source: Source, act: &Act) -> Result<(), NoMemory>
    ensures { OnOk result (string_bytes line.new
        ≡ string_bytes line.old ++ deed number source act.now) }
{
    add_of_peer(line, source, act)?;
    add_of_object(line, number, act)?;
    add_of_shell(line, act)?;
    add_of_field(line, act)?;
    add_of_method(line, act)
}

/// Begins a line over what it was: the act's number, whose it is, and what it is. An object is named
/// by the number of the act that made it.
pub fn begin_line(line: &mut String, number: u32, source: Source, act: &Act) -> Result<(), NoMemory>
    ensures { OnOk result (string_bytes line.new ≡ begun number source act.now) }
{
    line.clear();
    line.push_str(Buffer::new().format(number))?;
    add_source(line, source)?;
    add_deed(line, number, source, act)
}
