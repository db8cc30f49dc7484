//! The line that says what a peer is told.
ghost use Rattle.std.specs.Prelude.{◌≡◌, ◌≤◌, [], ◌∷◌, ◌++◌, map, codes, IfOk, IfSome, OnOk};
ghost use Rattle.std.specs.Prelude.{IsTrue};
ghost use Rattle.std.specs.Prelude.{length, string_bytes, take};
ghost use Rattle.std.specs.List.{list_all};
ghost use Rattle.std.specs.Char.{is_ascii};
ghost use Rattle.std.specs.Fmt.{decimal, signed_decimal};
ghost use Rattle.wl_proto.specs.Names.{name_of};
ghost use Rattle.relay_model.specs.Faults.{code_of, text_of};
ghost use Rattle.session_text.specs.Words.{hex_word};
ghost use Rattle.lines_transcript.specs.Told.{said_words, spaced, told_line};
ghost use Rattle.wl_wire.specs.Texts.{has_no_zero};

use crate::printing::{add_word, begin, finished, hex_of};
use crate::short_line::write_said;
use itoa::Buffer;
use relay_model::{Fault, Interface, Label, Said, Told};
use std::alloc::Global;
use wio_core::NoMemory;
use wl_wire::Text;

// Each function below adds words to a line, each after a space.

// An event's name, and numbers without a sign.
pub(crate) fn add_numbers(line: &mut String, name: &str, numbers: &[u32]) -> Result<(), NoMemory>
    requires line_clean { IsTrue (has_no_zero (string_bytes line.old)) }
    requires name_clean { IsTrue (has_no_zero name.now) }
    ensures added { OnOk result (string_bytes line.new
        ≡ string_bytes line.old ++ spaced (name.now ∷ map decimal numbers.now)) }
    ensures clean { OnOk result (IsTrue (has_no_zero (string_bytes line.new))) }
{
    add_word(line, name)?;
    for number in numbers {
        add_word(line, Buffer::new().format(*number))?;
    }
    Ok(())
}

// A word, and numbers with a sign.
fn add_signed(line: &mut String, word: &str, numbers: &[i32]) -> Result<(), NoMemory>
    requires line_clean { IsTrue (has_no_zero (string_bytes line.old)) }
    requires word_clean { IsTrue (has_no_zero word.now) }
    ensures added { OnOk result (string_bytes line.new
        ≡ string_bytes line.old ++ spaced (word.now ∷ map signed_decimal numbers.now)) }
    ensures clean { OnOk result (IsTrue (has_no_zero (string_bytes line.new))) }
{
    add_word(line, word)?;
    for number in numbers {
        add_word(line, Buffer::new().format(*number))?;
    }
    Ok(())
}

// An event's name, a text, and numbers with a sign.
fn add_text(
    alloc: Global,
    line: &mut String,
    name: &str,
    text: &Text,
    numbers: &[i32],
) -> Result<(), NoMemory>
    requires line_clean { IsTrue (has_no_zero (string_bytes line.old)) }
    requires name_clean { IsTrue (has_no_zero name.now) }
    ensures added { OnOk result (string_bytes line.new
        ≡ string_bytes line.old
        ++ spaced (name.now ∷ hex_word text.now ∷ map signed_decimal numbers.now)) }
    ensures clean { OnOk result (IsTrue (has_no_zero (string_bytes line.new))) }
{
    let word = hex_of(alloc, text.as_bytes())?;
    add_word(line, name)?;
    add_signed(line, word.as_str(), numbers)
}

// A surrounding text, with its cursor and anchor.
fn add_around(
    alloc: Global,
    line: &mut String,
    text: &Text,
    cursor: u32,
    anchor: u32,
) -> Result<(), NoMemory>
    requires { IsTrue (has_no_zero (string_bytes line.old)) }
    ensures added { OnOk result (string_bytes line.new
        ≡ string_bytes line.old ++ spaced (codes "surrounding_text"
        ∷ hex_word text.now ∷ decimal cursor ∷ decimal anchor ∷ [])) }
    ensures clean { OnOk result (IsTrue (has_no_zero (string_bytes line.new))) }
{
    let word = hex_of(alloc, text.as_bytes())?;
    add_word(line, "surrounding_text")?;
    add_numbers(line, word.as_str(), &[cursor, anchor])
}

// The place of a popup, whose numbers may be beyond those of 32 bits.
fn add_place(line: &mut String, popup: Label, x: i64, y: i64) -> Result<(), NoMemory>
    requires { IsTrue (has_no_zero (string_bytes line.old)) }
    ensures added { OnOk result (string_bytes line.new
        ≡ string_bytes line.old
        ++ spaced (codes "placed" ∷ decimal popup ∷ signed_decimal x ∷ signed_decimal y ∷ [])) }
    ensures clean { OnOk result (IsTrue (has_no_zero (string_bytes line.new))) }
{
    add_numbers(line, "placed", &[popup])?;
    add_word(line, Buffer::new().format(x))?;
    add_word(line, Buffer::new().format(y))
}

// A global, with its interface's name.
fn add_global(
    line: &mut String,
    name: u32,
    interface: Interface,
    version: u32,
) -> Result<(), NoMemory>
    requires { IsTrue (has_no_zero (string_bytes line.old)) }
    ensures added { OnOk result (string_bytes line.new
        ≡ string_bytes line.old
        ++ spaced (codes "global" ∷ decimal name ∷ name_of interface ∷ decimal version ∷ [])) }
    ensures clean { OnOk result (IsTrue (has_no_zero (string_bytes line.new))) }
{
    add_numbers(line, "global", &[name])?;
    add_word(line, interface.name())?;
    add_word(line, Buffer::new().format(version))
}

// The error of a refused message, with its text.
fn add_error(alloc: Global, line: &mut String, object: Label, fault: Fault) -> Result<(), NoMemory>
    requires { IsTrue (has_no_zero (string_bytes line.old)) }
    ensures added { OnOk result (string_bytes line.new
        ≡ string_bytes line.old ++ spaced (codes "error"
        ∷ decimal object ∷ decimal (code_of fault) ∷ hex_word (text_of fault) ∷ [])) }
    ensures clean { OnOk result (IsTrue (has_no_zero (string_bytes line.new))) }
{
    let text = hex::encode(alloc, fault.text().as_bytes())?;
    add_numbers(line, "error", &[object, fault.code()])?;
    add_word(line, text.as_str())
}

// An event's name in its protocol, and its arguments.
fn add_said(alloc: Global, line: &mut String, event: &Said) -> Result<(), NoMemory>
    requires { IsTrue (has_no_zero (string_bytes line.old)) }
    ensures added { OnOk result (string_bytes line.new
        ≡ string_bytes line.old ++ spaced (said_words event.now)) }
    ensures clean { OnOk result (IsTrue (has_no_zero (string_bytes line.new))) }
{
    match event {
        Said::Enter { surface } => add_numbers(line, "enter", &[*surface]),
        Said::Leave { surface } => add_numbers(line, "leave", &[*surface]),
        Said::Preedit { text, begin, end } => add_text(
            alloc,
            line,
            "preedit_string",
            text,
            &[*begin, *end],
        ),
        Said::CommitString { text } => add_text(alloc, line, "commit_string", text, &[]),
        Said::Delete { before, after } => add_numbers(
            line,
            "delete_surrounding_text",
            &[*before, *after],
        ),
        Said::FieldDone { serial } => add_numbers(line, "done", &[*serial]),
        Said::Activate => add_numbers(line, "activate", &[]),
        Said::Deactivate => add_numbers(line, "deactivate", &[]),
        Said::Surrounding {
            text,
            cursor,
            anchor,
        } => add_around(alloc, line, text, *cursor, *anchor),
        Said::ChangeCause { cause } => add_numbers(line, "text_change_cause", &[*cause]),
        Said::ContentType { hint, purpose } => add_numbers(
            line,
            "content_type",
            &[*hint, *purpose],
        ),
        Said::MethodDone => add_numbers(line, "done", &[]),
        Said::Unavailable => add_numbers(line, "unavailable", &[]),
        Said::PopupRect {
            x,
            y,
            width,
            height,
        } => add_signed(line, "text_input_rectangle", &[*x, *y, *width, *height]),
        Said::Keymap(keymap) => add_numbers(
            line,
            "keymap",
            &[keymap.format, keymap.token, keymap.size],
        ),
        Said::Key {
            serial,
            time,
            key,
            state,
        } => add_numbers(line, "key", &[*serial, *time, *key, *state]),
        Said::Mods { serial, mods } => add_numbers(
            line,
            "modifiers",
            &[
                *serial,
                mods.depressed,
                mods.latched,
                mods.locked,
                mods.group,
            ],
        ),
        Said::Repeat(repeat) => add_signed(line, "repeat_info", &[repeat.rate, repeat.delay]),
        Said::Global {
            name,
            interface,
            version,
        } => add_global(line, *name, *interface, *version),
        Said::CallbackDone { value } => add_numbers(line, "done", &[*value]),
        Said::DeleteId { label } => add_numbers(line, "delete_id", &[*label]),
        Said::Capabilities { value } => add_numbers(line, "capabilities", &[*value]),
        Said::Error { object, fault } => add_error(alloc, line, *object, *fault),
        Said::Pass { time, key, state } => add_numbers(line, "pass", &[*time, *key, *state]),
        Said::VMods(mods) => add_numbers(
            line,
            "vmods",
            &[mods.depressed, mods.latched, mods.locked, mods.group],
        ),
        Said::Placed { popup, x, y } => add_place(line, *popup, *x, *y),
    }
}

// The name of an event that comes often, and how many numbers it has, which stand at the front.
fn numbers_of(event: &Said, numbers: &mut [u32; 5]) -> Option<(&'static str, usize)>
    ensures few { IfSome result (λ found. found.1 ≤ 5) }
    ensures words { IfSome result (λ found. said_words event.now
        ≡ found.0.now ∷ map decimal (take found.1 numbers.new)) }
    ensures short { IfSome result (λ found. length found.0.now ≤ 23) }
    ensures ascii { IfSome result (λ found. IsTrue (list_all is_ascii found.0.now)) }
    ensures clean { IfSome result (λ found. IsTrue (has_no_zero found.0.now)) }
{
    match event {
        Said::Enter { surface } => {
            *numbers = [*surface, 0, 0, 0, 0];
            Some(("enter", 1))
        }
        Said::Leave { surface } => {
            *numbers = [*surface, 0, 0, 0, 0];
            Some(("leave", 1))
        }
        Said::FieldDone { serial } => {
            *numbers = [*serial, 0, 0, 0, 0];
            Some(("done", 1))
        }
        Said::Activate => Some(("activate", 0)),
        Said::Deactivate => Some(("deactivate", 0)),
        Said::ChangeCause { cause } => {
            *numbers = [*cause, 0, 0, 0, 0];
            Some(("text_change_cause", 1))
        }
        Said::ContentType { hint, purpose } => {
            *numbers = [*hint, *purpose, 0, 0, 0];
            Some(("content_type", 2))
        }
        Said::MethodDone => Some(("done", 0)),
        Said::Key {
            serial,
            time,
            key,
            state,
        } => {
            *numbers = [*serial, *time, *key, *state, 0];
            Some(("key", 4))
        }
        Said::Pass { time, key, state } => {
            *numbers = [*time, *key, *state, 0, 0];
            Some(("pass", 3))
        }
        _ => None,
    }
}

// Any event, word by word.
#[inline(never)]
fn write_words(alloc: Global, number: u32, told: &Told, line: &mut String) -> Result<(), NoMemory>
    ensures value { OnOk result (string_bytes line.new ≡ told_line number told.now) }
    ensures clean { OnOk result (IsTrue (has_no_zero (string_bytes line.new))) }
{
    begin(line, number)?;
    add_word(line, Buffer::new().format(told.to))?;
    add_said(alloc, line, &told.event)
}

/// Writes the line of what is told by the act of that number over what `line` was, as `print_told`
/// prints it.
pub fn write_told(
    alloc: Global,
    number: u32,
    told: &Told,
    line: &mut String,
) -> Result<(), NoMemory>
    ensures value { OnOk result (string_bytes line.new ≡ told_line number told.now) }
    ensures clean { OnOk result (IsTrue (has_no_zero (string_bytes line.new))) }
{
    let mut numbers = [0u32; 5];
    match numbers_of(&told.event, &mut numbers) {
        Some((name, count)) => write_said(number, told.to, name, &numbers[..count], line),
        None => write_words(alloc, number, told, line),
    }
}

/// Prints what is told by the act of that number: `N LABEL event arguments`, without a line feed.
/// The event has its name in its protocol, numbers are decimal, objects are their labels, texts are
/// lower-case hex or `-` where they are empty. What the shell is told has label 0.
pub fn print_told(alloc: Global, number: u32, told: &Told) -> Result<Text, NoMemory>
    ensures value { IfOk result (λ line. line ≡ told_line number told.now) }
{
    let mut line = String::new(alloc);
    write_told(alloc, number, told, &mut line)?;
    Ok(finished(line))
}
