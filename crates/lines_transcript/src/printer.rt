//! Prints what it watches, as long as there is memory for it.
ghost use Rattle.std.specs.Prelude.{◌≡◌, ◌++◌, [], ℕ, List, true, false, IfSome, IfNone, IfOk, OnOk};
ghost use Rattle.std.specs.Prelude.{OnErr, string_bytes};
ghost use Rattle.broker_model.specs.declared.journal.Entry.{Entry};
ghost use Rattle.broker_core.specs.Reached.{Reached};
ghost use Rattle.broker_core.specs.Watched.{watched_since};
ghost use Rattle.lines_transcript.specs.Transcribed.{with_feed, head_text, text_since};
ghost use Rattle.lines_transcript.specs.Printed.{MayPrint, blank, closed, IsFront};

use crate::{write_ended, write_out, write_pass, write_placed, write_took, write_vmods};
use broker_core::{Entry, Relay, Watch};
use relay_model::{Act, Mods};
use std::alloc::Global;
use std::marker::Model;
use wio_core::NoMemory;

// The line, if it was written, goes behind the text with its line feed, or nothing does.
fn add_line(text: &mut String, line: &str, written: Result<(), NoMemory>) -> Result<(), NoMemory>
    ensures ok { (bytes : List ℕ) → OnOk written (line.now ≡ bytes) →
        OnOk result (string_bytes text.new ≡ string_bytes text.old ++ with_feed bytes) }
    ensures err { OnErr result (string_bytes text.new ≡ string_bytes text.old) }
{
    written?;
    text.reserve(line.len() + 1)?;
    text.push_str(line)?;
    text.push('\n')?;
    Ok(())
}

// Who ended, or what was taken, goes behind the text.
fn add_head(
    text: &mut String,
    line: &mut String,
    number: u32,
    entry: &Entry,
) -> Result<(), NoMemory>
    ensures { OnOk result (string_bytes text.new ≡ string_bytes text.old ++ head_text number
        entry.now) }
{
    match entry {
        Entry::End { peer, cause } => {
            let written = write_ended(number, *peer, *cause, line);
            add_line(text, line.as_str(), written)
        }
        Entry::Took { peer, bytes } => {
            let written = write_took(number, *peer, *bytes, line);
            add_line(text, line.as_str(), written)
        }
        _ => Ok(()),
    }
}

// What the shell was told goes behind the text, and none is left.
#[inline(never)]
fn push_behind(text: &mut String, shell: &mut String) -> Result<(), NoMemory>
    ensures text { OnOk result (string_bytes text.new ≡ string_bytes text.old ++ string_bytes
        shell.old) }
    ensures shell { OnOk result (string_bytes shell.new ≡ []) }
    ensures err { OnErr result (string_bytes text.new ≡ string_bytes text.old) }
{
    text.push_str(shell.as_str())?;
    shell.clear();
    Ok(())
}

// The same: most entries tell the shell nothing.
#[inline(always)]
fn move_behind(text: &mut String, shell: &mut String) -> Result<(), NoMemory>
    ensures text { OnOk result (string_bytes text.new ≡ string_bytes text.old ++ string_bytes
        shell.old) }
    ensures shell { OnOk result (string_bytes shell.new ≡ []) }
    ensures err { OnErr result (string_bytes text.new ≡ string_bytes text.old) }
{
    if shell.is_empty() {
        return Ok(());
    }
    push_behind(text, shell)
}

// What the shell was told of the entry before, and who ended or what was taken, go behind the text.
fn begin_entry(
    text: &mut String,
    shell: &mut String,
    line: &mut String,
    number: u32,
    entry: &Entry,
) -> Result<(), NoMemory>
    ensures text { OnOk result (string_bytes text.new ≡ string_bytes text.old ++
        (string_bytes shell.old ++ head_text number entry.now)) }
    ensures shell { OnOk result (string_bytes shell.new ≡ []) }
    ensures err { OnErr result (string_bytes text.new ≡ string_bytes text.old) }
{
    add_head(shell, line, number, entry)?;
    move_behind(text, shell)
}

/// Prints the transcript of a journal that it watches: for each entry who ended or what was taken,
/// the groups that were put, and what the shell is told.
///
/// In contracts it is a `Printing`: the text, what the shell was told of the newest entry, and
/// whether it is short. It is short from the line on for which it found no memory: its text ends
/// before that line, and stays.
#[derive(Drop)]
pub struct Printer {
    alloc: Global,
    text: String,
    // What the shell was told of the newest entry, whose lines stand behind those of its groups.
    shell: String,
    // Where each line is written before it goes behind one of these.
    line: String,
    is_short: bool,
}

impl Model for Printer {
    ghost use Rattle.std.specs.Prelude.{string_bytes};
    ghost use Rattle.lines_transcript.specs.Printed.{Printing};

    ghost Value = { Printing };

    ghost view = { λ p. record {
      text = string_bytes p.text;
      shell = string_bytes p.shell;
      is_short = p.is_short;
    } };
}

impl Printer {
    /// Nothing is printed yet. Takes no memory.
    pub fn new(alloc: Global) -> Printer
        ensures { result ≡ blank }
    {
        Printer {
            alloc,
            text: String::new(alloc),
            shell: String::new(alloc),
            line: String::new(alloc),
            is_short: false,
        }
    }

    /// What the shell was told of the newest entry goes behind its groups, so that the text has
    /// whole entries alone; a printer may be short after it. Of who was blank before the entries
    /// behind the first k, the text is then that of these entries, or if it is short a front of it.
    pub fn close(&mut self)
        ensures closed { self.new.is_short ≡ false → self.new ≡ closed self.old }
        ensures text { (capacity k : ℕ) (journal : List Entry) →
            Reached MayPrint blank (watched_since capacity k journal) self.old →
            self.new.is_short ≡ false → self.new.text ≡ text_since capacity k journal }
        ensures front { (capacity k : ℕ) (journal : List Entry) →
            Reached MayPrint blank (watched_since capacity k journal) self.old →
            IsFront self.new.text (text_since capacity k journal) }
        ensures stays { self.new.is_short ≡ true → self.new.text ≡ self.old.text }
    {
        if self.is_short {
            return;
        }
        self.is_short = move_behind(&mut self.text, &mut self.shell).is_err();
    }

    /// Whether there was no memory for a line.
    pub fn is_short(&self) -> bool
        ensures { result ≡ self.now.is_short }
    {
        self.is_short
    }

    /// The text so far.
    pub fn text(&self) -> &str
        ensures { result.now ≡ self.now.text }
    {
        self.text.as_str()
    }

    /// Begins anew, in the same memory.
    pub fn clear(&mut self)
        ensures { self.new ≡ blank }
    {
        self.text.clear();
        self.shell.clear();
        self.is_short = false;
    }

    /// The text with what the shell was told of the newest entry, none where it is short: of who was
    /// blank before the entries behind the first k, the text of these entries.
    pub fn finish(self) -> Option<String>
        ensures text { (capacity k : ℕ) (journal : List Entry) →
            Reached MayPrint blank (watched_since capacity k journal) self →
            IfSome result (λ text. string_bytes text ≡ text_since capacity k journal) }
    {
        let mut printer = self;
        printer.close();
        if printer.is_short {
            return None;
        }
        let Printer {
            alloc: _,
            text,
            shell: _,
            line: _,
            is_short: _,
        } = printer;
        Some(text)
    }
}

impl Watch for Printer {
    ghost use Rattle.lines_transcript.specs.Printed.{MayPrint};

    ghost may_follow = { MayPrint };

    fn entered(&mut self, number: u32, entry: &Entry, _act: &Act, _relay: &Relay) {
        if self.is_short {
            return;
        }
        let (text, shell) = (&mut self.text, &mut self.shell);
        self.is_short = begin_entry(text, shell, &mut self.line, number, entry).is_err();
    }

    fn placed(&mut self, number: u32, peer: u32, id: u32, x: i64, y: i64) {
        if self.is_short {
            return;
        }
        let written = write_placed(number, peer, id, x, y, &mut self.line);
        self.is_short = add_line(&mut self.shell, self.line.as_str(), written).is_err();
    }

    fn passed(&mut self, number: u32, time: u32, key: u32, state: u32) {
        if self.is_short {
            return;
        }
        let written = write_pass(number, time, key, state, &mut self.line);
        self.is_short = add_line(&mut self.shell, self.line.as_str(), written).is_err();
    }

    fn modified(&mut self, number: u32, mods: Mods) {
        if self.is_short {
            return;
        }
        let written = write_vmods(number, mods, &mut self.line);
        self.is_short = add_line(&mut self.shell, self.line.as_str(), written).is_err();
    }

    fn put(&mut self, number: u32, peer: u32, bytes: &[u8], tokens: &[(usize, u32)]) {
        if self.is_short {
            return;
        }
        let written = write_out(self.alloc, number, peer, bytes, tokens, &mut self.line);
        self.is_short = add_line(&mut self.text, self.line.as_str(), written).is_err();
    }
}
