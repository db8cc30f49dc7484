//! Explains what it watches, as long as there is memory for it.
ghost use Rattle.std.specs.Prelude.{◌≡◌, ◌++◌, ℕ, List, [], length, false, true, OnOk, OnErr};
ghost use Rattle.std.specs.Prelude.{string_bytes};
ghost use Rattle.relay_model.specs.declared.act.Act.{Act};
ghost use Rattle.relay_model.specs.Idle.{history};
ghost use Rattle.relay_core.specs.Stands.{StandsFor};
ghost use Rattle.relay_reasons.specs.Seat.{seat};
ghost use Rattle.broker_model.specs.declared.journal.Entry.{Entry};
ghost use Rattle.broker_model.specs.Resolve.{resolve};
ghost use Rattle.broker_core.specs.Reached.{Reached};
ghost use Rattle.broker_core.specs.Watched.{watched_since};
ghost use Rattle.lines_explained.specs.Explained.{closed, blank, line_text, opened, IsEither};
ghost use Rattle.lines_explained.specs.Explained.{begun_of, MayExplain};
ghost use Rattle.lines_explained.specs.Journals.{at_rest, lines_since};
ghost use Rattle.lines_explained.specs.declared.explainer.Lines.{Lines};

use crate::open::{
    Open, add_end, begin_entry, is_nobody, opening_of, passed_since, peers_after, put_since,
};
use broker_core::{Entry, Watch};
use relay_core::Relay;
use relay_model::{Act, Mods};
use relay_reasons::{Seat, seat_now};
use std::alloc::Global;
use std::marker::Model;
use wio_core::NoMemory;

/// Which entries have a line.
#[derive(Clone, Copy, Debug, PartialEq, Eq)]
pub enum Lines {
    /// Each.
    All,
    /// Those of batches that reached nobody.
    BadOnly,
}

/// Explains the entries of a journal that it watches, a line each: what the entry is, and what came
/// of it. A line is finished when the next entry comes, or by `close`.
///
/// In contracts it is an `Explaining`. It is short from the line on for which it found no memory:
/// its text ends before that line, and stays.
#[derive(Drop)]
pub struct Explainer {
    lines: Lines,
    text: String,
    // The line of the newest entry, as far as it is written.
    line: String,
    newest: Option<Open>,
    // How many peers joined, modulo 2^32.
    peers: u32,
    is_short: bool,
}

impl Model for Explainer {
    ghost use Rattle.std.specs.Prelude.{string_bytes};
    ghost use Rattle.lines_explained.specs.Explained.{Explaining, begun_of};

    ghost Value = { Explaining };

    ghost view = { λ x. record {
      lines = x.lines;
      text = string_bytes x.text;
      newest = begun_of (string_bytes x.line) x.newest;
      peers = x.peers;
      is_short = x.is_short;
    } };
}

// A line of the newest entry goes behind the text, if it is wanted.
fn add_line(
    text: &mut String,
    line: &mut String,
    lines: Lines,
    newest: Option<Open>,
    after: Seat,
) -> Result<(), NoMemory>
    ensures ok { OnOk result (string_bytes text.new ≡ string_bytes text.old ++
        line_text lines after (begun_of (string_bytes line.old) newest)) }
    ensures err { OnErr result (string_bytes text.new ≡ string_bytes text.old) }
{
    let Some(newest) = newest else {
        return Ok(());
    };
    if lines == Lines::BadOnly && !is_nobody(newest.fate, newest.was_put) {
        return Ok(());
    }
    add_end(line, newest, after)?;
    text.push_str(line.as_str())?;
    Ok(())
}

impl Explainer {
    /// Nothing is explained yet. Takes no memory.
    pub fn new(alloc: Global, lines: Lines) -> Explainer
        ensures { result ≡ blank lines }
    {
        Explainer {
            lines,
            text: String::new(alloc),
            line: String::new(alloc),
            newest: None,
            peers: 0,
            is_short: false,
        }
    }

    fn finish(&mut self, after: Seat) -> Result<(), NoMemory>
        ensures ok { OnOk result (self.new ≡ closed after self.old) }
        ensures err { OnErr result (self.new.text ≡ self.old.text) }
    {
        let newest = self.newest;
        self.newest = None;
        add_line(&mut self.text, &mut self.line, self.lines, newest, after)
    }

    // The newest entry's line is finished, unless the explainer is short.
    fn close_line(&mut self, relay: &Relay)
        ensures closed { (log : List Act) → StandsFor relay.now log → self.new.is_short ≡ false →
            self.new ≡ closed (seat (history log)) self.old }
        ensures front { self.new.is_short ≡ true → self.new.text ≡ self.old.text }
        ensures stays { self.old.is_short ≡ true → self.new ≡ self.old }
    {
        if self.is_short {
            return;
        }
        self.is_short = self.finish(seat_now(relay)).is_err();
    }

    /// Finishes the line of the newest entry, whose act the relay has taken; it may be short after it.
    /// Of who was at rest before some entries and watched them, the text is then more by their lines.
    pub fn close(&mut self, relay: &Relay)
        ensures closed { (log : List Act) → StandsFor relay.now log → self.new.is_short ≡ false →
            self.new ≡ closed (seat (history log)) self.old }
        ensures lines { (which : Lines) (capacity : ℕ) (more before : List Entry) (text : List ℕ) →
            Reached MayExplain (at_rest which before text)
            (watched_since capacity (length before) (more ++ before)) self.old →
            StandsFor relay.now (resolve (more ++ before)) → self.new.is_short ≡ false →
            self.new ≡ at_rest which (more ++ before)
            (text ++ lines_since which capacity (length before) (more ++ before)) }
        ensures front { self.new.is_short ≡ true → self.new.text ≡ self.old.text }
        ensures stays { self.old.is_short ≡ true → self.new ≡ self.old }
    {
        self.close_line(relay);
    }

    // The newest entry's line is finished, and that of the next begins.
    fn begin(
        &mut self,
        number: u32,
        entry: &Entry,
        act: &Act,
        relay: &Relay,
    ) -> Result<(), NoMemory>
        ensures ok { (log : List Act) → StandsFor relay.now log →
            OnOk result (self.new ≡ opened number entry.now act.now log
            (closed (seat (history log)) self.old)) }
        ensures err { (log : List Act) → StandsFor relay.now log →
            OnErr result (IsEither self.new.text self.old.text
            (closed (seat (history log)) self.old).text) }
    {
        let seat = seat_now(relay);
        self.finish(seat)?;
        self.peers = peers_after(entry, self.peers);
        begin_entry(&mut self.line, number, self.peers, entry, act, relay)?;
        self.newest = Some(opening_of(relay, act, seat));
        Ok(())
    }

    /// Whether there was no memory for a line.
    pub fn is_short(&self) -> bool
        ensures { result ≡ self.now.is_short }
    {
        self.is_short
    }

    /// The text so far.
    pub fn text(&self) -> &str
        ensures { result.now ≡ self.now.text }
    {
        self.text.as_str()
    }

    /// Begins anew, in the same memory, behind a journal whose lines are finished: so many peers
    /// joined in it.
    pub fn clear(&mut self, lines: Lines, peers: u32)
        ensures { self.new ≡ record (blank lines) { peers = peers } }
    {
        self.lines = lines;
        self.text.clear();
        self.newest = None;
        self.peers = peers;
        self.is_short = false;
    }
}

impl Watch for Explainer {
    ghost may_follow = { MayExplain };

    fn entered(&mut self, number: u32, entry: &Entry, act: &Act, relay: &Relay) {
        if self.is_short {
            return;
        }
        self.is_short = self.begin(number, entry, act, relay).is_err();
    }

    fn placed(&mut self, _number: u32, _peer: u32, _id: u32, _x: i64, _y: i64) {}

    fn passed(&mut self, _number: u32, _time: u32, _key: u32, _state: u32) {
        if self.is_short {
            return;
        }
        self.newest = passed_since(self.newest);
    }

    fn modified(&mut self, _number: u32, _mods: Mods) {}

    fn put(&mut self, _number: u32, _peer: u32, _bytes: &[u8], _tokens: &[(usize, u32)]) {
        if self.is_short {
            return;
        }
        self.newest = put_since(self.newest);
    }
}
