//! The lines of a source, lent one at a time.
ghost use Rattle.std.specs.Prelude.{◌≡◌, ◌≢◌, ◌+◌, ◌<◌, ◌≤◌, ◌++◌, ◌∷◌, ℕ, List, [], drop, length};
ghost use Rattle.std.specs.Prelude.{Option, Some, None, IfOk, IfErr, OnOk, OnErr, IfSome, OnSome, IsTrue};
ghost use Rattle.std.specs.Prelude.{◌↔◌};
ghost use Rattle.wio_core.specs.Io.{Rose, StaysQuiet};
ghost use Rattle.wio_core.specs.LineAnswers.{Tells, HasFaultCause};
ghost use Rattle.wio_core.specs.Lines.{LacksFeed, IsOpen, HasLine, TookFrom, Gathers, HasCause};

use crate::line_search::{Front, look};
use crate::window::{SIZE, Window};
use crate::{Failed, NoMemory, Source};
use std::alloc::Global;
use std::marker::Model;
use thiserror::Error;

/// Why no line comes.
#[derive(Clone, Copy, Debug, PartialEq, Eq, Error)]
pub enum LineStop {
    /// The source ended, and every line was given.
    #[error("the source ended")]
    End,
    /// 8,401 bytes stand without a line feed.
    #[error("a line is longer than 8,400 bytes")]
    Long,
    /// The limit's bytes were taken, and no whole line of them is left.
    #[error("the limit of bytes was taken")]
    Limit,
    /// A read failed.
    #[error("a read failed")]
    ReadFault,
}

/// What a reader of lines answers. A line comes without its line feed, and is lent up to the next
/// call.
#[derive(Drop)]
pub enum NextLine<'a> {
    /// The next line, of at most 8,400 bytes.
    Line(&'a [u8]),
    /// The source ended, and every line was given. From then on always.
    End,
    /// 8,401 bytes stand without a line feed. From then on always.
    Long,
    /// The limit's bytes were taken, and no whole line of them is left. From then on always.
    Limit,
    /// A read failed. The reader may not be called again.
    ReadFault,
}

impl LineStop {
    ghost use Rattle.wio_core.specs.LineAnswers.{stop_of};

    /// The answer that gives this reason.
    fn answer<'a>(self) -> NextLine<'a>
        ensures { stop_of result ≡ Some self }
    {
        match self {
            LineStop::End => NextLine::End,
            LineStop::Long => NextLine::Long,
            LineStop::Limit => NextLine::Limit,
            LineStop::ReadFault => NextLine::ReadFault,
        }
    }
}

/// How many bytes the next read may take.
fn most_of(room: Option<u64>) -> usize
    ensures none { result ≡ 0 → room ≡ Some 0 }
    ensures within { IfSome room (λ n. result ≤ n) }
{
    match room {
        Some(n) => n.min(SIZE as u64) as usize,
        None => SIZE,
    }
}

/// Reads once for the beginning of a line, or says why not.
fn read_more<S: Source>(
    window: &mut Window,
    room: &mut Option<u64>,
    source: &mut S,
) -> Result<(), LineStop>
    requires { IsOpen window.old }
    ensures took { (read : List ℕ)
        × TookFrom (S.given source.old) (S.given source.new)
        (S.left source.old) (S.left source.new) read
        × Gathers window.old window.new room.old room.new read }
    ensures more { OnOk result (length window.old < length window.new) }
    ensures near { length window.new ≤ 16384 }
    ensures stop { IfErr result (λ why. HasCause why window.new room.new (S.left source.new)) }

    ensures given_quiet { StaysQuiet (S.given source.old) (S.given source.new) }
    ensures left_quiet { StaysQuiet (S.left source.old) (S.left source.new) }
    ensures never_falls { S.fault_count source.old ≤ S.fault_count source.new }
    ensures cause { result ≡ Err LineStop.ReadFault
        → Rose (S.fault_count source.old) (S.fault_count source.new) }
    ensures no_fault { result ≢ Err LineStop.ReadFault
        → S.fault_count source.new ≡ S.fault_count source.old }
{
    let most = most_of(*room);
    if most == 0 {
        return Err(LineStop::Limit);
    }
    match window.read(source, most) {
        Ok(0) => Err(LineStop::End),
        Ok(n) => {
            *room = room.map(|left| left - n as u64);
            Ok(())
        }
        Err(Failed) => Err(LineStop::ReadFault),
    }
}

/// Reads while no whole line is held, and says how long the line at the front is, or why none
/// comes.
fn find_line<S: Source>(
    window: &mut Window,
    room: &mut Option<u64>,
    source: &mut S,
) -> Result<usize, LineStop>
    ensures took { (read : List ℕ)
        × TookFrom (S.given source.old) (S.given source.new)
        (S.left source.old) (S.left source.new) read
        × Gathers window.old window.new room.old room.new read }
    ensures line { IfOk result (λ n. HasLine window.new n) }
    ensures stop { IfErr result (λ why. HasCause why window.new room.new (S.left source.new)) }
    ensures near { length window.new ≤ 16384 }
    ensures waits { ¬ IsOpen window.old → source.new ≡ source.old }

    ensures given_quiet { StaysQuiet (S.given source.old) (S.given source.new) }
    ensures left_quiet { StaysQuiet (S.left source.old) (S.left source.new) }
    ensures never_falls { S.fault_count source.old ≤ S.fault_count source.new }
    ensures cause { result ≡ Err LineStop.ReadFault
        → Rose (S.fault_count source.old) (S.fault_count source.new) }
    ensures no_fault { result ≢ Err LineStop.ReadFault
        → S.fault_count source.new ≡ S.fault_count source.old }
{
    let mut seen = 0;
    'reading: loop {
        match look(window.held(), seen) {
            Front::Line(n) => return Ok(n),
            Front::Long => return Err(LineStop::Long),
            Front::Open => seen = window.held().len(),
        }
        read_more(window, room, source)?;
    }
}

/// The same where it may be known how long the line at the front is: then no byte is looked at.
fn front_line<S: Source>(
    known: Option<usize>,
    window: &mut Window,
    room: &mut Option<u64>,
    source: &mut S,
) -> Result<usize, LineStop>
    requires line { IfSome known (λ n. HasLine window.old n) }
    ensures took { (read : List ℕ)
        × TookFrom (S.given source.old) (S.given source.new)
        (S.left source.old) (S.left source.new) read
        × Gathers window.old window.new room.old room.new read }
    ensures line { IfOk result (λ n. HasLine window.new n) }
    ensures stop { IfErr result (λ why. HasCause why window.new room.new (S.left source.new)) }
    ensures near { length window.new ≤ 16384 }
    ensures waits { ¬ IsOpen window.old → source.new ≡ source.old }

    ensures given_quiet { StaysQuiet (S.given source.old) (S.given source.new) }
    ensures left_quiet { StaysQuiet (S.left source.old) (S.left source.new) }
    ensures never_falls { S.fault_count source.old ≤ S.fault_count source.new }
    ensures cause { result ≡ Err LineStop.ReadFault
        → Rose (S.fault_count source.old) (S.fault_count source.new) }
    ensures no_fault { result ≢ Err LineStop.ReadFault
        → S.fault_count source.new ≡ S.fault_count source.old }
{
    match known {
        Some(n) => {
            let _ = window.held();
            Ok(n)
        }
        None => find_line(window, room, source),
    }
}

/// How long the line at the front of the bytes is, if they have a whole one.
fn whole_line(bytes: &[u8]) -> Option<usize>
    ensures { IfSome result (λ n. HasLine bytes.now n) }
{
    match look(bytes, 0) {
        Front::Line(n) => Some(n),
        Front::Open | Front::Long => None,
    }
}

/// Lets go of the bytes that were lent, and says how long the line behind them is, or why none comes.
/// The line that comes and its line feed are lent then.
#[inline(always)]
fn turn<S: Source>(
    window: &mut Window,
    lent: &mut usize,
    known: &mut Option<usize>,
    room: &mut Option<u64>,
    source: &mut S,
) -> Result<usize, LineStop>
    requires lent { lent.old ≤ length window.old }
    requires line { IfSome known.old (λ n. HasLine (drop lent.old window.old) n) }
    ensures took { (read : List ℕ)
        × TookFrom (S.given source.old) (S.given source.new)
        (S.left source.old) (S.left source.new) read
        × Gathers (drop lent.old window.old) window.new room.old room.new read }
    ensures line { IfOk result (λ n. HasLine window.new n) }
    ensures lent { IfOk result (λ n. lent.new ≡ n + 1) }
    ensures known { IfSome known.new (λ n. HasLine (drop lent.new window.new) n) }
    ensures stop { IfErr result (λ why. HasCause why window.new room.new (S.left source.new)) }
    ensures none_lent { OnErr result (lent.new ≡ 0) }
    ensures none_known { OnErr result (known.new ≡ None) }
    ensures near { length window.new ≤ 16384 }
    ensures waits { ¬ IsOpen (drop lent.old window.old) → source.new ≡ source.old }

    ensures given_quiet { StaysQuiet (S.given source.old) (S.given source.new) }
    ensures left_quiet { StaysQuiet (S.left source.old) (S.left source.new) }
    ensures never_falls { S.fault_count source.old ≤ S.fault_count source.new }
    ensures cause { result ≡ Err LineStop.ReadFault
        → Rose (S.fault_count source.old) (S.fault_count source.new) }
    ensures no_fault { result ≢ Err LineStop.ReadFault
        → S.fault_count source.new ≡ S.fault_count source.old }
{
    window.consume(*lent);
    *lent = 0;
    let n = front_line(known.take(), window, room, source)?;
    *lent = n + 1;
    *known = whole_line(&window.held()[n + 1..]);
    Ok(n)
}

/// Settles why no line comes, and gives the answer: the last line where the source ended, which is
/// lent then.
#[inline(always)]
fn settle<'a>(
    why: LineStop,
    window: &'a Window,
    lent: &mut usize,
    settled: &mut Option<LineStop>,
) -> NextLine<'a>
    requires { lent.old ≡ 0 }
    ensures lent { lent.new ≤ length window.now }
    ensures settled { settled.new ≡ Some why }
    ensures tells { (room : Option ℕ) → (left : Option (List ℕ))
        → HasCause why window.now room left
        → Tells result window.now (record
        { held = drop lent.new window.now; room = room; settled = Some why }) left }
    ensures cause { (before after : ℕ) → (why ≡ LineStop.ReadFault → Rose before after)
        → (why ≢ LineStop.ReadFault → after ≡ before) → HasFaultCause result before after }
{
    *settled = Some(why);
    let rest = window.held().len();
    if why == LineStop::End && rest > 0 {
        *lent = rest;
        return NextLine::Line(window.held());
    }
    why.answer()
}

/// Reads a source by lines. Contracts see the bytes that it took and gave in no line, how many it
/// may still take, and what it answers from now on, if that is settled.
#[derive(Drop)]
pub struct LineReader {
    window: Window,
    lent: usize,
    // How long the line behind the bytes that are lent is, if that is known.
    known: Option<usize>,
    room: Option<u64>,
    settled: Option<LineStop>,
}

impl Model for LineReader {
    ghost use Rattle.std.specs.Prelude.{◌≤◌, drop, length, IfSome};
    ghost use Rattle.wio_core.specs.LineAnswers.{LinesAhead};
    ghost use Rattle.wio_core.specs.Lines.{HasLine};

    ghost Value = { LinesAhead };

    ghost view = { λ r. record {
      held = drop r.lent r.window;
      room = r.room;
      settled = r.settled;
    } };

    ghost invariant = { λ r. (r.lent ≤ length r.window)
        × IfSome r.known (λ n. HasLine (drop r.lent r.window) n) };
}

impl LineReader {
    ghost use Rattle.std.specs.Borrow.{sem};
    ghost use Rattle.std.specs.Io.BufRead.{Rests};
    ghost use Rattle.wio_core.specs.LineAnswers.{Answers, HasFaultCause};
    ghost use Rattle.wio_core.specs.contracts.line_reader.LineReader.{the_row};

    /// Takes at most `limit` bytes of its source, or any number, and reserves 16,384 bytes.
    pub fn new(alloc: Global, limit: Option<u64>) -> Result<LineReader, NoMemory>
        ensures { IfOk result (λ reader. reader
            ≡ record { held = []; room = limit; settled = None }) }
    {
        Ok(LineReader {
            window: Window::new(alloc)?,
            lent: 0,
            known: None,
            room: limit,
            settled: None,
        })
    }

    /// Whether the bytes that are held are the beginning of a line alone, so that the next call reads unless its answer
    /// is settled. (no memory)
    pub fn is_open(&self) -> bool
        ensures { IsTrue result ↔ IsOpen self.now.held }
    {
        if self.known.is_some() {
            return false;
        }
        match look(&self.window.held()[self.lent..], 0) {
            Front::Open => true,
            Front::Line(_) | Front::Long => false,
        }
    }

    /// The next line of the bytes that are held and of those that the source has left. It reads while
    /// no whole line is held, and no byte past the limit. (no memory)
    #[inline(always)]
    pub fn next<S: Source>(&mut self, source: &mut S) -> NextLine<'_>
        requires { self.old.settled ≢ Some LineStop.ReadFault }
        ensures* answer { sem 𝓛 (Rests the_row self.entry (λ new. Answers self.old new
            (S.given source.old) (S.given source.new)
            (S.left source.old) (S.left source.new) result)) }
        ensures waits { ¬ IsOpen self.old.held → source.new ≡ source.old }
        ensures reads_nothing { OnSome self.old.settled (source.new ≡ source.old) }

        ensures given_quiet { StaysQuiet (S.given source.old) (S.given source.new) }
        ensures left_quiet { StaysQuiet (S.left source.old) (S.left source.new) }
        ensures never_falls { S.fault_count source.old ≤ S.fault_count source.new }
        ensures cause { HasFaultCause result (S.fault_count source.old) (S.fault_count source.new) }
    {
        if let Some(why) = self.settled {
            return why.answer();
        }
        match turn(
            &mut self.window,
            &mut self.lent,
            &mut self.known,
            &mut self.room,
            source,
        ) {
            Ok(n) => NextLine::Line(&self.window.held()[..n]),
            Err(why) => settle(why, &self.window, &mut self.lent, &mut self.settled),
        }
    }
}
