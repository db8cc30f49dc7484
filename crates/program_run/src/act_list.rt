//! An act list, played line by line.
ghost use Rattle.std.specs.Prelude.{◌≡◌, ◌<◌, ◌∷◌, ◌++◌, ◌+◌, List, [], length, IfOk, OnOk};
ghost use Rattle.std.specs.Prelude.{string_bytes, false};
ghost use Rattle.relay_model.specs.declared.act.Act.{Act};
ghost use Rattle.relay_model.specs.Told.{told};
ghost use Rattle.relay_core.specs.Fits.{FitsMessage};
ghost use Rattle.relay_core.specs.Stands.{StandsFor};
ghost use Rattle.program_run.specs.Transcript.{verdict_of, verdict_of_act, act_text};

use crate::last_line::LastLine;
use crate::printer::Printer;
use crate::script::Script;
use relay_core::Relay;
use relay_model::Act;
use session_text::{BadLine, Form, Line, read_line};
use std::alloc::Global;
use wio_core::NoMemory;

/// The most acts of an act list.
pub const ACT_LIMIT: u32 = 100000;

/// What a line of an act list is.
#[derive(Debug, Drop)]
pub enum Verdict {
    /// The list ends.
    End,
    /// Outside the grammar.
    Bad,
    /// An act past the limit.
    Full,
    Play(Act),
}

fn judge_act(act: Act, count: u32) -> Verdict
    ensures { result ≡ verdict_of_act count act }
{
    if count >= ACT_LIMIT {
        return Verdict::Full;
    }
    Verdict::Play(act)
}

// What a line is, after so many acts.
#[tactic(auto, unfolding(crate::specs::Transcript::verdict_of))]
fn judge(alloc: Global, raw: &[u8], count: u32) -> Result<Verdict, NoMemory>
    ensures { IfOk result (λ v. v ≡ verdict_of count raw.now) }
{
    match read_line(alloc, Form::Acts, raw) {
        Ok(Line::End) => Ok(Verdict::End),
        Ok(Line::Act(act)) => Ok(judge_act(act, count)),
        Ok(Line::Header(_) | Line::Session(_) | Line::Stamped(..) | Line::Shell(_)) => {
            Ok(Verdict::Bad)
        }
        Err(BadLine::Grammar) => Ok(Verdict::Bad),
        Err(BadLine::NoMemory) => Err(NoMemory),
    }
}

// Plays one act, and prints what it tells.
fn play(relay: &mut Relay, act: &Act, printer: &mut Printer) -> Result<(), NoMemory>
    requires number { relay.old.state.acts < ACT_LIMIT }
    requires fits { FitsMessage act.now }
    ensures stands { (log : List Act) → StandsFor relay.old log →
        OnOk result (StandsFor relay.new (act.now ∷ log)) }
    ensures printed { (log : List Act) → StandsFor relay.old log →
        OnOk result (string_bytes printer.new.text ≡ string_bytes printer.old.text ++ act_text
        (length log + 1) (told act.now log)) }
    ensures works { OnOk result (printer.new.failed ≡ false) }
{
    relay.reserve(act)?;
    printer.number = relay.acts() + 1;
    let _ = relay.step(act, printer);
    if printer.failed {
        return Err(NoMemory);
    }
    Ok(())
}

/// The acts so far, and the lines of what they told.
#[derive(Drop)]
pub struct ActList {
    alloc: Global,
    relay: Relay,
    printer: Printer,
}

impl ActList {
    ghost use Rattle.program_run.specs.ActScript.{ActsStand, acts_text};

    /// No act was played yet.
    pub fn new(alloc: Global) -> Result<ActList, NoMemory>
        ensures stands { IfOk result (λ list. ActsStand list [] []) }
        ensures none { IfOk result (λ list. acts_text list ≡ []) }
    {
        Ok(ActList {
            alloc,
            relay: Relay::new(alloc)?,
            printer: Printer {
                alloc,
                text: String::new(alloc),
                line: String::new(alloc),
                number: 0,
                failed: false,
            },
        })
    }
}

impl Script for ActList {
    ghost use Rattle.program_run.specs.Transcript.{answer_from};
    ghost use Rattle.program_run.specs.ActScript.{ActsStand, acts_text};

    ghost answer = { λ cut lines. answer_from cut [] lines };

    ghost stands = { ActsStand };

    ghost holds = { λ list gathered. acts_text list ≡ gathered };

    ghost text = { acts_text };

    fn line(&mut self, raw: &[u8]) -> Result<Option<LastLine>, NoMemory> {
        let count = self.relay.acts();
        match judge(self.alloc, raw, count)? {
            Verdict::Bad => Ok(Some(LastLine::Bad(u64::from(count) + 1))),
            Verdict::End => Ok(Some(LastLine::End(count))),
            Verdict::Full => Ok(Some(LastLine::Full(count))),
            Verdict::Play(act) => {
                play(&mut self.relay, &act, &mut self.printer)?;
                Ok(None)
            }
        }
    }

    fn bad_line(&self) -> LastLine {
        LastLine::Bad(u64::from(self.relay.acts()) + 1)
    }

    fn close(&mut self) -> Result<(), NoMemory> {
        Ok(())
    }

    fn text(&self) -> &[u8] {
        self.printer.text.as_str().as_bytes()
    }

    fn clear(&mut self) {
        self.printer.text.clear();
    }
}
