//! An audit, judged line by line.
ghost use Rattle.std.specs.Prelude.{◌≡◌, ◌<◌, ◌+◌, ◌^◌, ℕ, List, [], ◌∷◌, length, IfOk, IfSome};
ghost use Rattle.audit_run.specs.declared.audit_line.AuditLine.{AuditLine as Line};
ghost use Rattle.audit_run.specs.Grammar.{HasAuditLine, IsAuditText};
ghost use Rattle.audit_run.specs.Judged.{IsAuditLine};
ghost use Rattle.audit_run.specs.Standing.{Stands};
ghost use Rattle.program_run.specs.Audit.{end_with, moment_of, text_after, timed};
ghost use Rattle.program_run.specs.AuditPlayed.{IsAuditLinePlayed, IsJudged};

use crate::last_line::LastLine;
use crate::script::Script;
use audit_run::{Audit, AuditEnd, AuditLine, AuditText, read_audit_header, read_audit_line};
use session_text::BadLine;
use std::alloc::Global;
use wio_core::NoMemory;

// Judges one line, after so many lines of the input. Tells how the output ends if the line decides
// it.
fn judge(audit: &mut Audit, before: u64, line: &AuditLine) -> Result<Option<LastLine>, NoMemory>
    requires { IsAuditLine line.now }
    ensures { (log : List Line) → Stands log audit.old → before ≡ length log + 1 →
        before < 2 ^ 63 → IfOk result (IsJudged log line.now audit.new) }
{
    match audit.line(line) {
        Ok(()) => Ok(None),
        Err(AuditEnd::No) => Ok(Some(LastLine::No(before.saturating_add(1)))),
        Err(AuditEnd::JournalFull(kept)) => Ok(Some(LastLine::Full(kept.entries))),
        Err(AuditEnd::NoMemory) => Err(NoMemory),
    }
}

// A line whose moment isn't below that of the line before.
fn timed(moment: u64, text: AuditText) -> Option<AuditText>
    ensures { result ≡ timed moment (Some text) }
{
    match text {
        AuditText::Line(AuditLine::Step(stamp, line)) => {
            if stamp.moment < moment {
                None
            } else {
                Some(AuditText::Line(AuditLine::Step(stamp, line)))
            }
        }
        other => Some(other),
    }
}

// What a line says after the header, where the line before came at the moment.
fn read(alloc: Global, moment: u64, raw: &[u8]) -> Result<Option<AuditText>, NoMemory>
    ensures text { IfOk result (λ text. text ≡ text_after moment raw.now) }
    ensures valid { IfOk result (λ text. IfSome text IsAuditText) }
{
    match read_audit_line(alloc, raw) {
        Ok(text) => Ok(timed(moment, text)),
        Err(BadLine::Grammar) => Ok(None),
        Err(BadLine::NoMemory) => Err(NoMemory),
    }
}

// The moment of a line, or of the one before where it has none.
fn moment_after(line: &AuditLine, moment: u64) -> u64
    ensures { (log : List Line) → moment ≡ moment_of log → result ≡ moment_of (line.now ∷ log) }
{
    match line {
        AuditLine::Step(stamp, _) => stamp.moment,
        AuditLine::Out(..) => moment,
    }
}

// Plays the line after so many. Tells how the output ends if the line decides it.
fn play_line(
    alloc: Global,
    audit: &mut Audit,
    moment: &mut u64,
    before: u64,
    raw: &[u8],
) -> Result<Option<LastLine>, NoMemory>
    ensures { (log : List Line) → Stands log audit.old → moment.old ≡ moment_of log →
        before ≡ length log + 1 → before < 2 ^ 63 →
        IfOk result (IsAuditLinePlayed log (text_after moment.old raw.now) audit.new moment.new) }
{
    match read(alloc, *moment, raw)? {
        Some(AuditText::Line(line)) => {
            *moment = moment_after(&line, *moment);
            judge(audit, before, &line)
        }
        Some(AuditText::End) => Ok(Some(LastLine::Yes(audit.dones()))),
        None => Ok(Some(LastLine::Bad(before.saturating_add(1)))),
    }
}

/// The lines so far. Before the header no audit is there. Nothing is written before the last line.
#[derive(Drop)]
pub struct AuditPlay {
    alloc: Global,
    audit: Option<Audit>,
    // Of the last line that had one.
    moment: u64,
    before: u64,
}

impl AuditPlay {
    ghost use Rattle.program_run.specs.AuditScript.{AuditStands};

    /// No line came yet.
    pub fn new(alloc: Global) -> AuditPlay
        ensures stands { AuditStands result [] [] }
    {
        AuditPlay {
            alloc,
            audit: None,
            moment: 0,
            before: 0,
        }
    }
}

impl Script for AuditPlay {
    ghost use Rattle.std.specs.Prelude.{◌≡◌, []};
    ghost use Rattle.program_run.specs.Audit.{audit_of_lines};
    ghost use Rattle.program_run.specs.AuditScript.{AuditStands};

    ghost answer = { audit_of_lines };

    ghost stands = { AuditStands };

    ghost holds = { λ play gathered. gathered ≡ [] };

    ghost text = { λ play. [] };

    fn line(&mut self, raw: &[u8]) -> Result<Option<LastLine>, NoMemory> {
        let before = self.before;
        self.before = before.saturating_add(1);
        match &mut self.audit {
            Some(audit) => play_line(self.alloc, audit, &mut self.moment, before, raw),
            None => {
                if !read_audit_header(raw) {
                    return Ok(Some(LastLine::Bad(1)));
                }
                self.audit = Some(Audit::new(self.alloc)?);
                Ok(None)
            }
        }
    }

    fn bad_line(&self) -> LastLine {
        LastLine::Bad(self.before.saturating_add(1))
    }

    fn close(&mut self) -> Result<(), NoMemory> {
        Ok(())
    }

    fn text(&self) -> &[u8] {
        &[]
    }

    fn clear(&mut self) {}
}
