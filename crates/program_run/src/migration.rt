//! A session of form 1 that is written as one of form 2, line by line.
ghost use Rattle.std.specs.Prelude.{◌≡◌, ◌<◌, ◌^◌, ◌++◌, [], IfOk, OnOk};
ghost use Rattle.program_run.specs.Migrating.{line_text, migrated_end, migrated_header};
ghost use Rattle.program_run.specs.Migrating.{migrated_line};
ghost use Rattle.program_run.specs.Session.{first_stage, meaning_of};
ghost use Rattle.session_text.specs.declared.line.Form.TheVariants.{Session};
ghost use Rattle.program_run.specs.MigrationScript.{MigrationStands, migration_text};

use crate::last_line::LastLine;
use crate::script::Script;
use crate::session_line::{Meaning, Stage, header, judge};
use broker_steps::Limits;
use session_text::Form;
use std::alloc::Global;
use wio_core::NoMemory;

// Adds a line in form 2, of whose moment and author nothing is known.
fn add_line(text: &mut Vec<u8>, raw: &[u8]) -> Result<(), NoMemory>
    ensures { OnOk result (text.new.items ≡ text.old.items ++ migrated_line raw.now) }
{
    text.extend_from_slice(b"0 0 ")?;
    text.extend_from_slice(raw)?;
    text.push(b'\n')?;
    Ok(())
}

// How the output ends with a line after so many, if it does.
fn migrated_end(alloc: Global, before: u64, raw: &[u8]) -> Result<Option<LastLine>, NoMemory>
    ensures { IfOk result (λ end.
        before < 2 ^ 63 → end ≡ migrated_end before (meaning_of (first_stage Session) raw.now)) }
{
    match judge(alloc, Stage::of(Form::Session), raw)? {
        Meaning::Play(_, _) => Ok(None),
        Meaning::End => Ok(Some(LastLine::Over)),
        Meaning::Bad => Ok(Some(LastLine::Bad(before.saturating_add(1)))),
    }
}

// Adds a line after so many in form 2, unless the output ends with it.
fn migrate_line(
    alloc: Global,
    text: &mut Vec<u8>,
    before: u64,
    raw: &[u8],
) -> Result<Option<LastLine>, NoMemory>
    ensures end { IfOk result (λ end.
        before < 2 ^ 63 → end ≡ migrated_end before (meaning_of (first_stage Session) raw.now)) }
    ensures text { IfOk result (λ end. text.new.items ≡ text.old.items ++ line_text raw.now end) }
{
    match migrated_end(alloc, before, raw)? {
        None => {
            add_line(text, raw)?;
            Ok(None)
        }
        Some(end) => Ok(Some(end)),
    }
}

// Adds the header in form 2.
fn add_header(alloc: Global, text: &mut Vec<u8>, limits: Limits) -> Result<(), NoMemory>
    ensures { OnOk result (text.new.items ≡ text.old.items ++ migrated_header limits) }
{
    let (entries, store, weight) = (limits.entries, limits.store, limits.weight);
    let line = format!(in alloc; "session 2 {entries} {store} {weight}\n")?;
    text.extend_from_slice(line.as_bytes())?;
    Ok(())
}

/// The lines so far, in form 2.
#[derive(Drop)]
pub struct Migration {
    alloc: Global,
    text: Vec<u8>,
    is_begun: bool,
    before: u64,
}

impl Migration {
    /// No line came yet.
    pub fn new(alloc: Global) -> Migration
        ensures stands { MigrationStands result [] [] }
        ensures holds { migration_text result ≡ [] }
    {
        Migration {
            alloc,
            text: Vec::new(alloc),
            is_begun: false,
            before: 0,
        }
    }
}

impl Script for Migration {
    ghost use Rattle.program_run.specs.Migrating.{migrated_lines};
    ghost use Rattle.program_run.specs.MigrationScript.{MigrationStands, migration_text};

    ghost answer = { migrated_lines };

    ghost stands = { MigrationStands };

    ghost holds = { λ migration gathered. migration_text migration ≡ gathered };

    ghost text = { migration_text };

    fn line(&mut self, raw: &[u8]) -> Result<Option<LastLine>, NoMemory> {
        let before = self.before;
        self.before = before.saturating_add(1);
        if self.is_begun {
            return migrate_line(self.alloc, &mut self.text, before, raw);
        }
        match header(self.alloc, Form::Session, raw)? {
            Some(limits) => {
                add_header(self.alloc, &mut self.text, limits)?;
                self.is_begun = true;
                Ok(None)
            }
            None => Ok(Some(LastLine::Bad(1))),
        }
    }

    fn bad_line(&self) -> LastLine {
        LastLine::Bad(self.before.saturating_add(1))
    }

    fn close(&mut self) -> Result<(), NoMemory> {
        Ok(())
    }

    fn text(&self) -> &[u8] {
        &self.text
    }

    fn clear(&mut self) {
        self.text.clear();
    }
}
