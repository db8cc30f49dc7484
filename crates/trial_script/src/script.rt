//! A whole script.
ghost use Rattle.std.specs.Prelude.{◌≡◌, ◌<◌, ◌≤◌, ◌+◌, ◌^◌, [], length, None};
ghost use Rattle.std.specs.Prelude.{IfOk, IfSome};
ghost use Rattle.trial_script.specs.Lines.{lines_of};
ghost use Rattle.trial_script.specs.Grammar.{IsLine};
ghost use Rattle.trial_script.specs.Rules.{no_rules, with_line};
ghost use Rattle.trial_script.specs.Reading.{line_of};
ghost use Rattle.trial_script.specs.Scripts.{field_named, found_action, found_of, actions_of};
ghost use Rattle.trial_script.specs.Scripts.{without_actions, by_entry};
ghost use Rattle.trial_script.specs.Scripts.{script_from, script_of, IsScript};

use crate::action::{Action, Actions};
use crate::line::{Line, read_line};
use crate::lines::take_line;
use crate::rules::KeyRules;
use session_text::BadLine;
use std::alloc::Global;
use wio_core::NoMemory;

/// How a script ends. Lines are numbered from 1.
#[derive(Clone, Copy, Debug, PartialEq, Eq)]
pub enum Ending {
    /// By its line `end`.
    End,
    /// The line with this number is outside the grammar.
    BadLine(u64),
    /// All lines were read, and the one with this number is missing.
    Unended(u64),
}

/// A script up to where it ends. One that ends before its line `fields` has no fields and no
/// actions.
#[derive(Debug, Drop)]
pub struct Script {
    /// What the method's keys mean.
    pub rules: KeyRules,
    /// How many fields there are: 1 to 16.
    pub fields: u32,
    /// The number of the first action's line.
    pub first_line: u64,
    /// What is done, a line each.
    pub actions: Actions,
    /// How the script ends.
    pub ending: Ending,
}

// The line of the bytes, if they are one.
fn line(alloc: Global, raw: &[u8]) -> Result<Option<Line>, NoMemory>
    ensures exact { IfOk result (λ line. line ≡ line_of raw.now) }
    ensures valid { IfOk result (λ line. IfSome line IsLine) }
{
    match read_line(alloc, raw) {
        Ok(line) => Ok(Some(line)),
        Err(BadLine::Grammar) => Ok(None),
        Err(BadLine::NoMemory) => Err(NoMemory),
    }
}

// The number of the field of which the action speaks, 0 where it speaks of none.
fn field_named(action: &Action) -> u32
    ensures { result ≡ field_named action.now }
{
    match action {
        Action::Use(field)
        | Action::Edit(field, _)
        | Action::Pause(field)
        | Action::Resume(field)
        | Action::Show(field) => *field,
        Action::Leave | Action::Press(_) | Action::Batch(_) => 0,
    }
}

// What a line is among the actions.
#[derive(Debug, Drop)]
enum Found {
    Act(Action),
    End,
    // Outside the grammar, or of a field that the script hasn't.
    Bad,
}

fn found_action(fields: u32, action: Action) -> Found
    ensures { result ≡ found_action fields action }
{
    if field_named(&action) > fields {
        return Found::Bad;
    }
    Found::Act(action)
}

// What the line of the bytes is among the actions of so many fields.
fn find(alloc: Global, fields: u32, raw: &[u8]) -> Result<Found, NoMemory>
    ensures { IfOk result (λ found. found ≡ found_of fields (line_of raw.now)) }
{
    match read_line(alloc, raw) {
        Ok(Line::Act(action)) => Ok(found_action(fields, action)),
        Ok(Line::End) => Ok(Found::End),
        Ok(_) => Ok(Found::Bad),
        Err(BadLine::Grammar) => Ok(Found::Bad),
        Err(BadLine::NoMemory) => Err(NoMemory),
    }
}

// The actions of the lines, of which the first has the number, and how they end.
fn read_actions(
    alloc: Global,
    fields: u32,
    first: u64,
    bytes: &[u8],
) -> Result<(Actions, Ending), NoMemory>
    requires few { first + length bytes.now < 2 ^ 64 }
    ensures { IfOk result (λ p. record { actions = p.0; ending = p.1 }
        ≡ actions_of fields first (lines_of bytes.now)) }
{
    let mut actions = Actions::new(alloc);
    let mut number = first;
    let mut rest = bytes;
    while let Some((raw, more)) = take_line(rest) {
        match find(alloc, fields, raw)? {
            Found::Act(action) => actions.push(action)?,
            Found::End => return Ok((actions, Ending::End)),
            Found::Bad => return Ok((actions, Ending::BadLine(number))),
        }
        number += 1;
        rest = more;
    }
    Ok((actions, Ending::Unended(number)))
}

// A script that ends before its actions.
fn without_actions(alloc: Global, rules: KeyRules, ending: Ending) -> Script
    ensures { result ≡ without_actions rules ending }
{
    Script {
        rules,
        fields: 0,
        first_line: 0,
        actions: Actions::new(alloc),
        ending,
    }
}

// A line with this number that says nothing of keys, or for which there is no place: the
// actions begin behind it, or the script ends at it.
fn end_rules(
    alloc: Global,
    rules: KeyRules,
    number: u64,
    line: Option<Line>,
    more: &[u8],
) -> Result<Script, NoMemory>
    requires few { number + 1 + length more.now < 2 ^ 64 }
    requires end { with_line rules line ≡ None }
    ensures { (next : KeyRules → Script) → IfOk result (λ script. script
        ≡ by_entry rules number line next (λ n. actions_of n (number + 1) (lines_of more.now))) }
{
    match line {
        Some(Line::Fields(fields)) => {
            let (actions, ending) = read_actions(alloc, fields, number + 1, more)?;
            Ok(Script {
                rules,
                fields,
                first_line: number + 1,
                actions,
                ending,
            })
        }
        _ => Ok(without_actions(alloc, rules, Ending::BadLine(number))),
    }
}

// The script of the lines after the header.
fn read_body(alloc: Global, bytes: &[u8]) -> Result<Script, NoMemory>
    requires few { 2 + length bytes.now < 2 ^ 64 }
    ensures { IfOk result (λ script. script ≡ script_from no_rules 2 (lines_of bytes.now)) }
{
    let mut rules = KeyRules::new(alloc)?;
    let mut number = 2;
    let mut rest = bytes;
    while let Some((raw, more)) = take_line(rest) {
        let line = line(alloc, raw)?;
        if !rules.put_line(&line)? {
            return end_rules(alloc, rules, number, line, more);
        }
        drop(line);
        number += 1;
        rest = more;
    }
    Ok(without_actions(alloc, rules, Ending::Unended(number)))
}

// The script of the bytes.
#[tactic(auto, unfolding(crate::specs::Scripts::script_of))]
fn read_whole(alloc: Global, script: &[u8]) -> Result<Script, NoMemory>
    ensures { IfOk result (λ read. read ≡ script_of script.now) }
{
    let Some((raw, more)) = take_line(script) else {
        let rules = KeyRules::new(alloc)?;
        return Ok(without_actions(alloc, rules, Ending::Unended(1)));
    };
    match line(alloc, raw)? {
        Some(Line::Header) => read_body(alloc, more),
        _ => {
            let rules = KeyRules::new(alloc)?;
            Ok(without_actions(alloc, rules, Ending::BadLine(1)))
        }
    }
}

/// Reads a script up to its end, or to the first line that is outside the grammar. Its form: the
/// header, then any number of lines that say what keys mean, then how many fields there are, then
/// actions, then the end. A key that has a text already, a sequence or a word that clashes with
/// what was said before, a control key that is one already or stands in a word, what the table or
/// the dictionary has no place for, a sequence and a word in one script, and a field above the
/// number of fields are outside the grammar too. What stands behind the line `end` isn't read.
pub fn read_script(alloc: Global, script: &[u8]) -> Result<Script, NoMemory>
    ensures exact { IfOk result (λ read. read ≡ script_of script.now) }
    ensures valid { IfOk result IsScript }
{
    read_whole(alloc, script)
}
