//! A whole script.
ghost use Rattle.std.specs.Prelude.{◌≡◌, ◌≤◌, [], All, IfOk, string_bytes};
ghost use Rattle.broker_steps.specs.Ranges.{IsLimits};
ghost use Rattle.trial_script.specs.Grammar.{IsAction};
ghost use Rattle.trial_script.specs.Scripts.{field_named};
ghost use Rattle.trial_run.specs.Ran.{Ran};
ghost use Rattle.trial_run.specs.Play.{TrialPlay};
ghost use Rattle.trial_run.specs.Trial.{trial_limits, typist_by, trial_within, played_with};
ghost use Rattle.trial_run.specs.Trial.{shown_by, IsShown, IsTrialOf};
ghost use Rattle.trial_run.specs.Working.{IsRun};

use crate::stop::Stop;
use crate::trial::Trial;
use crate::typist::TrialTypist;
use broker_core::Kept;
use broker_steps::{FORM_1_WEIGHT, Limits};
use compose_method::Method;
use dict_method::DictMethod;
use std::alloc::Global;
use thiserror::Error;
use trial_script::{Actions, Ending, KeyRules, Script, read_script};
use wio_core::NoMemory;

/// Why a script wasn't played to its end. The text is what was shown before: a line for each `show`.
#[derive(Debug, Drop, Error)]
pub enum TrialEnd {
    /// The line with this number, from 1, is outside the grammar, or is missing.
    #[error("line {0} is no line of a trial")]
    BadLine(u64, String),
    /// The journal is full for a step: so much it holds.
    #[error("the journal is full with {} entries", .0.entries)]
    JournalFull(Kept, String),
    /// There was no memory.
    #[error("there was no memory")]
    NoMemory,
}

impl From<NoMemory> for TrialEnd {
    ghost use Rattle.std.specs.Prelude.{◌≡◌};
    ghost use Rattle.trial_run.specs.declared.run.TrialEnd.TheVariants as ends;

    ghost from_gives = { λ _ e. e ≡ ends.NoMemory };

    fn from(_: NoMemory) -> Self {
        TrialEnd::NoMemory
    }
}

/// The limits of a trial: the most entries of its journal, and the most bytes that are stored for a
/// peer.
#[tactic(auto, unfolding(crate::specs::Trial::trial_limits))]
fn trial_limits() -> Limits
    ensures value { result ≡ trial_limits }
    ensures valid { IsLimits result }
{
    Limits {
        entries: 1_000_000,
        store: 65_536,
        weight: FORM_1_WEIGHT,
    }
}

impl Trial {
    // The method and so many fields join, and then the actions are played; nothing is where there are
    // no fields.
    fn script(&mut self, fields: u32, first: u32, actions: &Actions) -> Result<(), Stop>
        requires none { self.old.fields ≡ [] }
        requires few { fields ≤ 16 }
        requires valid { All (λ action. IsAction action × (field_named action ≤ fields))
            actions.now }
        ensures { IsRun (played_with fields first actions.now self.old) result self.new }
    {
        if fields == 0 {
            return Ok(());
        }
        self.join_method()?;
        self.join_fields(fields)?;
        self.actions(first, actions.as_slice())
    }
}

// How a script that was played ends.
fn ended(ending: Ending, played: Result<(), Stop>, text: String) -> Result<String, TrialEnd>
    ensures { (r : Ran TrialPlay) (t : TrialPlay) → IsRun r played t → t.shown ≡ string_bytes text →
        IsShown (shown_by ending r) result }
{
    match (played, ending) {
        (Err(Stop::NoMemory), _) => Err(TrialEnd::NoMemory),
        (Err(Stop::Full(kept)), _) => Err(TrialEnd::JournalFull(kept, text)),
        (Ok(()), Ending::End) => Ok(text),
        (Ok(()), Ending::BadLine(number)) => Err(TrialEnd::BadLine(number, text)),
        (Ok(()), Ending::Unended(number)) => Err(TrialEnd::BadLine(number, text)),
    }
}

// The method by the rules of keys, not active: one with a dictionary where there is a word.
fn typist_by(alloc: Global, rules: KeyRules) -> Result<TrialTypist, NoMemory>
    ensures { IfOk result (λ typist. typist ≡ typist_by rules) }
{
    let KeyRules { table, dict } = rules;
    if dict.has_words() {
        return Ok(TrialTypist::Dict(DictMethod::new(alloc, table, dict)?));
    }
    Ok(TrialTypist::Compose(Method::new(alloc, table)?))
}

// Plays a script within limits.
pub(crate) fn run_within(alloc: Global, limits: Limits, script: &[u8]) -> Result<String, TrialEnd>
    requires { IsLimits limits }
    ensures { IsShown (trial_within limits script.now) result }
{
    let Script {
        rules,
        fields,
        first_line,
        actions,
        ending,
    } = read_script(alloc, script)?;
    let typist = typist_by(alloc, rules)?;
    let mut trial = Trial::new(alloc, limits, typist)?;
    let first = (first_line % (1 << 32)) as u32;
    let played = trial.script(fields, first, &actions);
    ended(ending, played, trial.into_shown())
}

/// Plays a script up to its end, or to the first line that is outside the grammar, and answers what
/// it shows: for each `show F` the line `show F TEXT CURSOR PREEDIT`.
///
/// A method and a field for each that the script has are peers of one shared state,
/// each with a client of its own. After each action rounds are made: each client that isn't paused,
/// the method first, takes what is stored for it and sends what that asks for, until nothing is
/// stored for such a client. A paused field still sends its own edits. The client of a peer that
/// ended takes what is stored and sends nothing, and its field goes on by itself.
///
/// `BadLine` comes where a line is outside the grammar or `end` is missing, `JournalFull` where a
/// step meets a journal with 1,000,000 entries or of its greatest weight, each with the text of the
/// lines before it. `NoMemory` may come at any time.
pub fn run_trial(alloc: Global, script: &[u8]) -> Result<String, TrialEnd>
    ensures { IsTrialOf script.now result }
{
    run_within(alloc, trial_limits(), script)
}
