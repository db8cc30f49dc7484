//! A generated session, run step by step.
ghost use Rattle.std.specs.Prelude.{◌≡◌, IfOk};
ghost use Rattle.program_gen.specs.Counts.{counts_of};
ghost use Rattle.program_gen.specs.Runs.{Stands};

use crate::counts::Counts;
use crate::playing::play;
use crate::tally::Tally;
use broker_core::Shared;
use broker_steps::{FORM_1_ENTRY_LIMIT, FORM_1_WEIGHT, Limits, Step};
use session_gen::Gen;
use std::alloc::Global;
use wio_core::NoMemory;

/// What a generated session allows, which is of form 1: counted entries, bytes stored for a peer,
/// and weight.
const LIMITS: Limits = Limits {
    entries: FORM_1_ENTRY_LIMIT,
    store: 65_536,
    weight: FORM_1_WEIGHT,
};

/// A generated session as far as it is run.
#[derive(Drop)]
pub(crate) struct Run {
    pub session: Gen,
    pub shared: Shared,
    pub tally: Tally,
}

impl Run {
    ghost use Rattle.std.specs.Prelude.{◌≡◌, ◌+◌, ◌-◌, ◌<◌, IfOk, OnOk};
    ghost use Rattle.broker_steps.specs.Ranges.{IsStep};
    ghost use Rattle.session_gen.specs.Generated.{step_count};
    ghost use Rattle.program_gen.specs.Journals.{journal_of, step_at};
    ghost use Rattle.program_gen.specs.Counts.{counts_in};
    ghost use Rattle.program_gen.specs.Runs.{Stands};

    /// No step was made. `NoMemory` is its one error.
    pub(crate) fn new(alloc: Global, number: u64) -> Result<Run, NoMemory>
        ensures stands { IfOk result Stands }
        ensures new { IfOk result (λ run. run.session ≡ record { number = number; made = 0 }) }
    {
        Ok(Run {
            session: Gen::new(number),
            shared: Shared::new(alloc, LIMITS)?,
            tally: Tally::new(),
        })
    }

    /// How many steps are still to come.
    pub(crate) fn left(&self) -> u32
        ensures { result ≡ step_count - self.now.session.made }
    {
        self.session.left()
    }

    /// The next step, which is played and counted. `NoMemory` is its one error, after which nothing
    /// more can be run.
    pub(crate) fn next(&mut self, alloc: Global) -> Result<Step, NoMemory>
        requires stands { Stands self.old }
        requires more { self.old.session.made < step_count }
        ensures stands { OnOk result (Stands self.new) }
        ensures made { OnOk result (self.new.session
            ≡ record self.old.session { made = self.old.session.made + 1 }) }
        ensures step { IfOk result (λ step.
            step ≡ step_at self.old.session.number self.old.session.made) }
        ensures valid { IfOk result IsStep }
    {
        let dones = self.tally.method_dones as u32;
        let step = self.session.next_step(alloc, dones)?;
        play(&mut self.shared, &step, &mut self.tally)?;
        Ok(step)
    }

    /// The counts so far.
    pub(crate) fn counts(&self) -> Counts
        requires { Stands self.now }
        ensures { result
            ≡ counts_in (journal_of self.now.session.number self.now.session.made) }
    {
        let journal = self.shared.journal();
        Counts {
            entries: journal.len(),
            dones: self.tally.dones,
            activates: self.tally.activates,
            ends: journal.len() - journal.kept().entries,
            queued: self.tally.queued,
        }
    }
}

// Makes all steps of a run that stands before its first one, and gives its counts.
fn count_run(alloc: Global, number: u64, run: &mut Run) -> Result<Counts, NoMemory>
    requires stands { Stands run.old }
    requires first { run.old.session ≡ record { number = number; made = 0 } }
    ensures { IfOk result (λ counts. counts ≡ counts_of number) }
{
    while run.left() > 0 {
        run.next(alloc)?;
    }
    Ok(run.counts())
}

/// The counts of the session of the number. `NoMemory` is its one error.
pub fn count(alloc: Global, number: u64) -> Result<Counts, NoMemory>
    ensures { IfOk result (λ counts. counts ≡ counts_of number) }
{
    let mut run = Run::new(alloc, number)?;
    count_run(alloc, number, &mut run)
}
