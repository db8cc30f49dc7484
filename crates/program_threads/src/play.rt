//! The drawn trial of a number in threads.
ghost use Rattle.std.specs.Prelude.{◌≡◌, Err, IfOk, string_bytes};
ghost use Rattle.broker_model.specs.declared.journal.Kept.{Kept};
ghost use Rattle.trial_threads.specs.declared.trial.ThreadTrial.{ThreadTrial};
ghost use Rattle.program_threads.specs.declared.play.Stop.TheVariants as stops;
ghost use Rattle.program_threads.specs.Output.{output_of};
ghost use Rattle.program_threads.specs.Played.{IsPlayed, IsCutOff};

use crate::output::output_of;
use std::alloc::Global;
use std::sync::Wait;
use std::thread::Threads;
use trial_gen::drawn_script;
use trial_threads::{Gate, ThreadTrialEnd, run_trial_threads};
use wio_core::NoMemory;

/// Why nothing is shown.
#[derive(Clone, Copy, Debug, PartialEq, Eq)]
pub(crate) enum Stop {
    /// The journal was full for a step.
    Full,
    /// There was no memory.
    NoMemory,
}

impl From<NoMemory> for Stop {
    ghost use Rattle.std.specs.Prelude.{◌≡◌};
    ghost use Rattle.program_threads.specs.declared.play.Stop.TheVariants as stops;

    ghost from_gives = { λ _ stop. stop ≡ stops.NoMemory };

    fn from(_: NoMemory) -> Self {
        Stop::NoMemory
    }
}

/// Plays the drawn trial of the number in threads, and gives what its fields show.
/// (Wait: it promises what it does if it returns.)
pub(crate) fn play<R: Threads + Wait + Sync, G: Gate + Sync>(
    rt: &R,
    alloc: Global,
    number: u64,
    gate: &G,
) -> Result<String, Stop>
    ensures whole { IfOk result (λ text. (t : ThreadTrial) × IsPlayed number t
        × (string_bytes text ≡ output_of t)) }
    ensures full { result ≡ Err stops.Full →
        (kept : Kept) × (t : ThreadTrial) × IsCutOff number kept t }
{
    let script = drawn_script(alloc, number)?;
    match run_trial_threads(rt, alloc, script.as_bytes(), gate) {
        Ok(trial) => Ok(output_of(alloc, &trial)?),
        Err(ThreadTrialEnd::JournalFull(_, _)) => Err(Stop::Full),
        Err(ThreadTrialEnd::NoMemory) => Err(Stop::NoMemory),
        Err(ThreadTrialEnd::BadLine(_)) => unreachable!(),
    }
}
