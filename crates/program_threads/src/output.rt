//! What is shown of a trial.
ghost use Rattle.std.specs.Prelude.{◌≡◌, ◌++◌, IfOk, OnOk, string_bytes};
ghost use Rattle.program_threads.specs.Output.{shown_from, output_of};

use crate::showing::add_field;
use std::alloc::Global;
use trial_client_logs::{FieldLog, field_of};
use trial_threads::ThreadTrial;
use wio_core::NoMemory;

// The lines of the fields with these logs, behind a text.
fn add_fields(alloc: Global, text: &mut String, logs: &[FieldLog]) -> Result<(), NoMemory>
    ensures { OnOk result
        (string_bytes text.new ≡ string_bytes text.old ++ shown_from 1 logs.now) }
{
    let mut number: u64 = 0;
    for log in logs {
        number += 1;
        let field = field_of(alloc, log)?;
        add_field(alloc, text, number, &field)?;
    }
    Ok(())
}

/// The line of each field, and the last line.
#[tactic(auto, unfolding(crate::specs::Output::output_of))]
pub(crate) fn output_of(alloc: Global, trial: &ThreadTrial) -> Result<String, NoMemory>
    ensures { IfOk result (λ text. string_bytes text ≡ output_of trial.now) }
{
    let mut text = String::new(alloc);
    add_fields(alloc, &mut text, trial.logs.as_slice())?;
    text.push_str("end\n")?;
    Ok(text)
}
