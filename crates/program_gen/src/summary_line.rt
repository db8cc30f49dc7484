//! The line that tells the counts of a generated session.
ghost use Rattle.std.specs.Prelude.{◌≡◌, IfOk, string_bytes};
ghost use Rattle.program_gen.specs.Summary.{counts_line, summary_of};

use crate::counts::Counts;
use crate::running::count;
use std::alloc::Global;
use wio_core::NoMemory;

// The counts as a line, without its line feed.
fn counts_line(alloc: Global, number: u64, counts: &Counts) -> Result<String, NoMemory>
    ensures { IfOk result (λ line. string_bytes line ≡ counts_line number counts.now) }
{
    let (entries, dones) = (counts.entries, counts.dones);
    let (activates, ends) = (counts.activates, counts.ends);
    let queued = counts.queued;
    Ok(format!(in alloc;
        "gen {number} entries {entries} dones {dones} activates {activates} ends {ends} queued {queued}"
    )?)
}

/// The counts of the session of the number as a line, with its line feed. `NoMemory` is its one
/// error.
#[tactic(auto, unfolding(crate::specs::Summary::summary_of))]
pub fn summary(alloc: Global, number: u64) -> Result<String, NoMemory>
    ensures { IfOk result (λ line. string_bytes line ≡ summary_of number) }
{
    let counts = count(alloc, number)?;
    let mut line = counts_line(alloc, number, &counts)?;
    line.push('\n')?;
    Ok(line)
}
