//! The jobs of a trial in threads: a field and the shell each play their part over passes of one hub.
#![tactic(auto)]

mod field_edits;
mod field_job;
mod field_turns;
mod job_end;
mod lists;
mod shell_job;
mod turn;

pub use field_job::{FieldJob, play_field, run_field};
pub use field_turns::{answer_all, answer_field};
pub use job_end::JobEnd;
pub use lists::{EditList, ShellSteps};
pub use shell_job::{ShellJob, run_shell};
pub use turn::Turn;
