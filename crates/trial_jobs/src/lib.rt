//! The jobs of a trial in threads: the method's, and any of a field's, the method's and the shell's.
#![tactic(auto)]

mod batch_list;
mod job;
mod method_batches;
mod method_job;
mod method_turns;
mod run;

pub use batch_list::BatchList;
pub use job::TrialJob;
pub use method_job::{MethodJob, ROUNDS, play_method, run_method};
pub use method_turns::{answer_all, answer_method};
pub use run::{play_job, run_job};
