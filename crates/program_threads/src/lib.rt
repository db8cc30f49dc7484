//! What `trial-threads N` does: the drawn trial of the number, played in threads, and what its
//! fields show.
#![tactic(auto)]

mod command;
mod output;
mod play;
mod run;
mod showing;

pub use program_run::{Status, run_plain};
pub use run::run_threads;
pub use trial_gen::drawn_script;
