//! A trial in threads: its fields, its method and its shell are jobs that run beside each other over
//! one hub.
//!
//! How the jobs of a trial in threads begin: the peer of a field's or the method's user joins a hub
//! and sends its set-up, and the shell gets its pass. Then each job is ready to be run.
#![tactic(auto)]

mod back;
mod begin;
mod collect;
mod drain;
mod field;
mod method;
mod no_job;
mod parts;
mod peer;
mod play;
mod run;
mod running;
mod shell;
mod side_by_side;
mod stop;
mod trial;
mod typists;

pub use back::give_back;
pub use field::begin_field;
pub use hub_lock::{Gate, Session};
pub use method::begin_method;
pub use no_job::NoJob;
pub use run::run_trial_threads;
pub use shell::begin_shell;
pub use trial::{FieldLogs, ThreadTrial, ThreadTrialEnd};
pub use trial_run::run_trial;
pub use typists::typist_by;
