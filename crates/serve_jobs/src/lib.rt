//! The jobs that serve links, their results, and what starts them.
#![tactic(auto)]

mod done;
mod job;
mod jobs;
mod link_job;
mod run;
mod spawner;

pub use done::{ReaderDone, ShellDone, WriterDone};
pub use job::Job;
pub use jobs::{ReaderJob, ShellJob, WriterJob};
pub use link_job::{LinkDone, LinkJob};
pub use spawner::Spawner;
