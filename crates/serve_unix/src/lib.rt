//! Unix sockets as a net, and threads that do jobs: the edge to the system.
#![tactic(auto)]

mod door_lock;
mod job_thread;
mod link_ends;
mod open_door;
mod outcome;
mod thread_spawner;
mod unix_net;
mod unix_sink;
mod unix_source;

pub use job_thread::{JobThread, Running, begin_job};
pub use outcome::{Given, Outcome};
pub use serve_jobs::LinkJob;
pub use thread_spawner::ThreadSpawner;
pub use unix_net::UnixNet;
pub use unix_sink::UnixSink;
pub use unix_source::UnixSource;
pub use wio_core::{Sink, StdSink, StdSource};
