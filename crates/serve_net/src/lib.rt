//! Links of peers and shells, the doors that they come through, and a net in memory.
#![tactic(auto)]

mod door;
mod hangs_up;
mod mem_link;
mod mem_net;
mod mem_ways;
mod net;

pub use door::Door;
pub use hangs_up::HangsUp;
pub use mem_link::MemLink;
pub use mem_net::MemNet;
pub use mem_ways::{MemIn, MemOut};
pub use net::{LinkSink, LinkSource, Net};
pub use out_store::Past;
pub use wio_core::{Failed, MemSink, MemSource, Sink};
