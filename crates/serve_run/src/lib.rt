//! The server: links of applications, methods and shells over one hub, and its recorded session.
#![tactic(auto)]

mod accept;
mod collect;
mod finish;
mod new_link;
mod open;
mod record;
mod serve;
mod start;
mod status;
mod stop;

pub use hub_lock::Gate;
pub use serve::run_serve;
pub use status::ServeStatus;
pub use stop::{Stop, Trouble};
