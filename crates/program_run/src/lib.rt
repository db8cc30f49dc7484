//! What the words of the command line name, over an input and an output: sessions and act lists
//! that are played, sessions that are migrated, audits, trials, and generated sessions.
#![tactic(auto)]

mod act_list;
mod audit;
mod command;
mod explain;
mod follow;
mod generated;
mod last_line;
mod laws;
mod migration;
mod printer;
mod reading;
mod run;
mod script;
mod seats;
mod session;
mod session_line;
mod status;
mod trial;
mod watched_line;
mod whole;
mod writing;

pub use laws::replay_law;
pub use run::run_plain;
pub use seat_set::{Player, Watch};
pub use session_text::{Form, Line, read_line};
pub use status::Status;
pub use trial_script::{Edits, Ending, read_script};
