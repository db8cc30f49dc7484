//! Scripts of trials: what the method's keys mean, how many fields there are, and what their users,
//! the method's user and the shell do.
#![tactic(auto)]

mod action;
mod keys;
mod line;
mod line_words;
mod lines;
mod rules;
mod script;

pub use action::{Action, Actions, Edits, FieldEdit};
pub use compose_method::Typist;
pub use keys::KeyList;
pub use line::{Line, one_spelling, read_line};
pub use rules::KeyRules;
pub use script::{Ending, Script, read_script};
