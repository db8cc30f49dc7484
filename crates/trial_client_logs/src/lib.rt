//! The logs of a trial's clients: what their own users do and what the clients hear is written
//! down, in order.
#![tactic(auto)]

mod entry;
mod field_hearing;
mod field_log;
mod heard_event;
mod method_hearing;
mod method_log;
mod replay;
mod views;

pub use entry::FieldEntry;
pub use field_hearing::hear_field;
pub use field_log::FieldLog;
pub use heard_event::HeardEvent;
pub use method_hearing::hear_method;
pub use method_log::{MethodEntry, MethodLog};
pub use replay::field_of;
pub use views::{batch_copy, batch_view, edit_copy, edit_view};
