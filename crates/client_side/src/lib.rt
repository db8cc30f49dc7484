//! The clients of a trial: a field that edits itself, and an input method that composes.
#![tactic(auto)]

mod events;
mod fault;
mod field_client;
mod field_receiving;
mod field_state;
mod field_telling;
mod hearer;
mod held;
mod laws;
mod method_client;
mod method_receiving;
mod method_state;
mod method_telling;
mod objects;
mod outbox;
mod pending;
mod setup;

pub use fault::ClientFault;
pub use field_client::FieldClient;
pub use hearer::{FieldHearer, MethodHearer};
pub use laws::{field_log_law, method_log_law};
pub use method_client::MethodClient;
pub use trial_field::{BatchView, Edit, TrialField};
