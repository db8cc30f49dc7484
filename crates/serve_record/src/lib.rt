//! A hub's session as text: its recorded session. That it replays to the same journal is proved in
//! `law_record`.
#![tactic(auto)]

mod entry_lines;
mod laws;
mod record;
mod record_hub;
mod record_text;

pub use laws::recorded_session;
pub use record::{RecordStop, write_record};
pub use record_hub::record_handed;
pub use record_text::RecordText;
pub use wio_core::{MemSink, MemSource};
