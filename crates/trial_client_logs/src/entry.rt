//! One thing that happened to a field.
use trial_script::{Edits, FieldEdit};

/// One thing that happened to a field.
#[derive(Debug, Drop)]
pub enum FieldEntry {
    /// Its own user edited it.
    Own(FieldEdit),
    /// The edits that waited were applied at a done with this serial
    /// (`zwp_text_input_v3.done`).
    Batch(Edits, u32),
    /// `zwp_text_input_v3.enter`
    Enter,
    /// `zwp_text_input_v3.leave`
    Leave,
}
