//! The jobs of a trial.
use crate::method_job::MethodJob;
use trial_typing::{FieldJob, ShellJob};

/// What one thread of a trial does: the part of one user of the hub, over that user's passes.
#[derive(Drop)]
pub enum TrialJob {
    /// A field's part.
    Field(FieldJob),
    /// The method's.
    Method(MethodJob),
    /// The shell's.
    Shell(ShellJob),
}
