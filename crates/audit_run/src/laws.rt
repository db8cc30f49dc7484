//! What audits say, over the definitions alone.
ghost use Rattle.audit_run.specs.Verdict.{GoodIsComputed};

/// A law without work: whether a line is good is what the comparison of both streams, message by
/// message, computes.
pub fn good_is_computed()
    ensures { GoodIsComputed }
{}
