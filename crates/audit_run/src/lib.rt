//! Another broker judged line by line: what it was told, and what it sent.
//!
//! Lines of an audit as they are read: what went into a broker, and what it sent.
#![tactic(auto)]

mod audit;
mod audit_line;
mod laws;
mod taking;

pub use audit::{Audit, AuditEnd};
pub use audit_line::{AuditLine, AuditText, one_spelling, read_audit_header, read_audit_line};
pub use laws::good_is_computed;
