//! Work that can be started, and its result.
ghost use Rattle.std.specs.Prelude.{◌≡◌};
ghost use Rattle.serve_jobs.specs.Tags.{Tag, Report, IsReportOf};

use std::sync::Wait;

/// Work that a thread of its own may do. A job has one meaning for contracts, its tag; its result
/// has two, that tag and a report.
pub trait Job {
    /// The result.
    type Done: Drop;

    ghost tag: { Self → Tag };

    ghost done_tag: { Self.Done → Tag };

    ghost report: { Self.Done → Report };

    /// Does the work. (Wait: it promises what it does if it returns.)
    fn run<R: Wait>(self, rt: &R) -> Self::Done
        ensures tag { done_tag result ≡ tag self }
        ensures report { IsReportOf (done_tag result) (report result) };
}
