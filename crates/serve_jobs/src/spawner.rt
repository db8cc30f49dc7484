//! What starts jobs and gives their results.
ghost use Rattle.std.specs.Prelude.{◌≡◌, ◌≤◌, ◌++◌, ◌∷◌, [], ℕ, List, length, Some};
ghost use Rattle.std.specs.Prelude.{IfErr, IfSome, IfNone, OnOk, OnErr};
ghost use Rattle.std.specs.List.{slice_get};
ghost use Rattle.wio_core.specs.Io.{Rose};
ghost use Rattle.serve_jobs.specs.Tags.{Tag, Report, IsReportOf};

use crate::job::Job;

/// Starts jobs, and gives their results in the order of the starts. It has four meanings for
/// contracts: the tags of the jobs that it started, the reports that it gave, how many reports it
/// had given at its last start, and how often it refused a start. Besides, it says of a job whether
/// it can be asked to start it: what its maker has to see to.
pub trait Spawner<J: Job> {
    ghost started: { Self → List Tag };

    ghost reports: { Self → List Report };

    ghost before_start: { Self → ℕ };

    ghost refusal_count: { Self → ℕ };

    ghost ready: { Self → J → Type 0 };

    /// Starts the job, or hands it back.
    fn start(&mut self, job: J) -> Result<(), J>
        requires { ready self.old job }
        ensures started { OnOk result (started self.new ≡ started self.old ++ J.tag job ∷ []) }
        ensures before { OnOk result (before_start self.new ≡ length (reports self.old)) }
        ensures reports { reports self.new ≡ reports self.old }
        ensures back { IfErr result (λ refused. refused ≡ job) }
        ensures none { OnErr result (started self.new ≡ started self.old) }
        ensures stays { OnErr result (before_start self.new ≡ before_start self.old) }
        ensures never_falls { refusal_count self.old ≤ refusal_count self.new }
        ensures cause { OnErr result (Rose (refusal_count self.old) (refusal_count self.new)) }
        ensures no_refusal { OnOk result (refusal_count self.new ≡ refusal_count self.old) };

    /// Waits for the first job that was started and whose result wasn't given yet, and gives its
    /// result; none, where every result was given.
    fn next_done(&mut self) -> Option<J::Done>
        ensures next { IfSome result (λ done.
            slice_get (started self.old) (length (reports self.old)) ≡ Some (J.done_tag done)) }
        ensures report { IfSome result (λ done. IsReportOf (J.done_tag done) (J.report done)) }
        ensures given { IfSome result (λ done.
            reports self.new ≡ reports self.old ++ J.report done ∷ []) }
        ensures all { IfNone result (length (reports self.old) ≡ length (started self.old)) }
        ensures none { IfNone result (reports self.new ≡ reports self.old) }
        ensures started { started self.new ≡ started self.old }
        ensures before { before_start self.new ≡ before_start self.old }
        ensures never_falls { refusal_count self.old ≤ refusal_count self.new }
        ensures no_refusal { refusal_count self.new ≡ refusal_count self.old };

    /// How many starts were refused so far, up to the greatest `u64`, where the count stands still.
    fn refusals(&self) -> u64
        ensures { result ≡ refusal_count self.now };
}
