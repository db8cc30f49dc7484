//! The results come back.
ghost use Rattle.std.specs.Prelude.{◌≡◌, ◌≤◌, ◌+◌, ◌++◌, ℕ, List};
ghost use Rattle.std.specs.Prelude.{length, map, take, drop};
ghost use Rattle.turn_lock.specs.Pairs.{HasSeen, IsIn};
ghost use Rattle.serve_jobs.specs.LinkTags.{done_tag, done_report};
ghost use Rattle.serve_jobs.specs.LinkTags.{reader_report, writer_report, shell_report};
ghost use Rattle.hub_lock.specs.Passes.{IsOf};
ghost use Rattle.serve_jobs.specs.Tags.{Report};
ghost use Rattle.serve_run.specs.LinkJobs.{IsOnHub, AreOnHub, job_reported, job_tagged};
ghost use Rattle.serve_run.specs.Reported.{HasLaw, HaveLaws, AreTaken};
ghost use Rattle.serve_run.specs.Started.{IsRootOf, IsGivenBack};
ghost use Rattle.serve_run.specs.Statuses.{worst};
ghost use Rattle.serve_run.specs.Unserved.{pushed};

use crate::stop::{Trouble, trouble_of};
use hub_lock::{Gate, Hub, HubPass, Pass};
use serve_jobs::{LinkDone, LinkJob, ReaderDone, ShellDone, Spawner, WriterDone};
use serve_net::{LinkSink, LinkSource};
use wio_core::Source;

// Takes the pass of a reader back: its report has its law for all that the root has then seen.
fn take_reader<S: Source + Drop>(hub: &Hub, root: &mut HubPass, done: ReaderDone<S>)
    requires root { IsRootOf hub.now root.old }
    requires own { IsOf hub.now done.pass.seat }
    ensures back { IsGivenBack hub.now root.old root.new (reader_report done).number }
    ensures law { HasLaw hub.now.limits root.new.seen (reader_report done) }
{
    let _peer = done.pass.peer();
    hub.finish(root, Pass::Reader(done.pass));
}

// Takes the pass of a writer back: its report has its law for all that the root has then seen.
fn take_writer<K: LinkSink>(hub: &Hub, root: &mut HubPass, done: WriterDone<K>)
    requires root { IsRootOf hub.now root.old }
    requires own { IsOf hub.now done.pass.seat }
    ensures back { IsGivenBack hub.now root.old root.new (writer_report done).number }
    ensures law { HasLaw hub.now.limits root.new.seen (writer_report done) }
{
    let _peer = done.pass.peer();
    hub.finish(root, Pass::Writer(done.pass));
}

// Takes the pass of a shell back: its report has its law for all that the root has then seen.
fn take_shell<S: Source + Drop, K: LinkSink>(hub: &Hub, root: &mut HubPass, done: ShellDone<S, K>)
    requires root { IsRootOf hub.now root.old }
    requires own { IsOf hub.now done.pass }
    ensures back { IsGivenBack hub.now root.old root.new (shell_report done).number }
    ensures law { HasLaw hub.now.limits root.new.seen (shell_report done) }
{
    hub.finish(root, Pass::Shell(done.pass));
}

// Takes a result's pass back: its report has its law for all that the root has then seen.
fn take_result<S: Source + Drop, K: LinkSink>(hub: &Hub, root: &mut HubPass, done: LinkDone<S, K>)
    requires root { IsRootOf hub.now root.old }
    requires own { IsOnHub hub.now (done_tag done) }
    ensures back { IsGivenBack hub.now root.old root.new (done_report done).number }
    ensures law { HasLaw hub.now.limits root.new.seen (done_report done) }
{
    match done {
        LinkDone::Reader(done) => take_reader(hub, root, done),
        LinkDone::Writer(done) => take_writer(hub, root, done),
        LinkDone::Shell(done) => take_shell(hub, root, done),
    }
}

/// Takes all results, takes their passes back, and says what they brought. The pass of who records
/// stays out.
pub(crate) fn collect<S: LinkSource, K: LinkSink, G: Gate + Drop, W: Spawner<LinkJob<S, K, G>>>(
    hub: &Hub,
    root: &mut HubPass,
    spawner: &mut W,
) -> Trouble
    requires root { IsRootOf hub.now root.old }
    requires ours { AreOnHub hub.now (length (W.reports spawner.old)) (W.started spawner.old) }
    requires balance { root.old.out + length (W.reports spawner.old)
        ≡ length (W.started spawner.old) + 1 }
    ensures root { IsRootOf hub.now root.new }
    ensures out { root.new.out ≡ 1 }
    ensures next { root.new.next ≡ root.old.next }
    ensures mine { HasSeen root.new.seen 0 root.old.seen }
    ensures settled { (n : ℕ) → IsIn n root.old.taken →
        IsIn n root.new.taken × HasSeen root.new.seen n root.old.seen }
    ensures given { (given : List Report)
        × (W.reports spawner.new ≡ W.reports spawner.old ++ given)
        × HaveLaws hub.now.limits root.new.seen given
        × AreTaken root.new.taken given × (result ≡ worst given)
        × (map job_reported given ≡ map job_tagged (take (length given)
        (drop (length (W.reports spawner.old)) (W.started spawner.old))))
        × (root.new.taken ≡ pushed (map job_reported given) root.old.taken) }
    ensures all { length (W.reports spawner.new) ≡ length (W.started spawner.old) }
    ensures started { W.started spawner.new ≡ W.started spawner.old }
    ensures before { W.before_start spawner.new ≡ W.before_start spawner.old }
    ensures never_falls { W.refusal_count spawner.old ≤ W.refusal_count spawner.new }
    ensures no_refusal { W.refusal_count spawner.new ≡ W.refusal_count spawner.old }
{
    let mut trouble = Trouble::None;
    while let Some(done) = spawner.next_done() {
        trouble = trouble.and(trouble_of(&done));
        take_result(hub, root, done);
    }
    trouble
}
