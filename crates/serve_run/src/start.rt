//! The jobs of a link start.
ghost use Rattle.std.specs.Prelude.{◌≡◌, ◌≤◌, ◌^◌, ◌++◌, ◌∷◌, [], length, Some, None, Err};
ghost use Rattle.std.specs.Prelude.{OnOk, OnErr, IfOk, IfErr, IsSomeAnd, true};
ghost use Rattle.std.specs.Arc.{arc_value};
ghost use Rattle.wio_core.specs.Io.{Rose};
ghost use Rattle.turn_lock.specs.Pairs.{HasSeen};
ghost use Rattle.hub_lock.specs.Seats.{after_split};
ghost use Rattle.hub_lock.specs.Passes.{IsOf, steps_of};
ghost use Rattle.hub_lock.specs.Finished.{seat_of};
ghost use Rattle.hub_lock.specs.Histories.{reader_of};
ghost use Rattle.hub_lock.specs.Calls.{pass_having_seen};
ghost use Rattle.peer_link.specs.Made.{journal_of};
ghost use Rattle.serve_jobs.specs.Tags.Part.{writer};
ghost use Rattle.serve_jobs.specs.LinkTags.{job_tag};
ghost use Rattle.serve_run.specs.LinkJobs.{IsOnHub};
ghost use Rattle.serve_run.specs.Started.{IsRootOf, IsGivenBack, IsJoinedBy, IsNotJoined};
ghost use Rattle.serve_run.specs.Started.{BothStarted, LinkStarted, IsRefusal, CanJoin, Starts};
ghost use Rattle.serve_run.specs.Refused.{WasRefused, stopped};
ghost use Rattle.serve_run.specs.Unserved.{HasEnd, SaysGone, IsGoneAlone, MadeBy};

use crate::new_link::NewLink;
use crate::stop::{Stop, refused};
use broker_steps::PeerStep;
use hub_lock::{Gate, Hub, HubPass, Pass, ReaderPass, ShellPass, WriterPass};
use relay_model::Role;
use serve_jobs::{LinkJob, ReaderJob, ShellJob, Spawner, WriterJob};
use serve_net::{LinkSink, LinkSource};
use std::alloc::Global;
use std::sync::{Arc, Wait};

// Takes a pass back.
fn take_back(hub: &Hub, root: &mut HubPass, pass: Pass)
    requires root { IsRootOf hub.now root.old }
    requires own { IsOf hub.now (seat_of pass) }
    ensures back { IsGivenBack hub.now root.old root.new (seat_of pass).number }
    ensures theirs { HasSeen root.new.seen (seat_of pass).number (seat_of pass).seen }
{
    hub.finish(root, pass);
    hub.leave();
}

// Says that the link of a reader is gone that doesn't run.
fn say_gone<R: Wait>(rt: &R, hub: &Hub, pass: &mut ReaderPass)
    requires own { IsOf hub.now pass.old.seat }
    requires fresh { steps_of pass.old.seat ≡ 0 }
    ensures pass { pass.new ≡ pass_having_seen pass.old pass.new.seat.seen }
    ensures says { SaysGone pass.new }
    ensures ended { HasEnd (journal_of hub.now.limits pass.new.seat.seen) pass.new.peer }
    ensures reads { reader_of pass.new.seat.seen pass.new.peer ≡ Some pass.new.seat.number }
{
    let _ = hub.submit(rt, pass, &PeerStep::Gone);
    let _ = pass.peer();
}

// Takes back the pass of a reader that doesn't run: its peer's link is gone.
fn take_reader_back<R: Wait>(rt: &R, hub: &Hub, root: &mut HubPass, mut pass: ReaderPass)
    requires root { IsRootOf hub.now root.old }
    requires own { IsOf hub.now pass.seat }
    requires fresh { steps_of pass.seat ≡ 0 }
    ensures back { IsGivenBack hub.now root.old root.new pass.seat.number }
    ensures gone { IsGoneAlone hub.now.limits root.new.seen pass.seat.number }
{
    say_gone(rt, hub, &mut pass);
    take_back(hub, root, Pass::Reader(pass));
}

// Takes back the pass of a writer that doesn't run, and gives its link back, hung up: its reader
// would go on alone, and nobody would hear of it.
fn take_writer_back<K: LinkSink>(hub: &Hub, root: &mut HubPass, job: WriterJob<K>) -> K
    requires root { IsRootOf hub.now root.old }
    requires own { IsOf hub.now job.pass.seat }
    ensures back { IsGivenBack hub.now root.old root.new job.pass.seat.number }
    ensures theirs { HasSeen root.new.seen job.pass.seat.number job.pass.seat.seen }
    ensures hung_up { K.hung_up result ≡ true }
{
    let WriterJob {
        hub: _,
        pass,
        mut sink,
    } = job;
    sink.hang_up();
    take_back(hub, root, Pass::Writer(pass));
    sink
}

// Takes back the pass of a job that wasn't started, and gives back the link that it hung up, that
// of a writer.
fn take_job_back<R: Wait, S: LinkSource, K: LinkSink, G: Gate + Drop>(
    rt: &R,
    hub: &Hub,
    root: &mut HubPass,
    job: LinkJob<S, K, G>,
) -> Option<K>
    requires root { IsRootOf hub.now root.old }
    requires own { IsOnHub hub.now (job_tag job) }
    ensures back { IsGivenBack hub.now root.old root.new (job_tag job).number }
    ensures made { MadeBy hub.now.limits root.new.seen (job_tag job).number (job_tag job).part }
    ensures hung_up { (job_tag job).part ≡ writer →
        IsSomeAnd result (λ sink. K.hung_up sink ≡ true) }
{
    match job {
        LinkJob::Reader(job) => {
            take_reader_back(rt, hub, root, job.pass);
            None
        }
        LinkJob::Writer(job) => Some(take_writer_back(hub, root, job)),
        LinkJob::Shell(job) => {
            take_back(hub, root, Pass::Shell(job.pass));
            None
        }
    }
}

// Starts a job, or takes its pass back.
fn start_job<R: Wait, S: LinkSource, K: LinkSink, G: Gate + Drop, W: Spawner<LinkJob<S, K, G>>>(
    rt: &R,
    hub: &Hub,
    root: &mut HubPass,
    spawner: &mut W,
    job: LinkJob<S, K, G>,
) -> Result<(), Stop>
    requires ready { W.ready spawner.old job }
    requires root { IsRootOf hub.now root.old }
    requires own { IsOnHub hub.now (job_tag job) }
    ensures started { OnOk result (W.started spawner.new ≡
        W.started spawner.old ++ job_tag job ∷ []) }
    ensures same { OnOk result (root.new ≡ root.old) }
    ensures before { OnOk result (W.before_start spawner.new ≡ length (W.reports spawner.old)) }
    ensures back { OnErr result (IsGivenBack hub.now root.old root.new (job_tag job).number) }
    ensures made { OnErr result
        (MadeBy hub.now.limits root.new.seen (job_tag job).number (job_tag job).part) }
    ensures none { OnErr result (W.started spawner.new ≡ W.started spawner.old) }
    ensures stays { OnErr result (W.before_start spawner.new ≡ W.before_start spawner.old) }
    ensures reports { W.reports spawner.new ≡ W.reports spawner.old }
    ensures never_falls { W.refusal_count spawner.old ≤ W.refusal_count spawner.new }
    ensures cause { OnErr result
        (Rose (W.refusal_count spawner.old) (W.refusal_count spawner.new)) }
    ensures no_refusal { OnOk result
        (W.refusal_count spawner.new ≡ W.refusal_count spawner.old) }
    ensures why { OnErr result (result ≡ Err Stop.NoThread) }
{
    match spawner.start(job) {
        Ok(()) => Ok(()),
        Err(job) => {
            let _ = take_job_back(rt, hub, root, job);
            Err(Stop::NoThread)
        }
    }
}

// Starts a peer's reader and its writer.
fn start_both<R: Wait, S: LinkSource, K: LinkSink, G: Gate + Drop, W: Spawner<LinkJob<S, K, G>>>(
    rt: &R,
    hub: &Hub,
    root: &mut HubPass,
    spawner: &mut W,
    reader: ReaderJob<S, G>,
    writer: WriterJob<K>,
) -> Result<(), Stop>
    requires ready { (w : _) (j : _) → W.ready w j }
    requires root { IsRootOf hub.now root.old }
    requires out { 2 ≤ root.old.out }
    requires reads { IsOf hub.now reader.pass.seat }
    requires writes { IsOf hub.now writer.pass.seat }
    requires one { S.number reader.source ≡ K.number writer.sink }
    ensures started { BothStarted hub.now root.old root.new (W.started spawner.old)
        (W.started spawner.new) reader.pass.seat.number writer.pass.seat.number
        (S.number reader.source) result }
    ensures jobs { Starts W.reports W.before_start W.refusal_count spawner.old spawner.new result }
{
    if let Err(stop) = start_job(rt, hub, root, spawner, LinkJob::Reader(reader)) {
        take_back(hub, root, Pass::Writer(writer.pass));
        return Err(stop);
    }
    start_job(rt, hub, root, spawner, LinkJob::Writer(writer))
}

// Joins a peer, or says why no further links are accepted.
fn join_peer<R: Wait>(
    rt: &R,
    hub: &Hub,
    root: &mut HubPass,
    role: Role,
) -> Result<(ReaderPass, WriterPass), Stop>
    requires root { CanJoin hub.now root.old }
    ensures joined { IfOk result (λ both.
        IsJoinedBy hub.now root.old root.new role both.0 both.1) }
    ensures fresh { IfOk result (λ both.
        (steps_of both.0.seat ≡ 0) × (steps_of both.1.seat ≡ 0)) }
    ensures refused { OnErr result (IsNotJoined hub.now root.old root.new) }
    ensures why { IfErr result IsRefusal }
    ensures met { IfErr result (λ stop.
        WasRefused hub.now.limits root.new.seen (Some role) (stopped stop)) }
{
    match hub.join(rt, root, role) {
        Ok(both) => Ok(both),
        Err(why) => Err(refused(why)),
    }
}

// Shares of the hub for both jobs of a peer's link, and of the gate.
fn share_for_both<G: Gate + Drop>(
    hub: &Arc<Hub, Global>,
    gate: &Arc<G, Global>,
) -> Result<(Arc<Hub, Global>, Arc<Hub, Global>, Arc<G, Global>), Stop>
    ensures hubs { IfOk result (λ shares. (arc_value shares.0 ≡ arc_value hub.now)
        × (arc_value shares.1 ≡ arc_value hub.now)) }
    ensures why { IfErr result (λ why. why ≡ Stop.NoMemory) }
{
    let Ok(for_reader) = Arc::try_clone(hub) else {
        return Err(Stop::NoMemory);
    };
    let Ok(for_writer) = Arc::try_clone(hub) else {
        return Err(Stop::NoMemory);
    };
    let Ok(gate) = Arc::try_clone(gate) else {
        return Err(Stop::NoMemory);
    };
    Ok((for_reader, for_writer, gate))
}

// Starts the jobs of a peer that joined, or takes their passes back.
fn start_joined<R: Wait, S: LinkSource, K: LinkSink, G: Gate + Drop, W: Spawner<LinkJob<S, K, G>>>(
    rt: &R,
    alloc: Global,
    hub: &Arc<Hub, Global>,
    root: &mut HubPass,
    spawner: &mut W,
    gate: &Arc<G, Global>,
    reader: ReaderPass,
    writer: WriterPass,
    link: NewLink<S, K>,
) -> Result<(), Stop>
    requires ready { (w : _) (j : _) → W.ready w j }
    requires root { IsRootOf (arc_value hub.now) root.old }
    requires out { 2 ≤ root.old.out }
    requires reads { IsOf (arc_value hub.now) reader.seat }
    requires writes { IsOf (arc_value hub.now) writer.seat }
    requires fresh_reader { steps_of reader.seat ≡ 0 }
    requires fresh_writer { steps_of writer.seat ≡ 0 }
    ensures started { BothStarted (arc_value hub.now) root.old root.new (W.started spawner.old)
        (W.started spawner.new) reader.seat.number writer.seat.number (S.number link.source) result }
    ensures jobs { Starts W.reports W.before_start W.refusal_count spawner.old spawner.new result }
{
    let (for_reader, for_writer, gate) = match share_for_both(hub, gate) {
        Ok(shares) => shares,
        Err(stop) => {
            take_reader_back(rt, &**hub, root, reader);
            take_back(&**hub, root, Pass::Writer(writer));
            return Err(stop);
        }
    };
    let NewLink { source, sink } = link;
    let reader = ReaderJob {
        alloc,
        hub: for_reader,
        pass: reader,
        source,
        gate,
    };
    let writer = WriterJob {
        hub: for_writer,
        pass: writer,
        sink,
    };
    start_both(rt, &**hub, root, spawner, reader, writer)
}

/// Joins a peer's link, and starts its reader and its writer.
pub(crate) fn start_peer<
    R: Wait,
    S: LinkSource,
    K: LinkSink,
    G: Gate + Drop,
    W: Spawner<LinkJob<S, K, G>>,
>(
    rt: &R,
    alloc: Global,
    hub: &Arc<Hub, Global>,
    root: &mut HubPass,
    spawner: &mut W,
    gate: &Arc<G, Global>,
    role: Role,
    link: NewLink<S, K>,
) -> Result<(), Stop>
    requires ready { (w : _) (j : _) → W.ready w j }
    requires root { CanJoin (arc_value hub.now) root.old }
    ensures started { LinkStarted (arc_value hub.now) root.old root.new (W.started spawner.old)
        (W.started spawner.new) (S.number link.source) (Some role) result }
    ensures jobs { Starts W.reports W.before_start W.refusal_count spawner.old spawner.new result }
{
    match join_peer(rt, &**hub, root, role) {
        Ok((reader, writer)) => {
            start_joined(rt, alloc, hub, root, spawner, gate, reader, writer, link)
        }
        Err(stop) => Err(stop),
    }
}

// A pass for a shell's job.
fn shell_pass(hub: &Hub, root: &mut HubPass) -> ShellPass
    requires root { IsRootOf hub.now root.old }
    requires room { root.old.next ≤ 2 ^ 63 }
    ensures left { root.new ≡ after_split root.old }
    ensures root { IsRootOf hub.now root.new }
    ensures own { IsOf hub.now result }
    ensures number { result.number ≡ root.old.next }
    ensures fresh { steps_of result ≡ 0 }
{
    hub.shell(root)
}

/// Starts the job of a shell's link.
pub(crate) fn start_shell<
    R: Wait,
    S: LinkSource,
    K: LinkSink,
    G: Gate + Drop,
    W: Spawner<LinkJob<S, K, G>>,
>(
    rt: &R,
    alloc: Global,
    hub: &Arc<Hub, Global>,
    root: &mut HubPass,
    spawner: &mut W,
    link: NewLink<S, K>,
) -> Result<(), Stop>
    requires ready { (w : _) (j : _) → W.ready w j }
    requires root { IsRootOf (arc_value hub.now) root.old }
    requires room { root.old.next ≤ 2 ^ 63 }
    ensures started { LinkStarted (arc_value hub.now) root.old root.new (W.started spawner.old)
        (W.started spawner.new) (S.number link.source) None result }
    ensures jobs { Starts W.reports W.before_start W.refusal_count spawner.old spawner.new result }
{
    let pass = shell_pass(&**hub, root);
    let Ok(for_shell) = Arc::try_clone(hub) else {
        take_back(&**hub, root, Pass::Shell(pass));
        return Err(Stop::NoMemory);
    };
    let NewLink { source, sink } = link;
    let job = ShellJob {
        alloc,
        hub: for_shell,
        pass,
        source,
        sink,
    };
    start_job(rt, &**hub, root, spawner, LinkJob::<S, K, G>::Shell(job))
}
