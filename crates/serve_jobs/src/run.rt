//! The running of a link's jobs.
ghost use Rattle.std.specs.Prelude.{◌≡◌};
ghost use Rattle.hub_lock.specs.Seats.{having_seen};
ghost use Rattle.hub_lock.specs.Calls.{pass_having_seen};

use crate::done::{ReaderDone, ShellDone, WriterDone};
use crate::jobs::{ReaderJob, ShellJob, WriterJob};
use hub_lock::Gate;
use peer_link::{read_peer, read_shell, write_peer};
use serve_net::{HangsUp, LinkSink, LinkSource};
use std::sync::Wait;

/// Reads a peer's link up to its end.
pub fn run_reader<R: Wait, S: LinkSource, G: Gate + Drop>(
    rt: &R,
    job: ReaderJob<S, G>,
) -> ReaderDone<S>
    ensures pass { result.pass ≡ pass_having_seen job.pass result.pass.seat.seen }
    ensures link { result.link ≡ S.number job.source }
{
    let ReaderJob {
        alloc,
        hub,
        mut pass,
        mut source,
        gate,
    } = job;
    let link = source.link();
    let end = read_peer(rt, alloc, &*hub, &mut pass, &mut source, &*gate);
    hub.leave();
    ReaderDone {
        pass,
        source,
        end,
        link,
    }
}

/// Writes to a peer's link up to its end, and hangs up, at once where a write fails: whoever still
/// reads the link sees its end.
pub fn run_writer<R: Wait, K: LinkSink>(rt: &R, job: WriterJob<K>) -> WriterDone<K>
    ensures pass { result.pass ≡ pass_having_seen job.pass result.pass.seat.seen }
    ensures link { result.link ≡ K.number job.sink }
{
    let WriterJob {
        hub,
        mut pass,
        sink,
    } = job;
    let link = sink.link();
    let mut out = HangsUp { sink };
    let end = write_peer(rt, &*hub, &mut pass, &mut out);
    hub.leave();
    out.sink.hang_up();
    let HangsUp { sink } = out;
    WriterDone {
        pass,
        sink,
        end,
        link,
    }
}

/// Serves a shell's link up to its end, and hangs up, at once where a write fails.
pub fn run_shell<R: Wait, S: LinkSource, K: LinkSink>(
    rt: &R,
    job: ShellJob<S, K>,
) -> ShellDone<S, K>
    ensures pass { result.pass ≡ having_seen job.pass result.pass.seen }
    ensures link { result.link ≡ S.number job.source }
{
    let ShellJob {
        alloc,
        hub,
        mut pass,
        mut source,
        sink,
    } = job;
    let link = source.link();
    let mut answers = HangsUp { sink };
    let end = read_shell(rt, alloc, &*hub, &mut pass, &mut source, &mut answers);
    hub.leave();
    answers.sink.hang_up();
    let HangsUp { sink } = answers;
    ShellDone {
        pass,
        source,
        sink,
        end,
        link,
    }
}
