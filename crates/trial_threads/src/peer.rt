//! A user's peer begins: it joins, and sends its set-up.
ghost use Rattle.std.specs.Prelude.{◌≡◌, ◌≤◌, ◌<◌, ◌^◌, ℕ, List, length, Err, IfOk, IfErr, OnOk, OnErr};
ghost use Rattle.client_side.specs.Messages.{Sent, spelled};
ghost use Rattle.turn_lock.specs.Pairs.{own, NoneOf};
ghost use Rattle.hub_lock.specs.Passes.{IsOf, steps_of};
ghost use Rattle.hub_lock.specs.Calls.{IsJoined, pass_having_seen};
ghost use Rattle.hub_calls.specs.Made.{SawMore};
ghost use Rattle.trial_typing.specs.Sending.{HasMade, IsBegun};
ghost use Rattle.trial_threads.specs.Begun.{HasBegun};
ghost use Rattle.trial_threads.specs.NoJobs.{HasCause, IsWithout, count_in};

use crate::back::give_back;
use crate::no_job::NoJob;
use hub_calls::submit_messages;
use hub_lock::{Hub, HubPass, ReaderPass, WriterPass};
use relay_model::Role;
use std::alloc::Global;
use std::sync::Wait;

// A peer joins in this role.
fn join_peer<R: Wait>(
    rt: &R,
    hub: &Hub,
    root: &mut HubPass,
    role: Role,
) -> Result<(ReaderPass, WriterPass), NoJob>
    requires own { IsOf hub.now root.old }
    requires room { root.old.next ≤ 2 ^ 63 }
    ensures joined { IfOk result (λ both.
        IsJoined hub.now.limits root.old root.new role both.0 both.1) }
    ensures fresh { IfOk result (λ both. NoneOf both.0.seat.number both.0.seat.seen ×
        NoneOf both.1.seat.number both.1.seat.seen) }
    ensures none { IfErr result (λ why.
        (most : ℕ) → IsWithout hub.now root.old root.new most why) }
    ensures few { length (own 0 root.old.seen) < 64 →
        (n : ℕ) → ¬ (result ≡ Err (NoJob.TooManyPeers n)) }
{
    Ok(hub.join(rt, root, role)?)
}

// Its reader submits its set-up, and nothing else so far.
fn send_setup<R: Wait>(
    rt: &R,
    alloc: Global,
    hub: &Hub,
    reader: &mut ReaderPass,
    setup: &[u8],
) -> Result<(), NoJob>
    requires own { IsOf hub.now reader.old.seat }
    requires fresh { NoneOf reader.old.seat.number reader.old.seat.seen }
    ensures pass { reader.new ≡ pass_having_seen reader.old reader.new.seat.seen }
    ensures saw { SawMore hub.now.limits reader.old.seat.seen reader.new.seat.seen }
    ensures sent { (sents : List Sent) → setup.now ≡ spelled sents →
        OnOk result (HasMade hub.now.limits reader.new sents) }
    ensures cause { IfErr result (HasCause hub.now.limits reader.new.seat.seen) }
    ensures made { OnErr result (steps_of reader.new.seat ≤ count_in setup.now) }
    ensures few { (n : ℕ) → ¬ (result ≡ Err (NoJob.TooManyPeers n)) }
{
    let _ = submit_messages(rt, alloc, hub, reader, setup)?;
    Ok(())
}

/// A peer joins in this role, and its reader submits its set-up: whole messages.
pub(crate) fn begin_peer<R: Wait>(
    rt: &R,
    alloc: Global,
    hub: &Hub,
    root: &mut HubPass,
    role: Role,
    setup: &[u8],
) -> Result<(ReaderPass, WriterPass), NoJob>
    requires own { IsOf hub.now root.old }
    requires room { root.old.next ≤ 2 ^ 63 }
    ensures begun { IfOk result (λ both.
        HasBegun hub.now.limits root.old root.new role both.0 both.1) }
    ensures ready { IfOk result (λ both. (sents : List Sent) → setup.now ≡ spelled sents →
        IsBegun hub.now role both.0 both.1 sents) }
    ensures none { IfErr result (IsWithout hub.now root.old root.new (count_in setup.now)) }
    ensures few { length (own 0 root.old.seen) < 64 →
        (n : ℕ) → ¬ (result ≡ Err (NoJob.TooManyPeers n)) }
{
    let (mut reader, writer) = join_peer(rt, hub, root, role)?;
    if let Err(why) = send_setup(rt, alloc, hub, &mut reader, setup) {
        give_back(hub, root, reader, writer);
        return Err(why);
    }
    Ok((reader, writer))
}
