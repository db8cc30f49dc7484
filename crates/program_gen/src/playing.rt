//! Steps played through the shared state of all peers.
ghost use Rattle.std.specs.Prelude.{◌≡◌, length, true, OnOk};
ghost use Rattle.broker_steps.specs.Ranges.{IsStep, IsWithin, piece_limit};
ghost use Rattle.broker_model.specs.Ids.{peer_at};
ghost use Rattle.broker_model.specs.Resolve.{past_of};
ghost use Rattle.broker_core.specs.declared.taking.Standing.TheVariants.{Alive};
ghost use Rattle.broker_core.specs.Broker.{entry_of, IsSaid, IsWatched};
ghost use Rattle.broker_core.specs.Taking.{lives, standing_of};
ghost use Rattle.seat_set.specs.Playing.{IsShort, IsThere};
ghost use Rattle.program_gen.specs.Steps.{entered, after_join, after_take, after_step};
ghost use Rattle.program_gen.specs.Room.{HasRoom};

use broker_core::{JoinRefusal, Refused, Shared, Standing, Took, Watch};
use broker_steps::{Stamp, Step};
use relay_model::Role;
use seat_set::keep_short;
use wio_core::NoMemory;

/// A generated session is of form 1, whose steps have no stamps.
const UNSTAMPED: Stamp = Stamp {
    moment: 0,
    author: 0,
};

/// The most bytes that one take asks for.
const PIECE: usize = 4_096;

/// The most tokens that go with them.
const PLACES: usize = 256;

// A peer joins, unless 64 are alive.
fn join<W: Watch>(shared: &mut Shared, role: Role, watch: &mut W) -> Result<(), NoMemory>
    requires room { HasRoom shared.old.limits shared.old.journal }
    ensures ok { OnOk result (shared.new ≡ record shared.new {
      limits = shared.old.limits;
      journal = after_join shared.old.limits.store role shared.old.journal;
    }) }
    ensures watched { IsWatched W.may_follow shared.old watch.old shared.new watch.new }
{
    match shared.join_watched(role, UNSTAMPED, watch) {
        Ok(_) | Err(JoinRefusal::TooManyPeers(_)) => Ok(()),
        Err(JoinRefusal::NoMemory) => Err(NoMemory),
        Err(JoinRefusal::JournalFull(_)) => unreachable!(),
    }
}

// Whether the peer with the number joined and is alive.
fn lives(shared: &Shared, number: u32) -> bool
    ensures value { result ≡ lives shared.now.journal number }
    ensures alive { result ≡ true → standing_of shared.now.journal number ≡ Alive }
{
    matches!(shared.standing(number), Standing::Alive)
}

// A step of a live peer or of the shell.
fn apply<W: Watch>(shared: &mut Shared, step: &Step, watch: &mut W) -> Result<(), NoMemory>
    requires room { HasRoom shared.old.limits shared.old.journal }
    requires step { IsStep step.now }
    requires said { IsSaid step.now }
    requires there { IsThere step.now shared.old.journal }
    ensures ok { OnOk result (shared.new ≡ record shared.new {
      limits = shared.old.limits;
      journal = entered shared.old.limits.store (entry_of step.now) shared.old.journal;
    }) }
    ensures watched { IsWatched W.may_follow shared.old watch.old shared.new watch.new }
{
    match shared.apply_watched(step, UNSTAMPED, watch) {
        Ok(_) => Ok(()),
        Err(Refused::NoMemory) => Err(NoMemory),
        Err(Refused::NoPeer | Refused::Ended(_) | Refused::JournalFull(_)) => unreachable!(),
    }
}

// The first bytes that are stored for a peer go into the buffer, if there are any.
fn take_into<W: Watch>(
    shared: &mut Shared,
    peer: u32,
    bytes: &mut [u8],
    watch: &mut W,
) -> Result<(), NoMemory>
    requires room { HasRoom shared.old.limits shared.old.journal }
    requires bytes { IsWithin piece_limit (length bytes.old) }
    ensures ok { OnOk result (shared.new ≡ record shared.new {
      limits = shared.old.limits;
      journal = after_take shared.old.limits.store peer (length bytes.old) shared.old.journal
          (peer_at (past_of shared.old.journal) peer);
    }) }
    ensures watched { IsWatched W.may_follow shared.old watch.old shared.new watch.new }
{
    let mut tokens = [0u32; PLACES];
    match shared.take_watched(peer, bytes, &mut tokens, UNSTAMPED, watch) {
        Took::Bytes(..) => Ok(()),
        Took::NoPeer | Took::Closed | Took::Empty => Ok(()),
        Took::NoMemory => Err(NoMemory),
        Took::JournalFull(_) => unreachable!(),
    }
}

// The same of so many bytes, which nobody reads.
#[inline(never)]
fn take<W: Watch>(shared: &mut Shared, peer: u32, most: u32, watch: &mut W) -> Result<(), NoMemory>
    requires room { HasRoom shared.old.limits shared.old.journal }
    requires most { IsWithin piece_limit most }
    ensures ok { OnOk result (shared.new ≡ record shared.new {
      limits = shared.old.limits;
      journal = after_take shared.old.limits.store peer most shared.old.journal
          (peer_at (past_of shared.old.journal) peer);
    }) }
    ensures watched { IsWatched W.may_follow shared.old watch.old shared.new watch.new }
{
    let mut bytes = [0u8; PIECE];
    take_into(shared, peer, &mut bytes[..most as usize], watch)
}

// Plays a step: its entry and the ends that follow, or nothing where nobody takes it. Who watches is
// told of each entry. `NoMemory` is its one error.
fn play_step<W: Watch>(shared: &mut Shared, step: &Step, watch: &mut W) -> Result<(), NoMemory>
    requires room { HasRoom shared.old.limits shared.old.journal }
    requires step { IsStep step.now }
    ensures ok { OnOk result (shared.new ≡ record shared.new {
      limits = shared.old.limits;
      journal = after_step shared.old.limits.store step.now shared.old.journal;
    }) }
    ensures watched { IsWatched W.may_follow shared.old watch.old shared.new watch.new }
{
    match step {
        Step::Join(role) => join(shared, *role, watch),
        Step::Take(peer, most) => take(shared, *peer, *most, watch),
        Step::Shell(_) => apply(shared, step, watch),
        Step::Peer(peer, _) if lives(shared, *peer) => apply(shared, step, watch),
        Step::Peer(..) => Ok(()),
    }
}

/// Plays a step, and lets entries go where many are in memory.
pub(crate) fn play<W: Watch>(
    shared: &mut Shared,
    step: &Step,
    watch: &mut W,
) -> Result<(), NoMemory>
    requires room { HasRoom shared.old.limits shared.old.journal }
    requires step { IsStep step.now }
    ensures ok { OnOk result (shared.new ≡ record shared.new {
      limits = shared.old.limits;
      journal = after_step shared.old.limits.store step.now shared.old.journal;
    }) }
    ensures watched { IsWatched W.may_follow shared.old watch.old shared.new watch.new }
    ensures short { OnOk result (IsShort shared.new.journal shared.new.kept_from) }
{
    play_step(shared, step, watch)?;
    keep_short(shared);
    Ok(())
}
