//! The steps of a peer, taken one after the other.
ghost use Rattle.std.specs.Prelude.{◌≡◌, ◌≤◌, ◌++◌, ◌∷◌, [], length};
ghost use Rattle.wl_wire.specs.Messages.{IsBad};
ghost use Rattle.wl_wire.specs.Streams.{begun};
ghost use Rattle.broker_steps.specs.Ranges.{IsBody, IsWithin, token_limit};
ghost use Rattle.broker_model.specs.declared.journal.Entry.TheVariants as entries;
ghost use Rattle.broker_cutter.specs.Steps.{steps_in};
ghost use Rattle.c_broker.specs.Steps.{Plays, Hearing, GoesOn, Reads};

use crate::ears::Ears;
use broker_core::{Refused, Shared, Standing};
use broker_cutter::{Cut, Cutter};
use broker_steps::{PeerStep, Stamp, Step, TokenList};
use std::alloc::Global;
use wl_wire::Raw;

// A whole message of a peer, whose body is borrowed.
fn message(
    shared: &mut Shared,
    ears: &mut Ears,
    peer: u32,
    raw: &Raw<'_>,
    stamp: Stamp,
) -> Result<(), Refused>
    requires body { IsBody raw.now.body.now }
    ensures plays { Plays peer stamp (entries.Message peer raw.now.id raw.now.opcode raw.now.body.now
        ∷ []) shared.old result shared.new }
    ensures hears { Hearing shared.old ears.old shared.new ears.new }
{
    match shared.standing(peer) {
        Standing::Nobody => Err(Refused::NoPeer),
        Standing::Over(cause) => Err(Refused::Ended(cause)),
        Standing::Alive => {
            shared.message_watched(peer, raw.id, raw.opcode, raw.body, stamp, ears)
        }
    }
}

// The header of a message with a bad size.
fn bad_size(
    shared: &mut Shared,
    ears: &mut Ears,
    peer: u32,
    head: [u8; 8],
    stamp: Stamp,
) -> Result<(), Refused>
    requires bad { IsBad head }
    ensures plays { Plays peer stamp (entries.BadSize peer head ∷ []) shared.old result
        shared.new }
    ensures hears { Hearing shared.old ears.old shared.new ears.new }
{
    let step = Step::Peer(peer, PeerStep::BadSize { head });
    match shared.apply_watched(&step, stamp, ears) {
        Ok(_) => Ok(()),
        Err(why) => Err(why),
    }
}

/// The tokens of the descriptors that came with bytes of a peer.
pub(crate) fn tokens(
    alloc: Global,
    shared: &mut Shared,
    ears: &mut Ears,
    peer: u32,
    tokens: &[u32],
    stamp: Stamp,
) -> Result<(), Refused>
    requires few { IsWithin token_limit (length tokens.now) }
    ensures plays { Plays peer stamp (entries.Tokens peer tokens.now ∷ []) shared.old result
        shared.new }
    ensures hears { Hearing shared.old ears.old shared.new ears.new }
{
    let Ok(list) = TokenList::from_slice(alloc, tokens) else {
        return Err(Refused::NoMemory);
    };
    let step = Step::Peer(peer, PeerStep::Tokens(list));
    match shared.apply_watched(&step, stamp, ears) {
        Ok(_) => Ok(()),
        Err(why) => Err(why),
    }
}

// Takes the first step that a piece of a peer's bytes gives, behind those that wait. Answers how many
// bytes of the piece it ends with, if a message is taken; none where the piece gives no step more.
fn first(
    shared: &mut Shared,
    ears: &mut Ears,
    cutter: &mut Cutter,
    peer: u32,
    piece: &[u8],
    stamp: Stamp,
) -> Result<Option<usize>, Refused>
    ensures goes { GoesOn peer stamp (begun cutter.old ++ piece.now) piece.now shared.old result
        shared.new (begun cutter.new) }
    ensures hears { Hearing shared.old ears.old shared.new ears.new }
{
    match cutter.next(piece) {
        Cut::Message(raw, used) => match message(shared, ears, peer, &raw, stamp) {
            Ok(()) => Ok(Some(used)),
            Err(why) => Err(why),
        },
        Cut::Held(used) => match message(shared, ears, peer, &cutter.held(), stamp) {
            Ok(()) => Ok(Some(used)),
            Err(why) => Err(why),
        },
        Cut::Nothing => Ok(None),
        Cut::BadSize(head) => match bad_size(shared, ears, peer, head, stamp) {
            Ok(()) => Ok(None),
            Err(why) => Err(why),
        },
    }
}

/// Takes each step that a piece of a peer's bytes gives, behind those that wait.
pub(crate) fn bytes(
    shared: &mut Shared,
    ears: &mut Ears,
    cutter: &mut Cutter,
    peer: u32,
    piece: &[u8],
    stamp: Stamp,
) -> Result<(), Refused>
    ensures plays { Plays peer stamp (steps_in peer (begun cutter.old ++ piece.now)) shared.old
        result shared.new }
    ensures reads { Reads peer (begun cutter.old ++ piece.now) result (begun cutter.new) }
    ensures hears { Hearing shared.old ears.old shared.new ears.new }
{
    let mut rest = piece;
    'messages: loop {
        match first(shared, ears, cutter, peer, rest, stamp) {
            Ok(Some(used)) => {
                let (_, more) = rest.split_at(used);
                rest = more;
            }
            Ok(None) => return Ok(()),
            Err(why) => return Err(why),
        }
    }
}
