//! The bytes of a peer are put together to messages, however they were cut.
ghost use Rattle.std.specs.Prelude.{◌≡◌, ℕ, ◌+◌, ◌-◌, ◌*◌, ◌<◌, ◌≤◌, ◌^◌, ◌↔◌, ◌++◌, List, []};
ghost use Rattle.std.specs.Prelude.{length, take, drop, min, vec_len, vec_capacity, IsTrue, IfOk};
ghost use Rattle.wl_wire.specs.Messages.{size_of, id_of, opcode_of, body_of, IsGoodSize, IsPartial};
ghost use Rattle.wl_wire.specs.Streams.{Assembly, Begun, bytes_of, HasMessage, HasBadSize, Feeds};
ghost use Rattle.wl_wire.specs.Streams.{HasTold, HasFed, FedOn};
ghost use Rattle.wl_wire.specs.Gathering.{Gathers, phase_of, taken_of, told_behind};

use crate::front::{is_good, raw_of, size_at};
use crate::raw::Raw;
use crate::{HEADER_SIZE, MESSAGE_LIMIT};
use std::alloc::Global;
use std::marker::Model;
use wio_core::NoMemory;

/// What a feed came to.
#[derive(Clone, Copy, Debug, PartialEq, Eq)]
pub enum Fed {
    /// The piece's first bytes, this many and at least one, completed a message. The rest of the
    /// piece is still to be fed.
    Whole(usize),
    /// All bytes of the piece were taken, and no message is whole.
    Need,
    /// A header has this size, which is under 8, above 4,096 or no multiple of 4.
    BadSize(usize),
}

// What the bytes that are held are.
#[derive(Clone, Copy, Debug, PartialEq, Eq)]
enum Phase {
    Open,
    Whole,
    Bad,
}

/// Puts the bytes of one peer together to messages. It holds at most one message, of at most 4,096 bytes, and never
/// looks at a byte twice.
#[derive(Debug, Drop)]
pub struct Assembler {
    held: Vec<u8>,
    phase: Phase,
}

impl Model for Assembler {
    ghost use Rattle.std.specs.Prelude.{◌≡◌, ◌≤◌, vec_capacity, length};
    ghost use Rattle.wl_wire.specs.Streams.{Assembly, assembly};
    ghost use Rattle.wl_wire.specs.Messages.{IsPartial, IsBad};
    ghost use Rattle.wl_wire.specs.declared.assembler.Phase.TheVariants.{Open, Bad};

    ghost Value = { Assembly };

    ghost view = { λ a. assembly a.phase a.held.items };

    ghost invariant = { λ a. (4096 ≤ vec_capacity a.held)
        × (a.phase ≡ Open → IsPartial a.held.items)
        × (a.phase ≡ Bad → IsBad a.held.items × (length a.held.items ≡ 8)) };
}

// Takes bytes of the piece until as many as the target are held, and says how many.
fn fill(held: &mut Vec<u8>, target: usize, piece: &[u8]) -> usize
    requires below { vec_len held.old ≤ target }
    requires room { target ≤ vec_capacity held.old }
    ensures count { result ≡ min (target - vec_len held.old) (length piece.now) }
    ensures held { held.new.items ≡ held.old.items ++ take result piece.now }
    ensures capacity { vec_capacity held.old ≤ vec_capacity held.new }
{
    let count = (target - held.len()).min(piece.len());
    let filled = held.extend_from_slice(&piece[..count]);
    prove!(filled.is_ok());
    count
}

// The body of a message whose header is held.
#[tactic(auto, using(crate::proofs::SizeInHeader::size_stays))]
fn gather_body(held: &mut Vec<u8>, piece: &[u8]) -> Fed
    requires header { 8 ≤ length held.old.items }
    requires good { IsGoodSize (size_of held.old.items) }
    requires below { length held.old.items ≤ size_of held.old.items }
    requires room { 4096 ≤ vec_capacity held.old }
    ensures gathered { Gathers held.old.items piece.now result held.new.items }
    ensures capacity { 4096 ≤ vec_capacity held.new }
    ensures good { IsGoodSize (size_of held.new.items) }
{
    let size = size_at(held);
    let count = fill(held, size, piece);
    if held.len() < size {
        Fed::Need
    } else {
        Fed::Whole(count)
    }
}

// What was told of the rest of a piece, told of the whole.
fn behind(used: usize, fed: Fed) -> Fed
    requires { taken_of fed + used < 2 ^ 63 }
    ensures { result ≡ told_behind used fed }
{
    match fed {
        Fed::Whole(more) => Fed::Whole(used + more),
        Fed::Need => Fed::Need,
        Fed::BadSize(size) => Fed::BadSize(size),
    }
}

// A message that isn't whole goes on: first its header, and then its body.
#[tactic(auto, using(crate::proofs::PiecesGathered::head_is))]
fn gather(held: &mut Vec<u8>, piece: &[u8]) -> Fed
    requires partial { IsPartial held.old.items }
    requires room { 4096 ≤ vec_capacity held.old }
    ensures gathered { Gathers held.old.items piece.now result held.new.items }
    ensures capacity { 4096 ≤ vec_capacity held.new }
{
    if held.len() >= HEADER_SIZE {
        return gather_body(held, piece);
    }
    let used = fill(held, HEADER_SIZE, piece);
    if held.len() < HEADER_SIZE {
        return Fed::Need;
    }
    let size = size_at(held);
    if !is_good(size) {
        return Fed::BadSize(size);
    }
    let (_, rest) = piece.split_at(used);
    let fed = gather_body(held, rest);
    behind(used, fed)
}

fn phase_after(fed: &Fed) -> Phase
    ensures { result ≡ phase_of fed.now }
{
    match fed {
        Fed::Whole(_) => Phase::Whole,
        Fed::Need => Phase::Open,
        Fed::BadSize(_) => Phase::Bad,
    }
}

impl Assembler {
    /// An assembler that was fed nothing. Takes its 4,096 bytes of memory here, and no more later.
    pub fn new(alloc: Global) -> Result<Assembler, NoMemory>
        ensures empty { IfOk result (λ a. a ≡ Begun []) }
        ensures fed { IfOk result (λ a. HasFed [] a) }
    {
        let held = Vec::with_capacity(alloc, MESSAGE_LIMIT)?;
        Ok(Assembler {
            held,
            phase: Phase::Open,
        })
    }

    fn gather_piece(&mut self, piece: &[u8]) -> Fed
        ensures { Feeds self.old piece.now result self.new }
    {
        match self.phase {
            Phase::Bad => return Fed::BadSize(size_at(&self.held)),
            Phase::Whole => self.held.clear(),
            Phase::Open => {}
        }
        let fed = gather(&mut self.held, piece);
        self.phase = phase_after(&fed);
        fed
    }

    /// Takes bytes of the piece up to the end of a message. After a bad size every later feed answers the same. Takes
    /// no memory.
    pub fn feed(&mut self, piece: &[u8]) -> Fed
        ensures one { Feeds self.old piece.now result self.new }
        ensures ready { HasTold result self.new }
        ensures all { (stream : List ℕ) → HasFed stream self.old →
            FedOn stream piece.now result self.new }
    {
        self.gather_piece(piece)
    }

    /// The message that the last feed completed. Takes no memory.
    pub fn message(&self) -> Raw<'_>
        requires { HasMessage self.now }
        ensures id { result.id ≡ id_of (bytes_of self.now) }
        ensures opcode { result.opcode ≡ opcode_of (bytes_of self.now) }
        ensures body { result.body.now ≡ body_of (bytes_of self.now) }
    {
        raw_of(self.held.as_slice())
    }

    /// The header whose size is bad, after a feed that told so. Takes no memory.
    pub fn head(&self) -> [u8; 8]
        requires { HasBadSize self.now }
        ensures header { result ≡ bytes_of self.now }
    {
        let held = self.held.as_slice();
        [
            held[0], held[1], held[2], held[3], held[4], held[5], held[6], held[7],
        ]
    }
}
