//! What waits of a peer's bytes, and the next step that a piece gives behind it.
ghost use Rattle.std.specs.Prelude.{◌≡◌, ◌++◌, [], IfOk, IfSome};
ghost use Rattle.wl_wire.specs.Messages.{id_of, opcode_of, body_of};
ghost use Rattle.wl_wire.specs.Streams.{Begun, begun, bytes_of, HasMessage};
ghost use Rattle.broker_cutter.specs.Cuts.{IsFirst, Cuts};

use broker_model::NoMemory;
use std::alloc::Global;
use std::marker::Model;
use wl_wire::{Assembler, Fed, Front, Raw, front_of};

/// The next step that a piece gives, behind the bytes that wait.
#[derive(Clone, Copy, Debug)]
pub enum Cut<'a> {
    /// A message that stands whole in the piece, lent, and how many of the piece's bytes it has. What follows them is
    /// still to be cut.
    Message(Raw<'a>, usize),
    /// A message whose front had waited: the piece's first bytes, this many and at least one, are its end. It is held,
    /// and `held` lends it. What follows them is still to be cut.
    Held(usize),
    /// No step yet: all bytes wait for more.
    Nothing,
    /// A header with a bad size, the last step of the peer.
    BadSize([u8; 8]),
}

/// Cuts the bytes of one peer into its steps, however they come. It holds at most one message, of at most 4,096 bytes,
/// and copies no byte of a message that stands whole in a piece. In contracts it is what it holds, as an `Assembler` is:
/// `begun` says which bytes wait.
#[derive(Drop)]
pub struct Cutter {
    assembler: Assembler,
    // Nothing waits for more.
    is_clear: bool,
}

impl Model for Cutter {
    ghost use Rattle.std.specs.Prelude.{◌≡◌, true, []};
    ghost use Rattle.wl_wire.specs.Streams.{Assembly, begun};

    ghost Value = { Assembly };

    ghost view = { λ c. c.assembler };

    ghost invariant = { λ c. c.is_clear ≡ true → begun c.assembler ≡ [] };
}

impl Cutter {
    /// A cutter of a peer that sent nothing. Takes 4,096 bytes of memory here, and no more later.
    pub fn new(alloc: Global) -> Result<Cutter, NoMemory>
        ensures empty { IfOk result (λ c. c ≡ Begun []) }
    {
        Ok(Cutter {
            assembler: Assembler::new(alloc)?,
            is_clear: true,
        })
    }

    /// The message that the piece begins with, lent, and how many of its bytes it has, where that is the next step:
    /// where no bytes wait, and the message is whole. Nothing changes by it. Takes no memory.
    #[inline(always)]
    pub fn front<'a>(&self, piece: &'a [u8]) -> Option<(Raw<'a>, usize)>
        ensures { IfSome result (λ found.
            IsFirst found.0.id found.0.opcode found.0.body.now (begun self.now ++ piece.now)
            piece.now found.1 (begun self.now)) }
    {
        if self.is_clear {
            match front_of(piece) {
                Front::Whole(raw, used) => Some((raw, used)),
                Front::Part | Front::BadSize => None,
            }
        } else {
            None
        }
    }

    // The same by way of the assembler.
    #[inline(never)]
    fn go_on<'a>(&mut self, piece: &'a [u8]) -> Cut<'a>
        ensures { Cuts self.old piece.now result self.new }
    {
        self.is_clear = false;
        match self.assembler.feed(piece) {
            Fed::Whole(used) => {
                self.is_clear = true;
                Cut::Held(used)
            }
            Fed::Need => Cut::Nothing,
            Fed::BadSize(_) => Cut::BadSize(self.assembler.head()),
        }
    }

    /// The next step that the piece gives. After a message the rest of the piece is cut next; after a bad size each
    /// piece gives it again. Takes no memory.
    pub fn next<'a>(&mut self, piece: &'a [u8]) -> Cut<'a>
        ensures { Cuts self.old piece.now result self.new }
    {
        match self.front(piece) {
            Some((raw, used)) => Cut::Message(raw, used),
            None => self.go_on(piece),
        }
    }

    /// The message that `Held` told of. Takes no memory.
    pub fn held(&self) -> Raw<'_>
        requires { HasMessage self.now }
        ensures id { result.id ≡ id_of (bytes_of self.now) }
        ensures opcode { result.opcode ≡ opcode_of (bytes_of self.now) }
        ensures body { result.body.now ≡ body_of (bytes_of self.now) }
    {
        self.assembler.message()
    }
}
