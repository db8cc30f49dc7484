//! The steps of a session.
use crate::tokens::TokenList;
use relay_model::{Keymap, Mods, Rect, Repeat, Role, Size};
use std::alloc::Global;
use wl_wire::{Bytes, NoMemory};

/// One step of a session. Peers are numbered from 1 in the order in which they join.
#[derive(Debug, Drop)]
pub enum Step {
    /// A peer joins.
    Join(Role),
    /// The peer of that number sends something, or its link ends.
    Peer(u32, PeerStep),
    /// The shell says something.
    Shell(ShellStep),
    /// The peer of that number takes so many of the bytes that are stored for it: 1 to 4,096.
    Take(u32, u32),
}

/// One step of a peer.
#[derive(Debug, Drop)]
pub enum PeerStep {
    /// A whole message: the object that it is sent to, its opcode and its arguments' bytes, 0 to
    /// 4,088 and a multiple of 4.
    Message { id: u32, opcode: u16, body: Bytes },
    /// The header of a message whose size is under 8, above 4,096 or no multiple of 4.
    BadSize { head: [u8; 8] },
    /// The tokens of the descriptors that came with one frame, 1 to 256. They wait for the messages
    /// that take them.
    Tokens(TokenList),
    /// The peer's link ends.
    Gone,
}

/// One step of the shell. A surface is named by its peer's number and its id there.
#[derive(Clone, Copy, Debug, PartialEq, Eq)]
pub enum ShellStep {
    /// The keyboard focus goes to a surface.
    Focus { peer: u32, id: u32 },
    /// The keyboard focus goes away.
    Unfocus,
    /// Where a surface is on the screen. Pixels; the size isn't negative.
    Area { peer: u32, id: u32, rect: Rect },
    /// How large the screen is. Pixels; not negative.
    Screen { size: Size },
    /// A key of the seat's keyboard: state 0 is released, 1 pressed. The time is in milliseconds.
    Key { time: u32, key: u32, state: u32 },
    /// The modifiers of the seat's keyboard.
    Mods(Mods),
    /// The keymap of the seat's keyboard.
    Keymap(Keymap),
    /// How keys repeat.
    Repeat(Repeat),
    /// A moment has come. It tells nobody anything.
    At { moment: u64 },
}

impl PeerStep {
    ghost use Rattle.std.specs.Prelude.{◌≡◌, IfOk};

    /// The same step in memory of its own.
    pub fn copy(&self, alloc: Global) -> Result<PeerStep, NoMemory>
        ensures value { IfOk result (λ step. step ≡ self.now) }
    {
        match self {
            PeerStep::Message { id, opcode, body } => Ok(PeerStep::Message {
                id: *id,
                opcode: *opcode,
                body: body.copy(alloc)?,
            }),
            PeerStep::BadSize { head } => Ok(PeerStep::BadSize { head: *head }),
            PeerStep::Tokens(tokens) => Ok(PeerStep::Tokens(tokens.copy(alloc)?)),
            PeerStep::Gone => Ok(PeerStep::Gone),
        }
    }
}

impl Step {
    ghost use Rattle.std.specs.Prelude.{◌≡◌, IfOk};

    /// The same step in memory of its own.
    pub fn copy(&self, alloc: Global) -> Result<Step, NoMemory>
        ensures value { IfOk result (λ step. step ≡ self.now) }
    {
        match self {
            Step::Join(role) => Ok(Step::Join(*role)),
            Step::Peer(peer, step) => Ok(Step::Peer(*peer, step.copy(alloc)?)),
            Step::Shell(step) => Ok(Step::Shell(*step)),
            Step::Take(peer, count) => Ok(Step::Take(*peer, *count)),
        }
    }
}
