//! The passes of a hub's users.
ghost use Rattle.std.specs.Prelude.{◌≡◌, ◌+◌, length, Some};
ghost use Rattle.hub_lock.specs.Histories.{reader_of, writer_of};
ghost use Rattle.hub_lock.specs.Passes.{journal_seen, steps_of, bytes_of};
ghost use Rattle.hub_lock.specs.Passes.{total_steps, total_bytes, HasSeenLawful};

use crate::noted_state::NotedState;
use crate::room::Room;
use broker_audience::Past;
use broker_core::LetGo;
use std::marker::Model;
use turn_lock::Seat;

/// A seat at the hub's lock, with how many steps its calls made, and how many entries the journal
/// had that it has seen.
#[derive(Drop)]
pub(crate) struct Member {
    pub(crate) seat: Seat<NotedState>,
    pub(crate) steps: u64,
    pub(crate) entries: u32,
}

impl Model for Member {
    ghost use Rattle.std.specs.Prelude.{◌≡◌, length};
    ghost use Rattle.hub_lock.specs.Passes.{PassSeat, HasSeenLawful, journal_seen, steps_of};
    ghost use Rattle.hub_lock.specs.Events.{pass_seat};

    ghost Value = { PassSeat };

    ghost view = { λ m. pass_seat m.seat };

    ghost invariant = { λ m. (m.steps ≡ steps_of (pass_seat m.seat)) ×
        (m.entries ≡ length (journal_seen (pass_seat m.seat))) ×
        HasSeenLawful (pass_seat m.seat) };
}

/// The pass of a peer's reader: it gives the peer's steps.
#[derive(Drop)]
pub struct ReaderPass {
    pub(crate) member: Member,
    pub(crate) peer: u32,
}

impl Model for ReaderPass {
    ghost use Rattle.std.specs.Prelude.{◌≡◌, Some};
    ghost use Rattle.hub_lock.specs.Passes.{PeerPass, bytes_of};
    ghost use Rattle.hub_lock.specs.Histories.{reader_of};

    ghost Value = { PeerPass };

    ghost view = { λ p. record { seat = p.member; peer = p.peer } };

    ghost invariant = { λ p. (reader_of p.member.seen p.peer ≡ Some p.member.number) ×
        (bytes_of p.member ≡ 0) };
}

/// The pass of a peer's writer: it takes what is stored for the peer.
#[derive(Drop)]
pub struct WriterPass {
    pub(crate) member: Member,
    pub(crate) peer: u32,
    pub(crate) bytes: u64,
    // Where takes into a caller's buffers put what they take, before it is copied.
    pub(crate) room: Room,
}

impl Model for WriterPass {
    ghost use Rattle.std.specs.Prelude.{◌≡◌, Some};
    ghost use Rattle.hub_lock.specs.Passes.{PeerPass, bytes_of};
    ghost use Rattle.hub_lock.specs.Histories.{writer_of};

    ghost Value = { PeerPass };

    ghost view = { λ p. record { seat = p.member; peer = p.peer } };

    ghost invariant = { λ p. (writer_of p.member.seen p.peer ≡ Some p.member.number) ×
        (p.bytes ≡ bytes_of p.member) };
}

/// A pass of the shell: it gives the shell's orders.
#[derive(Drop)]
pub struct ShellPass {
    pub(crate) member: Member,
}

impl Model for ShellPass {
    ghost use Rattle.std.specs.Prelude.{◌≡◌};
    ghost use Rattle.hub_lock.specs.Passes.{PassSeat, bytes_of};

    ghost Value = { PassSeat };

    ghost view = { λ p. p.member };

    ghost invariant = { λ p. bytes_of p.member ≡ 0 };
}

/// The pass of who records: the entries are handed out to it. Contracts see which they are, the newest
/// first; they aren't kept.
#[derive(Drop)]
pub struct RecorderPass {
    pub(crate) seat: Seat<NotedState>,
    pub(crate) entries: u32,
    pub(crate) count: u32,
    pub(crate) handed: Past<LetGo>,
}

impl Model for RecorderPass {
    ghost use Rattle.std.specs.Prelude.{◌≡◌, length};
    ghost use Rattle.hub_lock.specs.Passes.{Recorder, HasSeenLawful, journal_seen};
    ghost use Rattle.hub_lock.specs.Events.{pass_seat};
    ghost use Rattle.hub_lock.specs.Recording.{HasFront, Records, recorder};

    ghost Value = { Recorder };

    ghost view = { λ p. recorder (pass_seat p.seat) p.handed };

    ghost invariant = { λ p. (p.count ≡ length p.handed) ×
        (p.entries ≡ length (journal_seen (pass_seat p.seat))) ×
        HasSeenLawful (pass_seat p.seat) ×
        HasFront (recorder (pass_seat p.seat) p.handed) ×
        Records p.seat p.handed };
}

/// The root of a hub's passes: peers join by it, and it makes the other passes and takes them back.
#[derive(Drop)]
pub struct HubPass {
    pub(crate) seat: Seat<NotedState>,
    pub(crate) steps: u64,
    pub(crate) bytes: u64,
    pub(crate) entries: u32,
}

impl Model for HubPass {
    ghost use Rattle.std.specs.Prelude.{◌≡◌, length};
    ghost use Rattle.hub_lock.specs.Passes.{PassSeat, HasSeenLawful, journal_seen};
    ghost use Rattle.hub_lock.specs.Passes.{total_steps, total_bytes};
    ghost use Rattle.hub_lock.specs.Events.{root_seat, RecordsByAnother};

    ghost Value = { PassSeat };

    ghost view = { λ p. root_seat p.seat };

    ghost invariant = { λ p. (p.seat.number ≡ 0) × (p.steps ≡ total_steps (root_seat p.seat)) ×
        (p.bytes ≡ total_bytes (root_seat p.seat)) ×
        (p.entries ≡ length (journal_seen (root_seat p.seat))) ×
        HasSeenLawful (root_seat p.seat) × RecordsByAnother p.seat };
}

/// A pass that is given back.
#[derive(Drop)]
pub enum Pass {
    /// That of a peer's reader.
    Reader(ReaderPass),
    /// That of a peer's writer.
    Writer(WriterPass),
    /// That of a shell's link.
    Shell(ShellPass),
    /// That of who records.
    Recorder(RecorderPass),
}

impl ReaderPass {
    /// The peer's number, from 1. In what the pass has seen, the peer joined with this reader.
    /// (no memory)
    pub fn peer(&self) -> u32
        ensures peer { result ≡ self.now.peer }
        ensures reads { reader_of self.now.seat.seen result ≡ Some self.now.seat.number }
    {
        self.peer
    }

    /// How many steps its calls made. (no memory)
    pub fn steps(&self) -> u64
        ensures { result ≡ steps_of self.now.seat }
    {
        self.member.steps
    }

    /// How many entries the journal had that it has seen. (no memory)
    pub fn seen(&self) -> u32
        ensures { result ≡ length (journal_seen self.now.seat) }
    {
        self.member.entries
    }
}

impl WriterPass {
    /// The peer's number, from 1. In what the pass has seen, the peer joined with this writer.
    /// (no memory)
    pub fn peer(&self) -> u32
        ensures peer { result ≡ self.now.peer }
        ensures writes { writer_of self.now.seat.seen result ≡ Some self.now.seat.number }
    {
        self.peer
    }

    /// How many takes its calls made. (no memory)
    pub fn steps(&self) -> u64
        ensures { result ≡ steps_of self.now.seat }
    {
        self.member.steps
    }

    /// How many bytes they took. (no memory)
    pub fn bytes(&self) -> u64
        ensures { result ≡ bytes_of self.now.seat }
    {
        self.bytes
    }

    /// How many entries the journal had that it has seen. (no memory)
    pub fn seen(&self) -> u32
        ensures { result ≡ length (journal_seen self.now.seat) }
    {
        self.member.entries
    }
}

impl ShellPass {
    /// How many steps its calls made. (no memory)
    pub fn steps(&self) -> u64
        ensures { result ≡ steps_of self.now }
    {
        self.member.steps
    }

    /// How many entries the journal had that it has seen. (no memory)
    pub fn seen(&self) -> u32
        ensures { result ≡ length (journal_seen self.now) }
    {
        self.member.entries
    }
}

impl HubPass {
    /// How many steps were made by its calls, and by those of the passes that it took back.
    /// (no memory)
    pub fn steps(&self) -> u64
        ensures { result ≡ total_steps self.now }
    {
        self.steps
    }

    /// How many bytes the writers' passes took that it took back. (no memory)
    pub fn bytes(&self) -> u64
        ensures { result ≡ total_bytes self.now }
    {
        self.bytes
    }

    /// How many entries the journal had that it has seen, which is lawful. (no memory)
    pub fn seen(&self) -> u32
        ensures number { result ≡ length (journal_seen self.now) }
        ensures lawful { HasSeenLawful self.now }
    {
        self.entries
    }

    /// How many passes were made from it so far. (no memory)
    pub fn made(&self) -> u64
        ensures { self.now.next ≡ result + 1 }
    {
        self.seat.made()
    }
}

impl Pass {
    ghost use Rattle.hub_lock.specs.Finished.{seat_of};

    // Its seat with its counts, and how many bytes its calls took.
    pub(crate) fn into_parts(self) -> (Member, u64)
        ensures member { result.0 ≡ seat_of self }
        ensures bytes { result.1 ≡ bytes_of (seat_of self) }
    {
        match self {
            Pass::Reader(ReaderPass { member, peer: _ }) => (member, 0),
            Pass::Writer(
                WriterPass {
                    member,
                    peer: _,
                    bytes,
                    room: _,
                },
            ) => (member, bytes),
            Pass::Shell(ShellPass { member }) => (member, 0),
            Pass::Recorder(
                RecorderPass {
                    seat,
                    entries,
                    count: _,
                    handed: _,
                },
            ) => (
                Member {
                    seat,
                    steps: 0,
                    entries,
                },
                0,
            ),
        }
    }
}
