//! What is asked of the value behind the lock, and what it answers. A call borrows nothing.
ghost use Rattle.std.specs.Prelude.{◌≡◌, true};
ghost use Rattle.hub_lock.specs.Asked.{joins_as_root};

use crate::event::Note;
use crate::given::is_given;
use crate::room::Places;
use crate::session::{NoSession, Session};
use broker_core::{Applied, JoinRefusal, LetGo, Refused, Took};
use broker_steps::Step;
use relay_model::Role;
use std::alloc::Global;
use std::marker::Model;

/// A step of a peer or of the shell.
#[derive(Drop)]
pub struct Applying {
    step: Step,
}

impl Model for Applying {
    ghost use Rattle.broker_steps.specs.declared.step.Step.{Step};
    ghost use Rattle.broker_steps.specs.Ranges.{IsStep};
    ghost use Rattle.broker_core.specs.Broker.{IsSaid, entry_of};
    ghost use Rattle.hub_lock.specs.Steps.{IsGiven};

    ghost Value = { Step };

    ghost view = { λ a. a.step };

    ghost invariant = { λ a. IsStep a.step × IsSaid a.step × IsGiven (entry_of a.step) };
}

impl Applying {
    ghost use Rattle.std.specs.Prelude.{◌≡◌};
    ghost use Rattle.broker_steps.specs.Ranges.{IsStep};
    ghost use Rattle.broker_core.specs.Broker.{IsSaid, entry_of};
    ghost use Rattle.hub_lock.specs.Steps.{IsGiven};

    pub fn new(step: Step) -> Applying
        requires { IsStep step × IsSaid step }
        ensures { result ≡ step }
    {
        is_given(&step);
        Applying { step }
    }

    pub fn step(&self) -> &Step
        ensures same { result.now ≡ self.now }
        ensures fits { IsStep result.now × IsSaid result.now }
        ensures given { IsGiven (entry_of result.now) }
    {
        &self.step
    }
}

/// How many bytes a take may take at most: 1 to 4,096.
#[derive(Drop)]
pub struct Most {
    bytes: usize,
}

impl Model for Most {
    ghost use Rattle.std.specs.Prelude.{ℕ, ◌≤◌};

    ghost Value = { ℕ };

    ghost view = { λ m. m.bytes };

    ghost invariant = { λ m. (1 ≤ m.bytes) × (m.bytes ≤ 4096) };
}

impl Most {
    ghost use Rattle.std.specs.Prelude.{◌≡◌, ◌≤◌};

    pub fn new(bytes: usize) -> Most
        requires { (1 ≤ bytes) × (bytes ≤ 4096) }
        ensures { result ≡ bytes }
    {
        Most { bytes }
    }

    pub fn bytes(&self) -> usize
        ensures same { result ≡ self.now }
        ensures within { (1 ≤ result) × (result ≤ 4096) }
    {
        self.bytes
    }
}

/// A take for the peer: so many bytes at most, into these places. Without memory nothing is taken.
#[derive(Drop)]
pub struct Taking {
    pub peer: u32,
    pub most: Most,
    pub places: Places,
}

/// What is asked.
#[derive(Drop)]
pub enum Ask {
    /// A peer joins, whose reader's pass has that number.
    Join(Role, u64),
    Apply(Applying),
    Take(Taking),
    /// A copy of it all.
    Copy,
    /// The pass with this number is to record.
    Name(u64),
    /// The next entry for who records.
    HandOut,
}

/// What is asked, and the number of the pass that asks.
#[derive(Drop)]
pub struct Call {
    pub number: u64,
    pub ask: Ask,
    /// The root alone asks for a join.
    pub ghost joins: { joins_as_root number ask ≡ true },
}

/// What is answered, each to its ask.
#[derive(Drop)]
pub enum Answer {
    Joined(Result<u32, JoinRefusal>),
    Applied(Result<Applied, Refused>),
    Took(Took),
    Copied(Result<Session, NoSession>),
    /// The pass that records from now on; none where one does, or the root didn't ask.
    Named(Option<u64>),
    /// The next entry, which the journal let go; none where there are no more, or another pass asks.
    HandedOut(Option<LetGo>),
}

/// The answer, the bells to ring, and how many entries the journal then has.
#[derive(Drop)]
pub struct Reply {
    pub answer: Answer,
    pub rings: u64,
    pub entries: u32,
}

impl Ask {
    ghost use Rattle.std.specs.Prelude.{◌≡◌};
    ghost use Rattle.hub_lock.specs.declared.call.Ask.TheVariants as asks;
    ghost use Rattle.hub_lock.specs.declared.call.Taking.{Taking};

    /// The places of a take; there are none in another ask.
    pub fn into_places(self, alloc: Global) -> Places
        ensures { (t : Taking) → self ≡ asks.Take t → result ≡ t.places }
    {
        match self {
            Ask::Take(taking) => taking.places,
            _ => Places::none(alloc),
        }
    }
}

impl Answer {
    ghost use Rattle.std.specs.Prelude.{◌≡◌};
    ghost use Rattle.hub_lock.specs.Plays.{is_made};
    ghost use Rattle.hub_lock.specs.Noted.{note_of};

    /// Whether it says that a step was made.
    pub fn is_made(&self) -> bool
        ensures { result ≡ is_made self.now }
    {
        match self {
            Answer::Joined(joined) => joined.is_ok(),
            Answer::Applied(applied) => applied.is_ok(),
            Answer::Took(Took::Bytes(_, _)) => true,
            Answer::Took(_) | Answer::Copied(_) | Answer::Named(_) | Answer::HandedOut(_) => false,
        }
    }

    /// What it notes of who records.
    pub fn note(&self) -> Option<Note>
        ensures { result ≡ note_of self.now }
    {
        match self {
            Answer::Named(Some(number)) => Some(Note::Names(*number)),
            Answer::HandedOut(Some(_)) => Some(Note::HandsOut),
            _ => None,
        }
    }
}
