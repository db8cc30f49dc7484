//! The value behind the lock: the shared state of all peers, and who their readers are.
ghost use Rattle.std.specs.Prelude.{◌≡◌, ◌+◌, ◌≤◌, [], length, Some, None, Err, IfOk, IsTrue, IsSome, ◌↔◌, true};
ghost use Rattle.turn_lock.specs.Pairs.{IsGrown};
ghost use Rattle.broker_steps.specs.declared.step.Step.{Step};
ghost use Rattle.broker_steps.specs.Ranges.{IsLimits, IsStep};
ghost use Rattle.broker_core.specs.Broker.{IsSaid, IsWatched, entry_of, refusal};
ghost use Rattle.hub_lock.specs.declared.step.OuterStep.{OuterStep};
ghost use Rattle.hub_lock.specs.Histories.{stamp_by, broker_of, reader_of, writer_of};
ghost use Rattle.hub_lock.specs.Asked.{joins_as_root};
ghost use Rattle.hub_lock.specs.Steps.{IsGiven, Finds};
ghost use Rattle.hub_lock.specs.Lawful.{IsShared, IsLawful, history_of};
ghost use Rattle.hub_lock.specs.Bells.{IsRungBy};
ghost use Rattle.hub_lock.specs.Plays.{IsOwn, MayAsk, Joins, Applies, Takes, Answers, Plays};
ghost use Rattle.hub_lock.specs.Plays.{IsSessionOf, took_without_memory};
ghost use Rattle.hub_lock.specs.Events.{notes_in};
ghost use Rattle.hub_lock.specs.Noted.{tally_in, note_of, IsNoted, Hands, HasHanded};
ghost use Rattle.hub_lock.specs.declared.call.Ask.TheVariants as asks;
ghost use Rattle.hub_lock.specs.declared.call.Answer.TheVariants as answers;

use crate::Rings;
use crate::call::{Answer, Ask, Call, Reply, Taking};
use crate::room::Places;
use crate::session::{NoSession, Session};
use broker_core::{Applied, JoinRefusal, LetGo, Refused, Shared, Standing, Took};
use broker_model::Entry;
use broker_steps::{Limits, NoMemory, Stamp, Step};
use relay_model::Role;
use std::alloc::Global;
use std::marker::Model;

/// The shared state of all peers, for each of them the number of its reader's pass, and the number
/// of the pass of who records.
#[derive(Drop)]
pub struct HubState {
    limits: Limits,
    shared: Shared,
    readers: Vec<u64>,
    // How many outer steps the journal has.
    steps: u64,
    recorder: Option<u64>,
    alloc: Global,
}

impl Model for HubState {
    ghost use Rattle.std.specs.Prelude.{◌≡◌, length, None};
    ghost use Rattle.hub_lock.specs.Lawful.{Held, IsKept, history_of};

    ghost Value = { Held };

    ghost view = { λ s. record {
      broker = s.shared;
      readers = s.readers.items;
      recorder = s.recorder;
    } };

    ghost invariant = { λ s. IsKept s.shared s.readers.items × (s.limits ≡ s.shared.limits)
        × (s.steps ≡ length (history_of s.shared s.readers.items))
        × (s.recorder ≡ None → s.shared.kept_from ≡ 0) };
}

// What the pass with the number gives with its step.
fn stamp_by(number: u64) -> Stamp
    ensures { result ≡ stamp_by number }
{
    Stamp {
        moment: 0,
        author: number,
    }
}

// What a step finds that isn't refused.
fn finds(shared: &Shared, step: &Step)
    requires { IsSaid step.now }
    ensures { refusal shared.now step.now ≡ None →
        Finds shared.now.limits shared.now.journal (entry_of step.now) }
{
    match step {
        Step::Peer(peer, _) => {
            let _standing = shared.standing(*peer);
        }
        Step::Shell(_) | Step::Join(_) | Step::Take(_, _) => {}
    }
}

// How many entries the journal has, of a shared state with all that it promises between calls.
fn entries(shared: &Shared) -> u32
    ensures shared { IsShared shared.now }
    ensures number { result ≡ length shared.now.journal }
{
    shared.stamps();
    shared.journal().len()
}

impl HubState {
    /// Nobody joined yet. `NoMemory` is its one error.
    pub fn new(alloc: Global, limits: Limits) -> Result<HubState, NoMemory>
        requires { IsLimits limits }
        ensures limits { IfOk result (λ s. s.broker.limits ≡ limits) }
        ensures empty { IfOk result (λ s. history_of s.broker s.readers ≡ []) }
        ensures lawful { IfOk result (λ s. IsLawful limits []) }
        ensures nobody { IfOk result (λ s. s.recorder ≡ None) }
    {
        let shared = Shared::new(alloc, limits)?;
        let _entries = entries(&shared);
        Ok(HubState {
            limits,
            shared,
            readers: Vec::new(alloc),
            steps: 0,
            recorder: None,
            alloc,
        })
    }

    // The number of the pass of the peer's reader.
    fn reader(&self, peer: u32) -> Option<u64>
        ensures { result ≡ reader_of (history_of self.now.broker self.now.readers) peer }
    {
        let before = peer.checked_sub(1)?;
        self.readers.get(before as usize).copied()
    }

    // Whether the pass of the peer's reader has the number.
    fn is_reader(&self, number: u64, peer: u32) -> bool
        ensures { IsTrue result ↔
            (reader_of (history_of self.now.broker self.now.readers) peer ≡ Some number) }
    {
        match self.reader(peer) {
            Some(reader) => reader == number,
            None => false,
        }
    }

    // Whether the pass of the peer's writer has the number.
    fn is_writer(&self, number: u64, peer: u32) -> bool
        ensures { IsTrue result ↔
            (writer_of (history_of self.now.broker self.now.readers) peer ≡ Some number) }
    {
        match self.reader(peer) {
            Some(reader) => reader < number && number - reader == 1,
            None => false,
        }
    }

    // Whether the step is the shell's, or is of the peer whose reader's pass has the number.
    fn is_own(&self, number: u64, step: &Step) -> bool
        ensures { IsTrue result ↔
            IsOwn (history_of self.now.broker self.now.readers) number step.now }
    {
        match step {
            Step::Peer(peer, _) => self.is_reader(number, *peer),
            Step::Shell(_) => true,
            Step::Join(_) | Step::Take(_, _) => false,
        }
    }

    // A peer joins by the root, whose reader's pass has that number.
    fn join(
        &mut self,
        number: u64,
        role: Role,
        reader: u64,
        rings: &mut Rings,
    ) -> Result<u32, JoinRefusal>
        requires root { number ≡ 0 }
        ensures limits { self.new.broker.limits ≡ self.old.broker.limits }
        ensures joins { Joins self.old.broker.limits
            (history_of self.old.broker self.old.readers) number role reader
            (history_of self.new.broker self.new.readers) result }
        ensures watched { IsWatched IsRungBy self.old.broker rings.old self.new.broker rings.new }
        ensures kept { self.new.broker.kept_from ≡ self.old.broker.kept_from }
        ensures recorder { self.new.recorder ≡ self.old.recorder }
    {
        let _entries = entries(&self.shared);
        if let Some(why) = self.shared.join_refusal(role) {
            return Err(why);
        }
        if self.readers.reserve(1).is_err() {
            return Err(JoinRefusal::NoMemory);
        }
        let peer = self.shared.join_watched(role, stamp_by(number), rings)?;
        let _ = self.readers.push(reader);
        self.steps += 1;
        Ok(peer)
    }

    // The shell or a peer says something. A step that isn't the pass's own finds no peer.
    fn apply(&mut self, number: u64, step: &Step, rings: &mut Rings) -> Result<Applied, Refused>
        requires step { IsStep step.now }
        requires said { IsSaid step.now }
        requires given { IsGiven (entry_of step.now) }
        ensures limits { self.new.broker.limits ≡ self.old.broker.limits }
        ensures applies { IsOwn (history_of self.old.broker self.old.readers) number step.now →
            Applies self.old.broker.limits
            (history_of self.old.broker self.old.readers) number step.now
            (history_of self.new.broker self.new.readers) result }
        ensures grows { IsGrown number (history_of self.old.broker self.old.readers)
            (history_of self.new.broker self.new.readers) }
        ensures watched { IsWatched IsRungBy self.old.broker rings.old self.new.broker rings.new }
        ensures kept { self.new.broker.kept_from ≡ self.old.broker.kept_from }
        ensures recorder { self.new.recorder ≡ self.old.recorder }
    {
        let _entries = entries(&self.shared);
        if !self.is_own(number, step) {
            return Err(Refused::NoPeer);
        }
        finds(&self.shared, step);
        let applied = self.shared.apply_watched(step, stamp_by(number), rings)?;
        self.steps += 1;
        Ok(applied)
    }

    // What a take answers for which there is no memory: why it is refused, or that memory lacks.
    fn take_none(&self, peer: u32) -> Took
        ensures { result ≡ took_without_memory self.now.broker peer }
    {
        let Some(stored) = self.shared.stored(peer) else {
            return Took::NoPeer;
        };
        if stored == 0 {
            return match self.shared.standing(peer) {
                Standing::Over(_) => Took::Closed,
                Standing::Alive | Standing::Nobody => Took::Empty,
            };
        }
        let journal = self.shared.journal();
        if journal.is_full(&self.limits, &Entry::Took { peer, bytes: 0 }) {
            return Took::JournalFull(journal.kept());
        }
        Took::NoMemory
    }

    // Takes what is stored for a peer, so many bytes at most. A take of another pass than its
    // writer's finds no peer.
    fn take_into(
        &mut self,
        number: u64,
        peer: u32,
        most: usize,
        bytes: &mut [u8],
        tokens: &mut [u32],
        rings: &mut Rings,
    ) -> Took
        requires most { (1 ≤ most) × (most ≤ 4096) }
        requires bytes { length bytes.old ≡ 4096 }
        requires tokens { length tokens.old ≡ 256 }
        ensures limits { self.new.broker.limits ≡ self.old.broker.limits }
        ensures takes { writer_of (history_of self.old.broker self.old.readers) peer ≡
            Some number → Takes self.old.broker.limits
            (history_of self.old.broker self.old.readers) number peer most bytes.new tokens.new
            (history_of self.new.broker self.new.readers) result }
        ensures grows { IsGrown number (history_of self.old.broker self.old.readers)
            (history_of self.new.broker self.new.readers) }
        ensures watched { IsWatched IsRungBy self.old.broker rings.old self.new.broker rings.new }
        ensures kept { self.new.broker.kept_from ≡ self.old.broker.kept_from }
        ensures recorder { self.new.recorder ≡ self.old.recorder }
    {
        let _entries = entries(&self.shared);
        if !self.is_writer(number, peer) {
            return Took::NoPeer;
        }
        let took = self
            .shared
            .take_watched(peer, &mut bytes[..most], tokens, stamp_by(number), rings);
        if let Took::Bytes(_, _) = took {
            self.steps += 1;
        }
        took
    }

    // As `take_into`, into places that may have no memory.
    fn take(
        &mut self,
        number: u64,
        peer: u32,
        most: usize,
        places: &mut Places,
        rings: &mut Rings,
    ) -> Took
        requires most { (1 ≤ most) × (most ≤ 4096) }
        ensures limits { self.new.broker.limits ≡ self.old.broker.limits }
        ensures takes { writer_of (history_of self.old.broker self.old.readers) peer ≡
            Some number → Takes self.old.broker.limits
            (history_of self.old.broker self.old.readers) number peer most
            places.new.bytes.items places.new.tokens.items
            (history_of self.new.broker self.new.readers) result }
        ensures grows { IsGrown number (history_of self.old.broker self.old.readers)
            (history_of self.new.broker self.new.readers) }
        ensures watched { IsWatched IsRungBy self.old.broker rings.old self.new.broker rings.new }
        ensures kept { self.new.broker.kept_from ≡ self.old.broker.kept_from }
        ensures recorder { self.new.recorder ≡ self.old.recorder }
    {
        let _entries = entries(&self.shared);
        if !places.has_memory() {
            return self.take_none(peer);
        }
        self.take_into(
            number,
            peer,
            most,
            &mut places.bytes,
            &mut places.tokens,
            rings,
        )
    }

    // A copy of it all, where nothing was handed out.
    fn copy(&self) -> Result<Session, NoSession>
        ensures copied { IfOk result (λ s. IsSessionOf (broker_of self.now.broker.limits
            (history_of self.now.broker self.now.readers)) s) }
        ensures handed { (result ≡ Err NoSession.HandedOut) ↔ HasHanded (tally_in self.now) }
    {
        if self.shared.journal().kept_from() != 0 {
            return Err(NoSession::HandedOut);
        }
        let Ok(journal) = self.shared.journal().copy(self.alloc) else {
            return Err(NoSession::NoMemory);
        };
        let Ok(stamps) = self.shared.stamps().copy(self.alloc) else {
            return Err(NoSession::NoMemory);
        };
        Ok(Session {
            limits: self.limits,
            journal,
            stamps,
        })
    }

    // The root names who records, where nobody does.
    fn name(&mut self, number: u64, recorder: u64) -> Option<u64>
        ensures broker { self.new.broker ≡ self.old.broker }
        ensures readers { self.new.readers ≡ self.old.readers }
        ensures noted { IsNoted number (answers.Named result) (tally_in self.old)
            (tally_in self.new) }
        ensures hands { Hands number (asks.Name recorder) (answers.Named result)
            (broker_of self.old.broker.limits
            (history_of self.old.broker self.old.readers)) (tally_in self.old) }
    {
        if number != 0 || self.recorder.is_some() {
            return None;
        }
        self.recorder = Some(recorder);
        Some(recorder)
    }

    // The next entry, for who records. It is then let go.
    fn hand_out(&mut self, number: u64) -> Option<LetGo>
        ensures limits { self.new.broker.limits ≡ self.old.broker.limits }
        ensures journal { self.new.broker.journal ≡ self.old.broker.journal }
        ensures same { history_of self.new.broker self.new.readers ≡
            history_of self.old.broker self.old.readers }
        ensures noted { IsNoted number (answers.HandedOut result) (tally_in self.old)
            (tally_in self.new) }
        ensures hands { Hands number asks.HandOut (answers.HandedOut result)
            (broker_of self.old.broker.limits
            (history_of self.old.broker self.old.readers)) (tally_in self.old) }
    {
        if self.recorder != Some(number) {
            return None;
        }
        self.shared.pop_oldest()
    }

    // Plays what is asked by the pass with the number.
    fn answer(&mut self, number: u64, ask: &mut Ask, rings: &mut Rings) -> Answer
        requires asked { joins_as_root number ask.old ≡ true }
        ensures asked { joins_as_root number ask.new ≡ true }
        ensures limits { self.new.broker.limits ≡ self.old.broker.limits }
        ensures answers { MayAsk (history_of self.old.broker self.old.readers) number ask.old →
            Answers self.old.broker.limits
            (history_of self.old.broker self.old.readers) number ask.old
            (history_of self.new.broker self.new.readers) ask.new result }
        ensures grows { IsGrown number (history_of self.old.broker self.old.readers)
            (history_of self.new.broker self.new.readers) }
        ensures watched { IsWatched IsRungBy self.old.broker rings.old self.new.broker rings.new }
        ensures noted { IsNoted number result (tally_in self.old) (tally_in self.new) }
        ensures hands { Hands number ask.old result (broker_of self.old.broker.limits
            (history_of self.old.broker self.old.readers)) (tally_in self.old) }
        ensures same { IsSome (note_of result) →
            history_of self.new.broker self.new.readers ≡
            history_of self.old.broker self.old.readers }
    {
        match ask {
            Ask::Join(role, reader) => Answer::Joined(self.join(number, *role, *reader, rings)),
            Ask::Apply(applying) => Answer::Applied(self.apply(number, applying.step(), rings)),
            Ask::Take(Taking { peer, most, places }) => {
                Answer::Took(self.take(number, *peer, most.bytes(), places, rings))
            }
            Ask::Copy => Answer::Copied(self.copy()),
            Ask::Name(recorder) => Answer::Named(self.name(number, *recorder)),
            Ask::HandOut => Answer::HandedOut(self.hand_out(number)),
        }
    }

    /// Plays a call.
    pub fn play(&mut self, call: &mut Call) -> Reply
        ensures number { call.new.number ≡ call.old.number }
        ensures limits { self.new.broker.limits ≡ self.old.broker.limits }
        ensures plays { Plays self.old.broker.limits
            (history_of self.old.broker self.old.readers) call.old
            (history_of self.new.broker self.new.readers) call.new result }
        ensures grows { IsGrown call.old.number (history_of self.old.broker self.old.readers)
            (history_of self.new.broker self.new.readers) }
        ensures noted { IsNoted call.old.number result.answer (tally_in self.old)
            (tally_in self.new) }
        ensures hands { Hands call.old.number call.old.ask result.answer
            (broker_of self.old.broker.limits
            (history_of self.old.broker self.old.readers)) (tally_in self.old) }
        ensures same { IsSome (note_of result.answer) →
            history_of self.new.broker self.new.readers ≡
            history_of self.old.broker self.old.readers }
    {
        let _before = entries(&self.shared);
        let mut rings = Rings::new();
        let answer = self.answer(call.number, &mut call.ask, &mut rings);
        Reply {
            answer,
            rings: rings.bits,
            entries: entries(&self.shared),
        }
    }

    /// How many steps its history has.
    pub fn steps(&self) -> u64
        ensures { result ≡ length (history_of self.now.broker self.now.readers) }
    {
        self.steps
    }

    /// How many steps its history has, and how much was noted of who records.
    pub fn events(&self) -> u64
        ensures { result ≡ length (history_of self.now.broker self.now.readers)
            + notes_in (tally_in self.now) }
    {
        let _entries = entries(&self.shared);
        match self.recorder {
            Some(_) => self.steps + u64::from(self.shared.journal().kept_from()) + 1,
            None => self.steps,
        }
    }
}
