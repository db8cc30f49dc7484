//! The shared state of all peers as its callers see it.
use crate::answers::{Applied, JoinRefusal, Refused};
use crate::limits::{ENTRY_WEIGHT, full};
use crate::state::State;
use crate::taking::Standing;
use crate::watch::Watch;
use broker_model::{Journal, Kept, StampList};
use broker_steps::{Limits, PeerStep, ShellStep, Stamp, Step, TokenList};
use relay_core::Route;
use relay_model::{EndCause, Role};
use std::alloc::Global;
use std::marker::Model;
use wio_core::NoMemory;

/// The most peers that are alive at once.
pub const MOST_PEERS: u32 = 64;

/// The shared state of all peers of a seat: one journal of what happened, and for each peer what is stored for it.
///
/// In contracts it is a `Broker`: its limits, its journal with the newest entry first, the stamps, and how many were
/// let go. All else is what the definitions say of these. After each step that is taken, each live peer whose message
/// was refused, or whose store had no room for what the step told it, is ended, the one with the lowest number first.
/// A call costs what the step tells and the live objects. Who watches a call is told of each entry that it makes.
#[derive(Drop)]
pub struct Shared {
    pub(crate) state: State,
    pub(crate) limits: Limits,
}

impl Model for Shared {
    ghost use Rattle.broker_core.specs.Broker.{Broker, IsBroker};

    ghost Value = { Broker };

    ghost view = { λ s. record {
      limits = s.limits;
      journal = s.state.journal.entries;
      stamps = s.state.stamps.stamps;
      kept_from = s.state.journal.kept_from;
    } };

    ghost invariant = { λ s. IsBroker s.limits s.state };
}

impl Shared {
    ghost use Rattle.std.specs.Prelude.{◌≡◌, ◌≤◌, ◌+◌, ◌∷◌, ℕ, List, length, true, false};
    ghost use Rattle.std.specs.Prelude.{option_map, Option, Some, None, Err, IfSome, IfNone, IfOk};
    ghost use Rattle.std.specs.Prelude.{OnOk, OnErr, IsOkUnless};
    ghost use Rattle.std.specs.List.{count_by};
    ghost use Rattle.relay_core.specs.Stands.{route_told};
    ghost use Rattle.relay_model.specs.declared.act.EndCause.TheVariants.{Gone};
    ghost use Rattle.relay_model.specs.Objects.{is_peer};
    ghost use Rattle.relay_model.specs.Keys.{number_down};
    ghost use Rattle.broker_steps.specs.declared.step.Step.TheVariants as steps;
    ghost use Rattle.broker_steps.specs.declared.step.PeerStep.TheVariants as peers;
    ghost use Rattle.broker_steps.specs.Ranges.{IsLimits, IsStep};
    ghost use Rattle.broker_model.specs.declared.journal.Entry.{Entry};
    ghost use Rattle.broker_model.specs.declared.journal.Entry.TheVariants as entries;
    ghost use Rattle.broker_model.specs.Ids.{Joined, log_of, peer_at, number_live};
    ghost use Rattle.broker_model.specs.Resolve.{past_of, resolve};
    ghost use Rattle.broker_model.specs.Out.{act_at, out_for, stored};
    ghost use Rattle.broker_model.specs.Settle.{history, outer, is_due, number_alive};
    ghost use Rattle.broker_model.specs.Stamps.{stamps, step_stamps};
    ghost use Rattle.broker_model.specs.Limits.{is_end, weight_of, number_counted, weight};
    ghost use Rattle.broker_core.specs.declared.taking.Standing.TheVariants.{Alive};
    ghost use Rattle.broker_core.specs.Ends.{is_end_of};
    ghost use Rattle.broker_core.specs.Broker.{begun, with_step, full_for, join_refusal, entry_of};
    ghost use Rattle.broker_core.specs.Broker.{refusal_if_full, refusal, IsSaid, IsAccepted, IsWatched};
    ghost use Rattle.broker_core.specs.Taking.{out_at, standing_of, lives};

    /// Nobody joined yet, and the journal is empty. Asks for limits in their ranges. `NoMemory` is its one error.
    pub fn new(alloc: Global, limits: Limits) -> Result<Shared, NoMemory>
        requires limits { IsLimits limits }
        ensures { IfOk result (λ shared. shared ≡ begun limits) }
    {
        Ok(Shared {
            state: State::new(alloc, limits.store as usize)?,
            limits,
        })
    }

    /// How many peers joined, alive or not: 0 to the limit of entries. Their numbers go from 1.
    pub fn peers(&self) -> u32
        ensures { result ≡ length (past_of self.now.journal).joined }
    {
        self.state.labels.len() as u32
    }

    /// How many bytes are stored for the peer, alive or ended: 0 to the limit of the store. None
    /// where no peer has the number.
    pub fn stored(&self, peer: u32) -> Option<usize>
        ensures { result ≡ option_map (λ out. length (stored out))
            (out_at self.now.limits.store self.now.journal peer) }
    {
        self.state.stored(peer)
    }

    /// Whether the peer with the number joined, and is alive.
    pub fn standing(&self, number: u32) -> Standing
        ensures value { result ≡ standing_of self.now.journal number }
        ensures lives { result ≡ Alive → lives self.now.journal number ≡ true }
        ensures others { ¬ (result ≡ Alive) → lives self.now.journal number ≡ false }
    {
        self.state.standing(number)
    }

    /// The journal. It is the history of its outer steps: after each of them stand the ends that
    /// follow from it, and no others. So no live peer has a refused last message or was left out of
    /// what it is told. At most `MOST_PEERS` peers are alive, each with at most 256 live objects
    /// besides its display, at most 64 keys are down, no store holds more than its capacity, and
    /// the entries are within the limits. No peer ends twice, and there are no more ends than peers
    /// that joined and aren't alive.
    pub fn journal(&self) -> &Journal
        ensures entries { result.now.entries ≡ self.now.journal }
        ensures kept { result.now.kept_from ≡ self.now.kept_from }
        ensures history { history self.now.limits.store (outer self.now.journal) ≡
            self.now.journal }
        ensures nobody_is_due { (number : ℕ) (peer : Joined) →
            peer_at (past_of self.now.journal) number ≡ Some peer →
            is_due self.now.limits.store self.now.journal number peer ≡ false }
        ensures few_peers { number_alive self.now.journal ≤ 64 }
        ensures counted { number_counted self.now.journal ≤ self.now.limits.entries }
        ensures light { weight self.now.journal ≤ self.now.limits.weight }
        ensures stores { (label : ℕ) →
            length (stored (out_for self.now.limits.store self.now.journal label)) ≤
            self.now.limits.store }
        ensures few_objects { (number : ℕ) (peer : Joined) →
            peer_at (past_of self.now.journal) number ≡ Some peer →
            is_peer (log_of (past_of self.now.journal)) peer.label ≡ true →
            number_live (past_of self.now.journal) peer.label ≤ 256 }
        ensures few_keys { number_down (log_of (past_of self.now.journal)) ≤ 64 }
        ensures ends { length self.now.journal + number_alive self.now.journal ≤ number_counted
            self.now.journal + length (past_of self.now.journal).joined }
        ensures one_end { (number : ℕ) → count_by (is_end_of number) self.now.journal ≤ 1 }
    {
        &self.state.journal
    }

    /// The stamps of the journal's entries. A step's has the author that its call gave, and as
    /// moment the greatest of the one that the call gave, the one that the step says, and that of
    /// the entry before. An end that follows has author 0, and the moment of the entry before.
    pub fn stamps(&self) -> &StampList
        ensures stamps { result.now.stamps ≡ self.now.stamps }
        ensures kept { result.now.kept_from ≡ self.now.kept_from }
        ensures each { length self.now.stamps ≡ length self.now.journal }
        ensures stamped { stamps self.now.journal (step_stamps self.now.journal self.now.stamps) ≡
            self.now.stamps }
    {
        &self.state.stamps
    }

    // How much the journal holds, where it is full for an entry that isn't an end and adds so much to its weight.
    pub(crate) fn full(&self, added: u64) -> Option<Kept>
        ensures { (e : Entry) → is_end e ≡ false → weight_of e ≡ added →
            result ≡ full_for self.now e }
    {
        full(&self.state.journal, &self.limits, added)
    }

    /// Why no peer can join, if so: what `join` answers then. (no memory)
    pub fn join_refusal(&self, role: Role) -> Option<JoinRefusal>
        ensures { result ≡ join_refusal self.now role }
    {
        if self.state.audience.live.len() >= MOST_PEERS as usize {
            return Some(JoinRefusal::TooManyPeers(MOST_PEERS));
        }
        let kept = self.full(ENTRY_WEIGHT)?;
        Some(JoinRefusal::JournalFull(kept))
    }

    /// A peer joins. Answers its number: how many joined so far.
    ///
    /// `TooManyPeers` comes where `MOST_PEERS` are alive, else `JournalFull` where the journal is
    /// full for a join, else `NoMemory` may come. After each all is as before.
    pub fn join(&mut self, role: Role, stamp: Stamp) -> Result<u32, JoinRefusal>
        ensures refused { IfSome (join_refusal self.old role) (λ why. result ≡ Err why) }
        ensures accepted { IfNone (join_refusal self.old role)
            (IsOkUnless result JoinRefusal.NoMemory) }
        ensures ok { OnOk result (self.new ≡ with_step (entries.Join role) stamp self.old) }
        ensures number { IfOk result (λ number. number ≡ length (past_of self.new.journal).joined) }
        ensures err { OnErr result (self.new ≡ self.old) }
    {
        self.join_watched(role, stamp, &mut ())
    }

    /// As `join`; and `watch` is told of the entries that the call makes, of none where no peer
    /// joins.
    pub fn join_watched<W: Watch>(
        &mut self,
        role: Role,
        stamp: Stamp,
        watch: &mut W,
    ) -> Result<u32, JoinRefusal>
        ensures refused { IfSome (join_refusal self.old role) (λ why. result ≡ Err why) }
        ensures accepted { IfNone (join_refusal self.old role)
            (IsOkUnless result JoinRefusal.NoMemory) }
        ensures ok { OnOk result (self.new ≡ with_step (entries.Join role) stamp self.old) }
        ensures number { IfOk result (λ number. number ≡ length (past_of self.new.journal).joined) }
        ensures err { OnErr result (self.new ≡ self.old) }
        ensures watched { IsWatched W.may_follow self.old watch.old self.new watch.new }
    {
        if let Some(why) = self.join_refusal(role) {
            return Err(why);
        }
        let Ok(number) = self.state.join(role, stamp, watch) else {
            return Err(JoinRefusal::NoMemory);
        };
        self.state.settle(watch);
        Ok(number)
    }

    // Where the journal is full for a step that adds so much to its weight.
    fn refusal_if_full(&self, added: u64) -> Option<Refused>
        ensures { (e : Entry) → is_end e ≡ false → weight_of e ≡ added →
            result ≡ refusal_if_full self.now e }
    {
        let kept = self.full(added)?;
        Some(Refused::JournalFull(kept))
    }

    // Why the step of the peer can't be taken, if so.
    fn peer_refusal(&self, number: u32, step: &PeerStep) -> Option<Refused>
        requires { IsStep (steps.Peer number step.now) }
        ensures { result ≡ refusal self.now (steps.Peer number step.now) }
    {
        match self.state.standing(number) {
            Standing::Nobody => Some(Refused::NoPeer),
            Standing::Over(cause) => Some(Refused::Ended(cause)),
            Standing::Alive => match step {
                PeerStep::Message { body, .. } => {
                    self.refusal_if_full(ENTRY_WEIGHT + body.as_slice().len() as u64)
                }
                PeerStep::Tokens(tokens) => {
                    self.refusal_if_full(ENTRY_WEIGHT + 4 * tokens.as_slice().len() as u64)
                }
                PeerStep::BadSize { .. } => self.refusal_if_full(ENTRY_WEIGHT),
                PeerStep::Gone => None,
            },
        }
    }

    // Why the step can't be taken, if so.
    fn refusal(&self, step: &Step) -> Option<Refused>
        requires { IsStep step.now }
        ensures { result ≡ refusal self.now step.now }
    {
        match step {
            Step::Peer(number, step) => self.peer_refusal(*number, step),
            Step::Join(_) | Step::Shell(_) | Step::Take(..) => self.refusal_if_full(ENTRY_WEIGHT),
        }
    }

    // A whole message of a live peer.
    #[inline(always)]
    fn message<W: Watch>(
        &mut self,
        number: u32,
        id: u32,
        opcode: u16,
        body: &[u8],
        stamp: Stamp,
        watch: &mut W,
    ) -> Result<(), NoMemory>
        requires live { standing_of self.old.journal number ≡ Alive }
        requires short { length body.now ≤ 4088 }
        requires place { full_for self.old (entries.Message number id opcode body.now) ≡ None }
        ensures ok { OnOk result (self.new ≡ with_step (entries.Message number id opcode body.now)
            stamp self.old) }
        ensures err { OnErr result (self.new ≡ self.old) }
        ensures watched { IsWatched W.may_follow self.old watch.old self.new watch.new }
    {
        self.state.message(number, id, opcode, body, stamp, watch)?;
        self.state.settle(watch);
        Ok(())
    }

    // Tokens of a live peer.
    fn tokens<W: Watch>(
        &mut self,
        number: u32,
        tokens: &TokenList,
        stamp: Stamp,
        watch: &mut W,
    ) -> Result<(), NoMemory>
        requires live { standing_of self.old.journal number ≡ Alive }
        requires place { full_for self.old (entries.Tokens number tokens.now) ≡ None }
        ensures ok { OnOk result (self.new ≡ with_step (entries.Tokens number tokens.now) stamp
            self.old) }
        ensures err { OnErr result (self.new ≡ self.old) }
        ensures watched { IsWatched W.may_follow self.old watch.old self.new watch.new }
    {
        self.state.tokens(number, tokens, stamp, watch)?;
        self.state.settle(watch);
        Ok(())
    }

    // A header with a bad size of a live peer.
    fn bad_size<W: Watch>(
        &mut self,
        number: u32,
        head: [u8; 8],
        stamp: Stamp,
        watch: &mut W,
    ) -> Result<(), NoMemory>
        requires live { standing_of self.old.journal number ≡ Alive }
        requires place { full_for self.old (entries.BadSize number head) ≡ None }
        ensures ok { OnOk result (self.new ≡ with_step (entries.BadSize number head) stamp
            self.old) }
        ensures err { OnErr result (self.new ≡ self.old) }
        ensures watched { IsWatched W.may_follow self.old watch.old self.new watch.new }
    {
        self.state.bad_size(number, head, stamp, watch)?;
        self.state.settle(watch);
        Ok(())
    }

    // The link of a live peer ends.
    fn gone<W: Watch>(&mut self, number: u32, stamp: Stamp, watch: &mut W)
        requires { standing_of self.old.journal number ≡ Alive }
        ensures ended { self.new ≡ with_step (entries.End number Gone) stamp self.old }
        ensures watched { IsWatched W.may_follow self.old watch.old self.new watch.new }
    {
        self.state.end(number, EndCause::Gone, stamp, watch);
        self.state.settle(watch);
    }

    // A step of a peer that can be taken.
    fn peer_step<W: Watch>(
        &mut self,
        number: u32,
        step: &PeerStep,
        stamp: Stamp,
        watch: &mut W,
    ) -> Result<(), NoMemory>
        requires step { IsStep (steps.Peer number step.now) }
        requires accepted { refusal self.old (steps.Peer number step.now) ≡ None }
        ensures accepted { IsAccepted (record {}) (steps.Peer number step.now) result }
        ensures ok { OnOk result (self.new ≡ with_step (entry_of (steps.Peer number step.now)) stamp
            self.old) }
        ensures err { OnErr result (self.new ≡ self.old) }
        ensures watched { IsWatched W.may_follow self.old watch.old self.new watch.new }
    {
        match step {
            PeerStep::Message { id, opcode, body } => {
                self.message(number, *id, *opcode, body.as_slice(), stamp, watch)
            }
            PeerStep::BadSize { head } => self.bad_size(number, *head, stamp, watch),
            PeerStep::Tokens(tokens) => self.tokens(number, tokens, stamp, watch),
            PeerStep::Gone => {
                self.gone(number, stamp, watch);
                Ok(())
            }
        }
    }

    // Something that the shell says. Answers where a key went.
    fn shell<W: Watch>(
        &mut self,
        step: &ShellStep,
        stamp: Stamp,
        watch: &mut W,
    ) -> Result<Option<Route>, NoMemory>
        requires place { full_for self.old (entries.Shell step.now) ≡ None }
        ensures ok { OnOk result (self.new ≡ with_step (entries.Shell step.now) stamp self.old) }
        ensures route { IfOk result (λ route.
            route ≡ route_told (act_at (entries.Shell step.now) self.old.journal)
            (resolve self.old.journal)) }
        ensures err { OnErr result (self.new ≡ self.old) }
        ensures watched { IsWatched W.may_follow self.old watch.old self.new watch.new }
    {
        let route = self.state.shell(step, stamp, watch)?;
        self.state.settle(watch);
        Ok(route)
    }

    // A step of a peer or of the shell that can be taken.
    fn enter<W: Watch>(
        &mut self,
        step: &Step,
        stamp: Stamp,
        watch: &mut W,
    ) -> Result<Option<Route>, NoMemory>
        requires step { IsStep step.now }
        requires said { IsSaid step.now }
        requires accepted { refusal self.old step.now ≡ None }
        ensures accepted { IsAccepted (record {}) step.now result }
        ensures ok { OnOk result (self.new ≡ with_step (entry_of step.now) stamp self.old) }
        ensures route { IfOk result (λ route.
            route ≡ route_told (act_at (entry_of step.now) self.old.journal)
            (resolve self.old.journal)) }
        ensures err { OnErr result (self.new ≡ self.old) }
        ensures watched { IsWatched W.may_follow self.old watch.old self.new watch.new }
    {
        match step {
            Step::Peer(number, step) => {
                self.peer_step(*number, step, stamp, watch)?;
                Ok(None)
            }
            Step::Shell(step) => self.shell(step, stamp, watch),
            Step::Join(_) | Step::Take(..) => unreachable!(),
        }
    }

    /// Takes a step of a peer or of the shell. Asks that it is one of these two, and holds only
    /// what a line of a session can give.
    ///
    /// For a peer's step `NoPeer` comes where no peer has the number, and `Ended` where the peer
    /// ended, with the cause. Else `JournalFull` comes where the journal is full for the step, else
    /// `NoMemory` may come. After each all is as before. The end of a live peer's link is always
    /// taken.
    pub fn apply(&mut self, step: &Step, stamp: Stamp) -> Result<Applied, Refused>
        requires step { IsStep step.now }
        requires said { IsSaid step.now }
        ensures refused { IfSome (refusal self.old step.now) (λ why. result ≡ Err why) }
        ensures accepted { IfNone (refusal self.old step.now)
            (IsAccepted Refused.NoMemory step.now result) }
        ensures ok { OnOk result (self.new ≡ with_step (entry_of step.now) stamp self.old) }
        ensures entry { IfOk result (λ applied. applied.entry ≡ length self.old.journal + 1) }
        ensures route { IfOk result (λ applied.
            applied.route ≡ route_told (act_at (entry_of step.now) self.old.journal)
            (resolve self.old.journal)) }
        ensures err { OnErr result (self.new ≡ self.old) }
    {
        self.apply_watched(step, stamp, &mut ())
    }

    /// As `apply`; and `watch` is told of the entries that the call makes, of none where the step
    /// isn't taken.
    pub fn apply_watched<W: Watch>(
        &mut self,
        step: &Step,
        stamp: Stamp,
        watch: &mut W,
    ) -> Result<Applied, Refused>
        requires step { IsStep step.now }
        requires said { IsSaid step.now }
        ensures refused { IfSome (refusal self.old step.now) (λ why. result ≡ Err why) }
        ensures accepted { IfNone (refusal self.old step.now)
            (IsAccepted Refused.NoMemory step.now result) }
        ensures ok { OnOk result (self.new ≡ with_step (entry_of step.now) stamp self.old) }
        ensures entry { IfOk result (λ applied. applied.entry ≡ length self.old.journal + 1) }
        ensures route { IfOk result (λ applied.
            applied.route ≡ route_told (act_at (entry_of step.now) self.old.journal)
            (resolve self.old.journal)) }
        ensures err { OnErr result (self.new ≡ self.old) }
        ensures watched { IsWatched W.may_follow self.old watch.old self.new watch.new }
    {
        if let Some(why) = self.refusal(step) {
            return Err(why);
        }
        let entry = self.state.journal.len() + 1;
        match self.enter(step, stamp, watch) {
            Ok(route) => Ok(Applied { entry, route }),
            Err(NoMemory) => Err(Refused::NoMemory),
        }
    }

    // Why a message of a live peer can't be taken, if so.
    fn message_refusal(&self, number: u32, id: u32, opcode: u16, body: &[u8]) -> Option<Refused>
        requires live { standing_of self.now.journal number ≡ Alive }
        ensures { result ≡ refusal self.now (steps.Peer number (peers.Message id opcode body.now)) }
    {
        self.refusal_if_full(ENTRY_WEIGHT + body.len() as u64)
    }

    /// As `apply_watched` with a whole message of a live peer, whose body is borrowed. Asks that the peer
    /// is alive, and that the body has at most 4,088 bytes.
    ///
    /// `JournalFull` comes where the journal is full for the step, else `NoMemory` may come. After each
    /// all is as before.
    pub fn message_watched<W: Watch>(
        &mut self,
        number: u32,
        id: u32,
        opcode: u16,
        body: &[u8],
        stamp: Stamp,
        watch: &mut W,
    ) -> Result<(), Refused>
        requires live { standing_of self.old.journal number ≡ Alive }
        requires short { length body.now ≤ 4088 }
        ensures refused { IfSome (refusal self.old (steps.Peer number
            (peers.Message id opcode body.now))) (λ why. result ≡ Err why) }
        ensures accepted { IfNone (refusal self.old (steps.Peer number
            (peers.Message id opcode body.now))) (IsOkUnless result Refused.NoMemory) }
        ensures ok { OnOk result
            (self.new ≡ with_step (entries.Message number id opcode body.now) stamp self.old) }
        ensures err { OnErr result (self.new ≡ self.old) }
        ensures watched { IsWatched W.may_follow self.old watch.old self.new watch.new }
    {
        if let Some(why) = self.message_refusal(number, id, opcode, body) {
            return Err(why);
        }
        match self.message(number, id, opcode, body, stamp, watch) {
            Ok(()) => Ok(()),
            Err(NoMemory) => Err(Refused::NoMemory),
        }
    }
}
