//! The seat as a program that has its peers' bytes sees it.
use crate::ears::{Ears, Heard};
use crate::open::OpenPeers;
use broker_core::{JoinRefusal, Kept, Refused, Shared, Standing, Took};
use broker_cutter::Cutter;
use broker_steps::{Limits, PeerStep, ShellStep, Stamp, Step};
use relay_core::Route;
use relay_model::{Label, Role};
use std::alloc::Global;
use std::collections::HashMap;
use std::marker::Model;
use wl_wire::NoMemory;

/// All peers of a seat: what they share, what is held of the bytes of each that make no whole
/// message yet, and what the shell is told and hasn't asked for.
///
/// Peers have numbers from 1, as they join. Each call that takes a step lets all entries of the
/// journal go; contracts go on seeing them. What grows all the same: a label and an end for each
/// peer that ever joined, and 16 bytes for each object that was ever made. What is stored for a peer
/// stays until it is taken, also after its end; what is held of its bytes until its next message is
/// whole, or until `gone` is said of it.
#[derive(Drop)]
pub struct ByteSeat {
    pub(crate) alloc: Global,
    pub(crate) shared: Shared,
    pub(crate) held: HashMap<u32, Cutter>,
    pub(crate) ears: Ears,
    pub(crate) open_peers: OpenPeers,
}

impl Model for ByteSeat {
    ghost use Rattle.c_broker.specs.Open.{IsOpen};
    ghost use Rattle.c_broker.specs.Seated.{Bytewise};

    ghost Value = { Bytewise };

    ghost view = { λ s. record { broker = s.shared; held = s.held.entries; ears = s.ears } };

    ghost invariant = { λ s. IsOpen s.shared s.open_peers.numbers.items s.open_peers.seen };
}

impl ByteSeat {
    ghost use Rattle.std.specs.Prelude.{◌≡◌, ◌≤◌, ◌∷◌, [], length, false, option_map};
    ghost use Rattle.std.specs.Prelude.{IfSome, IfNone, IfOk, OnOk, OnErr, IsOk, IsOkUnless, Err};
    ghost use Rattle.relay_core.specs.Stands.{route_told};
    ghost use Rattle.broker_steps.specs.Ranges.{IsLimits, IsShellStep};
    ghost use Rattle.broker_steps.specs.declared.step.Step.TheVariants as steps;
    ghost use Rattle.broker_steps.specs.declared.step.PeerStep.TheVariants as peers;
    ghost use Rattle.relay_model.specs.declared.act.EndCause.TheVariants.{Gone};
    ghost use Rattle.broker_model.specs.declared.journal.Entry.TheVariants as entries;
    ghost use Rattle.relay_model.specs.Keys.{standing};
    ghost use Rattle.relay_model.specs.Idle.{history};
    ghost use Rattle.broker_model.specs.Limits.{number_counted, weight};
    ghost use Rattle.broker_model.specs.Resolve.{past_of, resolve};
    ghost use Rattle.broker_model.specs.Out.{act_at, stored};
    ghost use Rattle.broker_core.specs.Broker.{begun, with_step, join_refusal, refusal};
    ghost use Rattle.broker_core.specs.Broker.{take_refusal, IfBytes, IfNoBytes};
    ghost use Rattle.broker_core.specs.Broker.{IsBytesUnlessMemory};
    ghost use Rattle.broker_core.specs.Taking.{out_at, standing_of, IsTaken};
    ghost use Rattle.c_broker.specs.Ears.{Hands, nothing_heard};
    ghost use Rattle.c_broker.specs.Promise.{Promise};
    ghost use Rattle.c_broker.specs.Steps.{Hearing};
    ghost use Rattle.c_broker.specs.Seated.{WaitsAt, all_gone, IsReady};

    /// Nobody joined yet. Asks for limits in their ranges. `NoMemory` is its one error.
    pub fn new(alloc: Global, limits: Limits) -> Result<ByteSeat, NoMemory>
        requires limits { IsLimits limits }
        ensures { IfOk result (λ seat. seat ≡ record {
          broker = begun limits;
          held = [];
          ears = nothing_heard;
        }) }
    {
        Ok(ByteSeat {
            alloc,
            shared: Shared::new(alloc, limits)?,
            held: HashMap::new(alloc),
            ears: Ears::new(alloc)?,
            open_peers: OpenPeers::new(alloc),
        })
    }

    // Lets all entries of the journal go.
    pub(crate) fn let_go(&mut self)
        ensures gone { self.new.broker ≡ all_gone self.old.broker }
        ensures held { self.new.held ≡ self.old.held }
        ensures ears { self.new.ears ≡ self.old.ears }
    {
        let number = self.shared.journal().len();
        self.shared.let_go(number);
    }

    // A peer came or went, and so many joined so far.
    fn note(&mut self, count: u32)
        ensures same { self.new ≡ self.old }
    {
        self.open_peers.note(count);
        self.open_peers.tidy(&self.shared);
    }

    /// A peer joins. Answers its number: how many joined so far.
    ///
    /// `TooManyPeers` comes where `MOST_PEERS` are alive, else `JournalFull` where the journal is full
    /// for a join, else `NoMemory` may come. After each all is as before.
    pub fn join(&mut self, role: Role, stamp: Stamp) -> Result<u32, JoinRefusal>
        ensures refused { IfSome (join_refusal self.old.broker role) (λ why. result ≡ Err why) }
        ensures accepted { IfNone (join_refusal self.old.broker role)
            (IsOkUnless result JoinRefusal.NoMemory) }
        ensures ok { OnOk result (self.new.broker ≡
            all_gone (with_step (entries.Join role) stamp self.old.broker)) }
        ensures number { IfOk result (λ number.
            number ≡ length (past_of self.new.broker.journal).joined) }
        ensures err { OnErr result (self.new.broker ≡ self.old.broker) }
        ensures held { self.new.held ≡ self.old.held }
        ensures told { Hearing self.old.broker self.old.ears self.new.broker self.new.ears }
    {
        match self.shared.join_watched(role, stamp, &mut self.ears) {
            Ok(number) => {
                self.let_go();
                self.note(number);
                Ok(number)
            }
            Err(why) => Err(why),
        }
    }

    // The end of a peer, and of what was held of its bytes.
    pub(crate) fn end(&mut self, peer: u32, stamp: Stamp) -> Result<(), Refused>
        ensures refused { IfSome (refusal self.old.broker (steps.Peer peer peers.Gone)) (λ why.
            result ≡ Err why) }
        ensures accepted { IfNone (refusal self.old.broker (steps.Peer peer peers.Gone))
            (IsOk result) }
        ensures ok { OnOk result (self.new.broker ≡
            with_step (entries.End peer Gone) stamp self.old.broker) }
        ensures err { OnErr result (self.new.broker ≡ self.old.broker) }
        ensures held { WaitsAt self.old.held self.new.held peer [] }
        ensures told { Hearing self.old.broker self.old.ears self.new.broker self.new.ears }
    {
        let _ = self.held.remove(&peer);
        let step = Step::Peer(peer, PeerStep::Gone);
        match self.shared.apply_watched(&step, stamp, &mut self.ears) {
            Ok(_) => Ok(()),
            Err(why) => Err(why),
        }
    }

    /// The link of a peer has ended: it ends, and all its objects, and what was held of its bytes is
    /// dropped. It needs no memory, and room in no journal.
    ///
    /// `NoPeer` comes where no peer has the number, and `Ended` where it had ended. After each all is
    /// as before but for the bytes that were held.
    pub fn gone(&mut self, peer: u32, stamp: Stamp) -> Result<(), Refused>
        ensures refused { IfSome (refusal self.old.broker (steps.Peer peer peers.Gone)) (λ why.
            result ≡ Err why) }
        ensures accepted { IfNone (refusal self.old.broker (steps.Peer peer peers.Gone))
            (IsOk result) }
        ensures ok { OnOk result (self.new.broker ≡
            all_gone (with_step (entries.End peer Gone) stamp self.old.broker)) }
        ensures err { OnErr result (self.new.broker ≡ self.old.broker) }
        ensures held { WaitsAt self.old.held self.new.held peer [] }
        ensures told { Hearing self.old.broker self.old.ears self.new.broker self.new.ears }
    {
        match self.end(peer, stamp) {
            Ok(()) => {
                self.let_go();
                let count = self.peers();
                self.note(count);
                Ok(())
            }
            Err(why) => Err(why),
        }
    }

    /// Something that the shell says. Asks that a key's state is 0 or 1, and that sizes aren't
    /// negative. Answers where a key went, and none for any other.
    ///
    /// `JournalFull` comes where the journal is full for it, else `NoMemory` may come. After each all
    /// is as before.
    pub fn order(&mut self, step: ShellStep, stamp: Stamp) -> Result<Option<Route>, Refused>
        requires step { IsShellStep step }
        ensures refused { IfSome (refusal self.old.broker (steps.Shell step)) (λ why.
            result ≡ Err why) }
        ensures accepted { IfNone (refusal self.old.broker (steps.Shell step))
            (IsOkUnless result Refused.NoMemory) }
        ensures ok { OnOk result (self.new.broker ≡
            all_gone (with_step (entries.Shell step) stamp self.old.broker)) }
        ensures route { IfOk result (λ route.
            route ≡ route_told (act_at (entries.Shell step) self.old.broker.journal)
            (resolve self.old.broker.journal)) }
        ensures err { OnErr result (self.new.broker ≡ self.old.broker) }
        ensures held { self.new.held ≡ self.old.held }
        ensures told { Hearing self.old.broker self.old.ears self.new.broker self.new.ears }
    {
        let step = Step::Shell(step);
        match self.shared.apply_watched(&step, stamp, &mut self.ears) {
            Ok(applied) => {
                self.let_go();
                Ok(applied.route)
            }
            Err(why) => Err(why),
        }
    }

    /// The first bytes that are stored for the peer, alive or ended, go into the buffer, as many as
    /// fit, and the tokens whose messages begin in them beside. Asks for a buffer of 1 to 4,096 bytes
    /// and for 256 places of tokens.
    ///
    /// `NoPeer`, `Closed`, `Empty`, `JournalFull` and `NoMemory` come as with `Shared::take`: after
    /// each all is as before.
    pub fn take(&mut self, peer: u32, buf: &mut [u8], tokens: &mut [u32], stamp: Stamp) -> Took
        requires piece { length buf.old ≤ 4096 }
        requires some { 1 ≤ length buf.old }
        requires places { 256 ≤ length tokens.old }
        ensures refused { IfSome (take_refusal self.old.broker peer) (λ why. result ≡ why) }
        ensures accepted { IfNone (take_refusal self.old.broker peer)
            (IsBytesUnlessMemory result) }
        ensures bytes { IfSome (out_at self.old.broker.limits.store self.old.broker.journal peer)
            (λ out. IfBytes result (λ counts.
            IsTaken out self.old.broker.journal peer buf.old tokens.old counts buf.new tokens.new
            (entries.Took peer counts.0 ∷ self.old.broker.journal))) }
        ensures settled { IfBytes result (λ counts. self.new.broker ≡
            all_gone (with_step (entries.Took peer counts.0) stamp self.old.broker)) }
        ensures same { IfNoBytes result (self.new.broker ≡ self.old.broker) }
        ensures same_bytes { IfNoBytes result (buf.new ≡ buf.old) }
        ensures same_tokens { IfNoBytes result (tokens.new ≡ tokens.old) }
        ensures held { self.new.held ≡ self.old.held }
        ensures told { Hearing self.old.broker self.old.ears self.new.broker self.new.ears }
    {
        let took = self
            .shared
            .take_watched(peer, buf, tokens, stamp, &mut self.ears);
        if let Took::Bytes(..) = took {
            self.let_go();
        }
        took
    }

    /// Hands out what the shell was told and waits longest.
    pub fn next(&mut self) -> Heard
        ensures hands { Hands self.old.ears result self.new.ears }
        ensures broker { self.new.broker ≡ self.old.broker }
        ensures held { self.new.held ≡ self.old.held }
    {
        self.ears.next()
    }

    /// How many peers joined, alive or not.
    pub fn peers(&self) -> u32
        ensures { result ≡ length (past_of self.now.broker.journal).joined }
    {
        self.shared.peers()
    }

    /// How many bytes are stored for the peer, alive or ended; none where no peer has the number.
    pub fn stored(&self, peer: u32) -> Option<usize>
        ensures { result ≡ option_map (λ out. length (stored out))
            (out_at self.now.broker.limits.store self.now.broker.journal peer) }
    {
        self.shared.stored(peer)
    }

    /// Whether the peer with the number joined, and is alive.
    pub fn standing(&self, peer: u32) -> Standing
        ensures { result ≡ standing_of self.now.broker.journal peer }
    {
        self.shared.standing(peer)
    }

    /// The grab that stands, to which the modifiers of the seat's keyboard go, as the label of its
    /// object; none where they go to the focused surface.
    pub fn grab(&self) -> Option<Label>
        ensures { result ≡ standing (history (resolve self.now.broker.journal)) }
    {
        self.shared.relay().standing()
    }

    /// How much of the limits is used up: each entry and its weight counts, though it is let go.
    pub fn kept(&self) -> Kept
        ensures promise { Promise self.now.broker }
        ensures entries { result.entries ≡ number_counted self.now.broker.journal }
        ensures weight { result.weight ≡ weight self.now.broker.journal }
    {
        self.shared.journal().kept()
    }

    /// The lowest number of a peer above `after` for which bytes are stored; 0 where there is none.
    ///
    /// Its cost grows with the peers that live or have bytes stored, not with all that ever joined.
    pub fn ready(&self, after: u32) -> u32
        ensures { IsReady self.now.broker after
            (length (past_of self.now.broker.journal).joined) result }
    {
        self.open_peers.first(&self.shared, after)
    }
}
