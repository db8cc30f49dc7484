//! The seat as a program that embeds it sees it.
ghost use Rattle.std.specs.Prelude.{◌≡◌, ◌<◌, ◌++◌, ◌∷◌, [], List, length, false};
ghost use Rattle.std.specs.Prelude.{IfOk, IfErr, OnOk, OnErr};
ghost use Rattle.relay_model.specs.declared.act.Act.{Act};
ghost use Rattle.relay_model.specs.Focus.{focus};
ghost use Rattle.relay_model.specs.Hold.{holder};
ghost use Rattle.relay_model.specs.Activation.{serving};
ghost use Rattle.relay_model.specs.Keys.{standing};
ghost use Rattle.relay_model.specs.Idle.{history};
ghost use Rattle.relay_model.specs.Objects.{next};
ghost use Rattle.relay_model.specs.Told.{told};
ghost use Rattle.relay_core.specs.Kept.{IsReserved};
ghost use Rattle.relay_core.specs.Stands.{StandsFor};
ghost use Rattle.relay_objects.specs.Fits.{FitsMessage};
ghost use Rattle.c_relay.specs.Events.{Heard, heard};
ghost use Rattle.c_relay.specs.KeptPopups.{IsBefore, kept_popups};
ghost use Rattle.c_relay.specs.Waiting.{HasRoomFor, IsFirst, Pulls};
ghost use Rattle.relay_reasons.specs.Fate.{fate};
ghost use Rattle.c_relay.specs.Living.{living};
ghost use Rattle.c_relay.specs.Seated.{Seated, Takes, IsCounted, Counts, fits};

use crate::event::Event;
use crate::popups::Popups;
use crate::queue::{Queue, TooShort};
use crate::{Census, OBJECT_LIMIT, PEER_LIMIT, SeatLimits};
use relay_core::Relay;
use relay_model::{Act, Label};
use relay_reasons::{BatchFate, batch_fate};
use std::alloc::Global;
use std::marker::Model;
use wio_core::NoMemory;

/// Why an act was not taken. The seat is as before.
#[derive(Clone, Copy, Debug, PartialEq, Eq)]
pub enum Refusal {
    /// There was no memory.
    NoMemory,
    /// The seat took 4,294,967,295 acts.
    Full,
    /// A text has more bytes than a message can carry: 4,083, or 4,075 beside two numbers.
    Long,
    /// It makes one too many: a peer where so many are alive as may be, or an object of a peer that
    /// has so many.
    Many,
}

/// A relay, what it told that nobody has asked for yet, and how many peers and objects are alive.
#[derive(Drop)]
pub struct RelaySeat {
    relay: Relay,
    queue: Queue,
    census: Census,
    popups: Popups,
}

impl Model for RelaySeat {
    ghost use Rattle.c_relay.specs.Seated.{Seat};
    ghost use Rattle.std.specs.Coded.{codes};
    ghost use Rattle.relay_core.specs.Keyboard.{keyboard_code};
    ghost use Rattle.relay_core.specs.BoardKeys.{boards_code};

    ghost Value = { Seat };

    ghost coded = { Prim.hlevel (codes, keyboard_code, boards_code) };

    ghost view = { λ s. record {
      relay = s.relay;
      heard = s.queue.heard;
      limits = s.census.limits;
      living = s.census.living;
      popups = s.popups.kept;
    } };
}

fn fits(act: &Act) -> bool
    ensures { result ≡ fits act.now }
{
    match act {
        Act::Surround { text, .. } | Act::MPreedit { text, .. } => text.len() <= 4075,
        Act::MString { text, .. } => text.len() <= 4083,
        _ => true,
    }
}

// Makes room for the act, for what it tells, and for the end of so many popups. More than can be
// counted is asked of the queue as the greatest number, which no memory is enough for.
fn reserve(relay: &mut Relay, act: &Act, popups: usize, queue: &mut Queue) -> Result<(), NoMemory>
    requires { FitsMessage act.now }
    ensures acts { relay.new.state.acts ≡ relay.old.state.acts }
    ensures stands { (log : List Act) → StandsFor relay.old log → StandsFor relay.new log }
    ensures heard { queue.new.heard ≡ queue.old.heard }
    ensures reserved { OnOk result (IsReserved relay.new act.now) }
    ensures room { OnOk result ((log : List Act) → StandsFor relay.old log → HasRoomFor queue.new
        (told act.now log) popups) }
    ensures placed { OnOk result (queue.new.has_placed ≡ false) }
{
    relay.reserve(act)?;
    let told = relay.most_told(act).unwrap_or(usize::MAX);
    let events = told.saturating_add(popups);
    let bytes = relay.most_bytes().unwrap_or(usize::MAX);
    queue.reserve(events, bytes)
}

// Makes room for the act, and has the relay take it. It is counted under its number, and the shell
// is told which popups it hides.
fn play(
    relay: &mut Relay,
    act: &Act,
    number: Label,
    queue: &mut Queue,
    census: &mut Census,
    popups: &mut Popups,
) -> Result<(), NoMemory>
    requires number { relay.old.state.acts < 4294967295 }
    requires fits { FitsMessage act.now }
    ensures stands { (log : List Act) → StandsFor relay.old log → OnOk result (StandsFor relay.new
        (act.now ∷ log)) }
    ensures told { (log : List Act) → IsBefore relay.old popups.old.kept act.now number log →
        OnOk result (queue.new.heard ≡ queue.old.heard ++ heard act.now log) }
    ensures kept { (log : List Act) → IsBefore relay.old popups.old.kept act.now number log →
        OnOk result (popups.new.kept ≡ kept_popups (history (act.now ∷ log))) }
    ensures counted { (log : List Act) → census.old.living ≡ living log → number ≡ next log →
        OnOk result (census.new.living ≡ living (act.now ∷ log)) }
    ensures stays { (log : List Act) → StandsFor relay.old log → OnErr result (StandsFor relay.new
        log) }
    ensures waits { OnErr result (queue.new.heard ≡ queue.old.heard) }
    ensures living { OnErr result (census.new.living ≡ census.old.living) }
    ensures limits { census.new.limits ≡ census.old.limits }
    ensures popups { OnErr result (popups.new.kept ≡ popups.old.kept) }
{
    census.reserve()?;
    popups.reserve()?;
    reserve(relay, act, popups.count(), queue)?;
    let _ = relay.step(act, queue);
    census.enter(act, number);
    popups.enter(act, number, relay, queue);
    Ok(())
}

impl RelaySeat {
    /// A seat that took no act, of at most `PEER_LIMIT` peers with at most `OBJECT_LIMIT` objects
    /// each.
    pub fn new(alloc: Global) -> Result<RelaySeat, NoMemory>
        ensures seated { IfOk result (λ seat. Seated seat [] []) }
        ensures counted { IfOk result (λ seat. IsCounted seat []) }
        ensures limits { IfOk result (λ seat. seat.limits ≡ record { peers = 64; objects = 256 }) }
    {
        RelaySeat::with_limits(
            alloc,
            SeatLimits {
                peers: PEER_LIMIT,
                objects: OBJECT_LIMIT,
            },
        )
    }

    /// A seat that took no act, with limits of its own.
    pub fn with_limits(alloc: Global, limits: SeatLimits) -> Result<RelaySeat, NoMemory>
        ensures seated { IfOk result (λ seat. Seated seat [] []) }
        ensures counted { IfOk result (λ seat. IsCounted seat []) }
        ensures limits { IfOk result (λ seat. seat.limits ≡ limits) }
    {
        Ok(RelaySeat {
            relay: Relay::new(alloc)?,
            queue: Queue::new(alloc)?,
            census: Census::new(alloc, limits),
            popups: Popups::new(alloc),
        })
    }

    /// Takes one act, and answers its number, which is the label of what it made. What it tells
    /// waits behind what waited before, and behind that which popups it hides. An act that does
    /// nothing, as one on an object that isn't alive, a key of a board that had no keymap, or a press
    /// while 64 keys are down, costs no number: the answer is none, and the seat is as before. So is
    /// it after a refusal. `Many` comes exactly where the act would make one too many.
    pub fn take(&mut self, act: &Act) -> Result<Option<Label>, Refusal>
        ensures takes { (log : List Act) → (waits : List Heard) → Seated self.old log waits →
            Takes self.new log waits act.now result }
        ensures counts { (log : List Act) → (waits : List Heard) → Seated self.old log waits →
            IsCounted self.old log → Counts self.new log act.now result }
        ensures limits { self.new.limits ≡ self.old.limits }
    {
        if !fits(act) {
            return Err(Refusal::Long);
        }
        if !self.relay.is_live(act) {
            return Ok(None);
        }
        if self.relay.acts() == u32::MAX {
            return Err(Refusal::Full);
        }
        let number = self.relay.acts() + 1;
        if self.census.is_over(act, number) {
            return Err(Refusal::Many);
        }
        match play(
            &mut self.relay,
            act,
            number,
            &mut self.queue,
            &mut self.census,
            &mut self.popups,
        ) {
            Ok(()) => Ok(Some(number)),
            Err(NoMemory) => Err(Refusal::NoMemory),
        }
    }

    /// The event that waits longest, with the length of its text; none where nothing waits.
    pub fn first(&self) -> Option<Event>
        ensures { IsFirst self.now.heard result }
    {
        self.queue.first()
    }

    /// Hands out the event that waits longest, and writes its text to the front of `text`. None
    /// where nothing waits. Where `text` is too short for it, it waits on.
    pub fn pull(&mut self, text: &mut [u8]) -> Result<Option<Event>, TooShort>
        ensures handed { Pulls self.old.heard self.new.heard text.old text.new result }
        ensures relay { (log : List Act) → StandsFor self.old.relay log → StandsFor self.new.relay
            log }
        ensures living { self.new.living ≡ self.old.living }
        ensures popups { self.new.popups ≡ self.old.popups }
        ensures limits { self.new.limits ≡ self.old.limits }
    {
        self.queue.pull(text)
    }

    /// How many acts the seat took. Where it comes near 4,294,967,295, it is time for a new seat.
    pub fn acts(&self) -> u32
        ensures { (log : List Act) → (waits : List Heard) → Seated self.now log waits → result ≡
            length log }
    {
        self.relay.acts()
    }

    /// The surface that has the keyboard focus.
    pub fn focus(&self) -> Option<Label>
        ensures { (log : List Act) → (waits : List Heard) → Seated self.now log waits → result ≡
            focus (history log) }
    {
        self.relay.focus()
    }

    /// The field that holds the seat.
    pub fn holder(&self) -> Option<Label>
        ensures { (log : List Act) → (waits : List Heard) → Seated self.now log waits → result ≡
            holder (history log) }
    {
        self.relay.holder()
    }

    /// The method that serves the seat.
    pub fn serving(&self) -> Option<Label>
        ensures { (log : List Act) → (waits : List Heard) → Seated self.now log waits → result ≡
            serving (history log) }
    {
        self.relay.serving()
    }

    /// The grab that stands. The modifiers of the seat's keyboard go to it, and to the shell's own
    /// clients where there is none.
    pub fn standing(&self) -> Option<Label>
        ensures { (log : List Act) → (waits : List Heard) → Seated self.now log waits → result ≡
            standing (history log) }
    {
        self.relay.standing()
    }

    /// What a batch comes to that the method commits next with this serial
    /// (`zwp_input_method_v2.commit`): asked before that act. Of a label that names no live method
    /// it says `NotServing`.
    pub fn batch(&self, method: Label, serial: u32) -> BatchFate
        ensures { (log : List Act) → (waits : List Heard) → Seated self.now log waits → result ≡
            fate (history log) method serial }
    {
        batch_fate(&self.relay, method, serial)
    }
}
