//! The seat and the numbers.
ghost use Rattle.std.specs.Prelude.{◌≡◌, [], List, IfOk};
ghost use Rattle.relay_model.specs.declared.act.Act.{Act};
ghost use Rattle.relay_core.specs.Stands.{StandsFor};
ghost use Rattle.c_relay.specs.Seated.{IsCounted, Seated};
ghost use Rattle.c_relay.specs.Waiting.{Pulls};
ghost use Rattle.c_relay.specs.Numbers.{Gives, GivesMade, SeatCounts, SeatTook, number_at};

use crate::{Event, Refusal, RelaySeat, SeatLimits, TooShort};
use relay_model::{Act, Label};
use std::alloc::Global;
use std::collections::HashMap;
use std::marker::Model;
use wio_core::NoMemory;

/// A seat, and a number of the embedder's for each label that was given one and isn't forgotten.
#[derive(Drop)]
pub struct NumberedSeat {
    seat: RelaySeat,
    numbers: HashMap<Label, u64>,
}

impl Model for NumberedSeat {
    ghost use Rattle.c_relay.specs.Numbers.{Numbered};
    ghost use Rattle.std.specs.Coded.{codes};
    ghost use Rattle.relay_core.specs.Keyboard.{keyboard_code};
    ghost use Rattle.relay_core.specs.BoardKeys.{boards_code};

    ghost Value = { Numbered };

    ghost coded = { Prim.hlevel (codes, keyboard_code, boards_code) };

    ghost view = { λ s. record { seat = s.seat; numbers = s.numbers.entries } };
}

impl NumberedSeat {
    /// A seat that took no act, with limits of its own; no label has a number.
    pub fn new(alloc: Global, limits: SeatLimits) -> Result<NumberedSeat, NoMemory>
        ensures seat { IfOk result (λ made. Seated made.seat [] []) }
        ensures counted { IfOk result (λ made. IsCounted made.seat []) }
        ensures limits { IfOk result (λ made. made.seat.limits ≡ limits) }
        ensures numbers { IfOk result (λ made. made.numbers ≡ []) }
    {
        Ok(NumberedSeat {
            seat: RelaySeat::with_limits(alloc, limits)?,
            numbers: HashMap::new(alloc),
        })
    }

    /// Takes one act, as `RelaySeat::take` does. No number changes.
    pub fn take(&mut self, act: &Act) -> Result<Option<Label>, Refusal>
        ensures seat { SeatTook self.old.seat self.new.seat act.now result }
        ensures counts { SeatCounts self.old.seat self.new.seat act.now result }
        ensures numbers { self.new.numbers ≡ self.old.numbers }
    {
        self.seat.take(act)
    }

    /// Takes an act that makes an object, and gives the object the number. Where the act does nothing or is refused no
    /// number changes. (One that makes no object has the number too, until its label is ended: it is for `take`.)
    pub fn make(&mut self, act: &Act, number: u64) -> Result<Option<Label>, Refusal>
        ensures seat { SeatTook self.old.seat self.new.seat act.now result }
        ensures counts { SeatCounts self.old.seat self.new.seat act.now result }
        ensures numbers { GivesMade result self.old.numbers self.new.numbers number }
    {
        let Ok(()) = self.numbers.reserve(1) else {
            return Err(Refusal::NoMemory);
        };
        let answer = self.seat.take(act);
        if let Ok(Some(label)) = answer {
            let _ = self.numbers.insert(label, number);
        }
        answer
    }

    /// Takes the act of an object's end, and forgets the object's number, also where the act does nothing or is refused.
    pub fn end(&mut self, label: Label) -> Result<Option<Label>, Refusal>
        ensures seat { SeatTook self.old.seat self.new.seat (Act.Drop label) result }
        ensures counts { SeatCounts self.old.seat self.new.seat (Act.Drop label) result }
        ensures numbers { Gives self.old.numbers self.new.numbers label 0 }
    {
        let _ = self.numbers.remove(&label);
        self.seat.take(&Act::Drop { label })
    }

    /// The number of the label; 0 where it has none.
    pub fn number(&self, label: Label) -> u64
        ensures { result ≡ number_at self.now.numbers label }
    {
        match self.numbers.get(&label) {
            Some(number) => *number,
            None => 0,
        }
    }

    /// Hands out the event that waits longest, as `RelaySeat::pull` does.
    pub fn pull(&mut self, text: &mut [u8]) -> Result<Option<Event>, TooShort>
        ensures handed { Pulls self.old.seat.heard self.new.seat.heard text.old text.new result }
        ensures relay { (log : List Act) → StandsFor self.old.seat.relay log → StandsFor
            self.new.seat.relay log }
        ensures living { self.new.seat.living ≡ self.old.seat.living }
        ensures popups { self.new.seat.popups ≡ self.old.seat.popups }
        ensures limits { self.new.seat.limits ≡ self.old.seat.limits }
        ensures numbers { self.new.numbers ≡ self.old.numbers }
    {
        self.seat.pull(text)
    }

    /// The seat, which shows what stands on it and what waits longest.
    pub fn seat(&self) -> &RelaySeat
        ensures { result.now ≡ self.now.seat }
    {
        &self.seat
    }
}
