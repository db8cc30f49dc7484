//! The rounds after an action.
ghost use Rattle.std.specs.Prelude.{◌≡◌, ◌≤◌, true, length};
ghost use Rattle.trial_run.specs.Play.{number_of, is_paused};
ghost use Rattle.trial_run.specs.Rounds.{one_take, takes, turn, round, is_due, is_quiet, rounds};
ghost use Rattle.trial_run.specs.Steps.{has_stored};
ghost use Rattle.trial_run.specs.Working.{HasClient, IsRun, Stays};

use crate::steps::{has_stored, take};
use crate::stop::Stop;
use crate::trial::Trial;
use crate::whose::{Whose, number_of};
use wl_wire::MESSAGE_LIMIT;

impl Trial {
    // A client takes the next bytes that are stored for it, and sends what they ask for.
    fn one_take(&mut self, who: Whose) -> Result<(), Stop>
        requires there { HasClient who self.old }
        requires some { has_stored (number_of who) self.old.broker ≡ true }
        ensures run { IsRun (one_take who self.old) result self.new }
        ensures stays { Stays self.old self.new }
    {
        let mut bytes = [0u8; MESSAGE_LIMIT];
        let count = take(&mut self.shared, number_of(who), &mut bytes)?;
        self.hears(who, &bytes[..count])?;
        self.sends(who)
    }

    // It does so until nothing is stored for it.
    fn takes(&mut self, who: Whose) -> Result<(), Stop>
        requires there { HasClient who self.old }
        ensures run { IsRun (takes self.old.most who self.old) result self.new }
        ensures stays { Stays self.old self.new }
    {
        let most = self.most;
        for taken in 0..most {
            if !has_stored(&self.shared, number_of(who)) {
                return Ok(());
            }
            self.one_take(who)?;
        }
        Ok(())
    }

    // Whether a client stopped reading.
    fn is_paused(&self, who: Whose) -> bool
        requires { HasClient who self.now }
        ensures { result ≡ is_paused who self.now }
    {
        match who {
            Whose::Method => false,
            Whose::Field(index) => self.fields[index].is_paused,
        }
    }

    // A client's part of a round.
    fn turn(&mut self, who: Whose) -> Result<(), Stop>
        requires there { HasClient who self.old }
        ensures run { IsRun (turn who self.old) result self.new }
        ensures stays { Stays self.old self.new }
    {
        if self.is_paused(who) {
            return Ok(());
        }
        self.takes(who)
    }

    // The method's part, and then that of each field.
    fn round(&mut self) -> Result<(), Stop>
        requires few { length self.old.fields ≤ 16 }
        ensures run { IsRun (round self.old) result self.new }
        ensures stays { Stays self.old self.new }
    {
        self.turn(Whose::Method)?;
        for index in 0..self.fields.len() {
            self.turn(Whose::Field(index))?;
        }
        Ok(())
    }

    // Whether something is stored for a client that reads.
    #[tactic(auto, unfolding(crate::specs::Rounds::is_due))]
    fn is_due(&self, who: Whose) -> bool
        requires { HasClient who self.now }
        ensures { result ≡ is_due who self.now }
    {
        !self.is_paused(who) && has_stored(&self.shared, number_of(who))
    }

    // Whether nothing is.
    fn is_quiet(&self) -> bool
        requires { length self.now.fields ≤ 16 }
        ensures { result ≡ is_quiet self.now }
    {
        if self.is_due(Whose::Method) {
            return false;
        }
        for index in 0..self.fields.len() {
            if self.is_due(Whose::Field(index)) {
                return false;
            }
        }
        true
    }

    /// Rounds, until nothing is stored for a client that reads.
    pub(crate) fn rounds(&mut self) -> Result<(), Stop>
        requires few { length self.old.fields ≤ 16 }
        ensures run { IsRun (rounds self.old.most self.old) result self.new }
        ensures stays { Stays self.old self.new }
    {
        let most = self.most;
        for made in 0..most {
            if self.is_quiet() {
                return Ok(());
            }
            self.round()?;
        }
        Ok(())
    }
}
