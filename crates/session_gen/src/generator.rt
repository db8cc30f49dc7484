//! The generator of a session.
ghost use Rattle.std.specs.Prelude.{◌≡◌, ◌+◌, ◌-◌, ◌<◌, ◌≤◌, IfOk, OnOk, OnErr};
ghost use Rattle.broker_steps.specs.Ranges.{IsStep};
ghost use Rattle.session_gen.specs.Generated.{step_of, step_count};

use crate::rows::drawn_step;
use crate::setup::{SETUP_STEPS, setup_step};
use broker_steps::Step;
use rand_core::SeedableRng;
use rand_core::utils::NextWord;
use rand_pcg::Lcg64Xsh32;
use std::alloc::Global;
use std::marker::Model;
use wio_core::NoMemory;

/// The steps of a generated session: 5 joins, 28 set-up messages, and 20,000 steps that the
/// generator's words draw.
pub const STEPS: u32 = 20_033;

/// The steps of the session of a number, one after the other. The same number gives the same
/// session, as long as it is told the same numbers of done events.
#[derive(Drop)]
pub struct Gen {
    number: u64,
    made: u32,
    // The next word is drawn ahead, so that a step that found no memory can be made again.
    word: u32,
    words: Lcg64Xsh32,
}

impl Model for Gen {
    ghost use Rattle.session_gen.specs.Generated.{Progress};

    ghost Value = { Progress };

    ghost use Rattle.session_gen.specs.Kept.{progress, IsKept};

    ghost view = { progress };

    ghost invariant = { IsKept };
}

impl Gen {
    /// The session of a number. Takes no memory.
    pub fn new(number: u64) -> Gen
        ensures { result ≡ record { number = number; made = 0 } }
    {
        let mut words = Lcg64Xsh32::seed_from_u64(number);
        let word = words.next_word();
        Gen {
            number,
            made: 0,
            word,
            words,
        }
    }

    /// How many steps are still to come, [`STEPS`] at first. Takes no memory.
    pub fn left(&self) -> u32
        ensures left { result ≡ step_count - self.now.made }
        ensures few { self.now.made ≤ step_count }
    {
        STEPS - self.made
    }

    /// The next step. `dones` is how many done events the steps before it put into the store of
    /// peer 5, the input method. After `NoMemory` the session is as before.
    pub fn next_step(&mut self, alloc: Global, dones: u32) -> Result<Step, NoMemory>
        requires { self.old.made < step_count }
        ensures step { IfOk result (λ step. step ≡ step_of self.old.number self.old.made dones) }
        ensures valid { IfOk result IsStep }
        ensures ok { OnOk result (self.new ≡ record self.old { made = self.old.made + 1 }) }
        ensures err { OnErr result (self.new ≡ self.old) }
    {
        if self.made < SETUP_STEPS {
            let step = setup_step(alloc, self.made)?;
            self.made += 1;
            return Ok(step);
        }
        let step = drawn_step(alloc, self.word, dones)?;
        self.word = self.words.next_word();
        self.made += 1;
        Ok(step)
    }
}
