//! The keys that are down, and where each one's first press went.
ghost use Rattle.std.specs.Prelude.{◌≡◌, ◌≤◌, ◌↔◌, IfOk, IsTrue, None};
ghost use Rattle.std.specs.FinMap as map;
ghost use Rattle.kbd_grab.specs.Keyboard.{turned_at, routed_at, refused_at};

use crate::down::{Down, KEYS_DOWN, refuses, turn};
use crate::keyboard::{Label, Route};
use std::alloc::Global;
use std::marker::Model;
use wio_core::NoMemory;

/// The keys that are down on one keyboard, at most 64.
///
/// In contracts they are a finite map to the grab that each key's first press went to, none where it
/// passed to the shell. Only `new` takes memory.
#[derive(Debug, Drop)]
pub struct HeldKeys {
    down: Vec<Down>,
}

impl Model for HeldKeys {
    ghost use Rattle.std.specs.Vec.{vec_capacity};
    ghost use Rattle.std.specs.FinMap as map;
    ghost use Rattle.std.specs.Coded.{coded_ℕ, coded_option};
    ghost use Rattle.kbd_grab.specs.Keyboard.{DownKeys};
    ghost use Rattle.kbd_grab.specs.DownList.{keys_of, IsTidy};

    ghost Value = { DownKeys };

    ghost coded = { map.code coded_ℕ (coded_option coded_ℕ) };

    ghost view = { λ a. keys_of a.down.items };

    ghost invariant = { λ a. IsTidy a.down.items (vec_capacity a.down) };
}

impl HeldKeys {
    /// No key is down. Takes room for the 64 that may be.
    pub fn new(alloc: Global) -> Result<Self, NoMemory>
        ensures { IfOk result (λ keys. keys ≡ map.empty) }
    {
        Ok(Self {
            down: Vec::with_capacity(alloc, KEYS_DOWN)?,
        })
    }

    /// A press (`pressed`) or a release of the key with this code: where it goes.
    ///
    /// A press of a key that is up goes to the grab `opens`, and to the shell where there is none; it is refused with
    /// `TooMany` where 64 keys are down, and then nothing changes. A key that is down goes where its first press went,
    /// and nowhere where that is a grab other than `standing`. A release of a key that is up goes to the shell.
    pub fn turn(
        &mut self,
        opens: Option<Label>,
        standing: Option<Label>,
        key: u32,
        pressed: bool,
    ) -> Route
        ensures route { result ≡ routed_at (map.get self.old key) opens standing (map.len self.old)
            pressed }

        // 64 keys are down, and this press is of another.
        ensures too_many { (result ≡ Route.TooMany) ↔
            (IsTrue pressed × (map.len self.old ≡ 64) × (map.get self.old key ≡ None)) }
        ensures refused { result ≡ Route.TooMany → self.new ≡ self.old }
        ensures few { map.len self.old ≤ 64 }
        ensures keys { self.new ≡ turned_at (map.get self.old key) opens self.old key pressed }
    {
        turn(&mut self.down, opens, standing, key, pressed)
    }

    /// Whether `turn` would refuse this press (`pressed`) or release: 64 keys are down, and it is a press of another.
    pub fn refuses(&self, key: u32, pressed: bool) -> bool
        ensures { result ≡ refused_at (map.get self.now key) (map.len self.now) pressed }
    {
        refuses(&self.down, key, pressed)
    }
}
