//! One board: whose it is, whether it had a keymap, and the keys that are down on it.
ghost use Rattle.std.specs.Prelude.{◌≡◌, ◌==◌, ◌≤◌, ◌↔◌, IfOk, IsTrue, Some, None, true};
ghost use Rattle.std.specs.Option.{option_map};
ghost use Rattle.std.specs.FinMap as map;
ghost use Rattle.virt_keys.specs.Routes.{of_another};
ghost use Rattle.virt_keys.specs.Boards.{new_board, routed, turned, takes_at, mods_routed};

use kbd_grab::{HeldKeys, Label, NoMemory, Route};
use std::alloc::Global;
use std::marker::Model;

/// A board of a peer.
#[derive(Debug, Drop)]
pub struct Board {
    peer: Label,
    has_keymap: bool,
    held: HeldKeys,
}

impl Model for Board {
    ghost use Rattle.virt_keys.specs.Boards as specs;

    ghost Value = { specs.Board };

    ghost coded = { specs.board_code };

    ghost view = { λ b. record {
      peer = b.peer;
      has_keymap = b.has_keymap;
      down = b.held;
    } };
}

// The label of the grab that stands.
fn label_of(grab: Option<(Label, Label)>) -> Option<Label>
    ensures { result ≡ option_map (λ g. g.0) grab }
{
    match grab {
        Some((label, _)) => Some(label),
        None => None,
    }
}

// The grab that stands, where its peer is another.
fn of_another(peer: Label, grab: Option<(Label, Label)>) -> Option<Label>
    ensures { result ≡ of_another (Some peer) grab }
{
    match grab {
        Some((label, other)) if other != peer => Some(label),
        _ => None,
    }
}

impl Board {
    /// A board on which no key is down. Takes room for the 64 keys that may be.
    pub fn new(alloc: Global, peer: Label) -> Result<Board, NoMemory>
        ensures { IfOk result (λ board. board ≡ new_board peer) }
    {
        Ok(Board {
            peer,
            has_keymap: false,
            held: HeldKeys::new(alloc)?,
        })
    }

    /// Whether it is the peer's.
    pub fn is_of(&self, peer: Label) -> bool
        ensures { result ≡ (self.now.peer == peer) }
    {
        self.peer == peer
    }

    /// It is given a keymap.
    pub fn keymap(&mut self)
        ensures { self.new ≡ record self.old { has_keymap = true } }
    {
        self.has_keymap = true;
    }

    /// Whether it was given a keymap.
    pub fn has_keymap(&self) -> bool
        ensures { result ≡ self.now.has_keymap }
    {
        self.has_keymap
    }

    /// A press or a release of a key, while `grab` stands, with its peer: where it goes.
    pub fn key(&mut self, key: u32, pressed: bool, grab: Option<(Label, Label)>) -> Route
        ensures route { result ≡ routed self.old key pressed grab }
        ensures board { self.new ≡ turned self.old key pressed grab }

        // 64 keys are down on it, and this press is of another.
        ensures too_many { (result ≡ Route.TooMany) ↔ (IsTrue pressed
            × (map.len self.old.down ≡ 64) × (map.get self.old.down key ≡ None)) }
        ensures refused { result ≡ Route.TooMany → self.new ≡ self.old }
    {
        self.held
            .turn(of_another(self.peer, grab), label_of(grab), key, pressed)
    }

    /// Whether it was given a keymap, and `key` wouldn't refuse this press or release.
    pub fn takes(&self, key: u32, pressed: bool) -> bool
        ensures { result ≡ takes_at (Some self.now) key pressed }
    {
        self.has_keymap && !self.held.refuses(key, pressed)
    }

    /// Where modifiers go, while `grab` stands, with its peer.
    pub fn mods(&self, grab: Option<(Label, Label)>) -> Route
        ensures { result ≡ mods_routed self.now grab }
    {
        match of_another(self.peer, grab) {
            Some(label) => Route::ToGrab(label),
            None => Route::Pass,
        }
    }
}
