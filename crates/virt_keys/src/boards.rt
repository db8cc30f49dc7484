//! The live boards by their labels.
ghost use Rattle.std.specs.Prelude.{◌≡◌, ◌↔◌, ◌∷◌, [], List, IfOk, IfSome, IsTrue, IsSome};
ghost use Rattle.std.specs.Prelude.{OnOk, OnErr, Some, None, true, not, ◌&&◌};
ghost use Rattle.std.specs.Option.{option_map};
ghost use Rattle.std.specs.FinMap as map;
ghost use Rattle.virt_keys.specs.Routes.{Call, key_route, mods_route, had_keymap, is_refused};
ghost use Rattle.virt_keys.specs.Routes.Call.{Make, Drop, Keymap, Key};
ghost use Rattle.virt_keys.specs.Boards.{StandsFor, IsElsewhere, keymap_at, takes_at};
ghost use Rattle.virt_keys.specs.Boards.{new_board, routed, turned, mods_routed};

mod peers;

use crate::board::Board;
use kbd_grab::{Label, NoMemory, Route};
use std::alloc::Global;
use std::collections::BTreeMap;
use std::marker::Model;

/// The live boards (`zwp_virtual_keyboard_v1`), and the keys that are down on each.
///
/// In contracts it is a finite map from labels to boards. `StandsFor calls boards` says that the boards are what a list
/// of calls, the newest first, makes of them by looking back. A look-up costs the logarithm of the number of boards.
/// Only `new` and `make` take memory.
#[derive(Drop)]
pub struct VKeys {
    alloc: Global,
    boards: BTreeMap<Label, Board>,
}

impl Model for VKeys {
    ghost use Rattle.std.specs.Coded.{coded_ℕ};
    ghost use Rattle.std.specs.FinMap as map;
    ghost use Rattle.virt_keys.specs.Boards as specs;

    ghost Value = { specs.Boards };

    ghost coded = { map.code coded_ℕ specs.board_code };

    ghost view = { λ v. map.from_entries v.boards.entries };
}

impl VKeys {
    /// No board lives. `NoMemory` is its one error.
    pub fn new(alloc: Global) -> Result<VKeys, NoMemory>
        ensures none { IfOk result (λ boards. boards ≡ map.empty) }
        ensures history { IfOk result (λ boards. StandsFor [] boards) }
    {
        Ok(VKeys {
            alloc,
            boards: BTreeMap::new(alloc),
        })
    }

    /// A board of the peer is made (`create_virtual_keyboard`), in place of a live one that has the label. Takes room
    /// for the 64 keys that may be down on it. `NoMemory` is its one error, after which all is as before.
    pub fn make(&mut self, board: Label, peer: Label) -> Result<(), NoMemory>
        ensures ok { OnOk result (self.new ≡ map.insert self.old board (new_board peer)) }
        ensures err { OnErr result (self.new ≡ self.old) }
        ensures history { (calls : List Call) → StandsFor calls self.old →
            map.get self.old board ≡ None →
            OnOk result (StandsFor (Make board peer ∷ calls) self.new) }
    {
        let made = Board::new(self.alloc, peer)?;
        match self.boards.insert(board, made) {
            Ok(_) => Ok(()),
            Err(_) => Err(NoMemory),
        }
    }

    /// The board ends, and its keys are forgotten.
    pub fn drop_board(&mut self, board: Label)
        requires live { IsSome (map.get self.old board) }
        ensures left { self.new ≡ map.remove self.old board }
        ensures history { (calls : List Call) → StandsFor calls self.old →
            StandsFor (Drop board ∷ calls) self.new }
    {
        let _ = self.boards.remove(&board);
    }

    /// The board is given a keymap (`zwp_virtual_keyboard_v1.keymap`), of which nothing else is kept.
    pub fn keymap(&mut self, board: Label)
        requires live { IsSome (map.get self.old board) }
        ensures now { IfSome (map.get self.old board) (λ b.
            self.new ≡ map.insert self.old board (record b { has_keymap = true })) }
        ensures history { (calls : List Call) → StandsFor calls self.old →
            StandsFor (Keymap board ∷ calls) self.new }
    {
        self.boards.get_mut(&board).unwrap().keymap();
    }

    /// Whether a live board has the label, and was given a keymap.
    pub fn has_keymap(&self, board: Label) -> bool
        ensures now { result ≡ keymap_at (map.get self.now board) }
        ensures history { (calls : List Call) → StandsFor calls self.now →
            result ≡ had_keymap calls board }
    {
        match self.boards.get(&board) {
            Some(board) => board.has_keymap(),
            None => false,
        }
    }

    /// Whether a live board has the label, was given a keymap, and `key` wouldn't refuse this press (`pressed`) or
    /// release with `TooMany`.
    pub fn takes(&self, board: Label, key: u32, pressed: bool) -> bool
        ensures now { result ≡ takes_at (map.get self.now board) key pressed }
        ensures history { (calls : List Call) → StandsFor calls self.now →
            result ≡ (had_keymap calls board && not (is_refused calls board key pressed)) }
    {
        match self.boards.get(&board) {
            Some(board) => board.takes(key, pressed),
            None => false,
        }
    }

    /// A press (`pressed`) or a release of the key with this code on the board, while `grab` stands, with its peer, or
    /// none: where it goes. After `TooMany` all is as before.
    pub fn key(
        &mut self,
        board: Label,
        key: u32,
        pressed: bool,
        grab: Option<(Label, Label)>,
    ) -> Route
        requires live { IsSome (map.get self.old board) }
        ensures now { IfSome (map.get self.old board) (λ b. result ≡ routed b key pressed grab) }
        ensures route { (calls : List Call) → StandsFor calls self.old →
            result ≡ key_route calls board key pressed grab }
        ensures history { (calls : List Call) → StandsFor calls self.old →
            StandsFor (Key board key pressed grab ∷ calls) self.new }

        // 64 keys are down on the board, and this press is of another.
        ensures too_many { IfSome (map.get self.old board) (λ b. (result ≡ Route.TooMany) ↔
            (IsTrue pressed × (map.len b.down ≡ 64) × (map.get b.down key ≡ None))) }

        // The key is down on the board, and its first press went to a grab that doesn't stand.
        ensures nowhere { IfSome (map.get self.old board) (λ b. (result ≡ Route.Nowhere) ↔
            IsElsewhere (map.get b.down key) (option_map (λ g. g.0) grab)) }
        ensures refused { result ≡ Route.TooMany → self.new ≡ self.old }
        ensures keys { IfSome (map.get self.old board) (λ b.
            self.new ≡ map.insert self.old board (turned b key pressed grab)) }
    {
        self.boards.get_mut(&board).unwrap().key(key, pressed, grab)
    }

    /// Where the board's modifiers go (`zwp_virtual_keyboard_v1.modifiers`), while `grab` stands, with its peer, or
    /// none: to that grab or to the shell.
    pub fn mods(&self, board: Label, grab: Option<(Label, Label)>) -> Route
        requires live { IsSome (map.get self.now board) }
        ensures now { IfSome (map.get self.now board) (λ b. result ≡ mods_routed b grab) }
        ensures route { (calls : List Call) → StandsFor calls self.now →
            result ≡ mods_route calls board grab }
    {
        self.boards.get(&board).unwrap().mods(grab)
    }
}
