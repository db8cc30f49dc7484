//! What a caller asks of a relay beside what it is told.
ghost use Rattle.std.specs.Prelude.{◌≡◌, ◌≤◌, ◌%◌, ◌^◌, min, List, length, option_map, IfSome};
ghost use Rattle.relay_model.specs.declared.act.Act.{Act};
ghost use Rattle.relay_model.specs.Focus.{focus};
ghost use Rattle.relay_model.specs.Hold.{holder};
ghost use Rattle.relay_model.specs.Activation.{serving, begun};
ghost use Rattle.relay_model.specs.Batch.{commit_count};
ghost use Rattle.relay_model.specs.Keys.{standing};
ghost use Rattle.relay_model.specs.Idle.{history, is_live};
ghost use Rattle.relay_model.specs.Told.{told};
ghost use Rattle.relay_core.specs.Bounds.{text_bytes};
ghost use Rattle.relay_core.specs.Kept.{IsReserved};
ghost use Rattle.relay_core.specs.Stands.{StandsFor, dones_told, count_since};

use crate::relay::Relay;
use relay_model::{Act, Label};

impl Relay {
    /// Whether the act would do something.
    pub fn is_live(&self, act: &Act) -> bool
        ensures { (log : List Act) → StandsFor self.now log →
            result ≡ is_live act.now (history log) }
    {
        match act {
            Act::Key { key, state, .. } => !self.machine.keys.refuses(*key, *state == 1),
            Act::VKeymap { board, .. } => self.boards.lives(*board),
            Act::VKey {
                board,
                key,
                state,
                ..
            } => self.boards.takes(*board, *key, *state == 1),
            Act::VMods { board, .. } => self.boards.has_keymap(*board),
            _ => self.machine.is_live(act),
        }
    }

    /// No more events than this are told of the act, whatever came before; none where there is no
    /// such number.
    pub fn most_told(&self, act: &Act) -> Option<usize>
        ensures { IfSome result (λ n. (log : List Act) → StandsFor self.now log →
            length (told act.now log) ≤ n) }
    {
        self.machine.most_told(act)
    }

    /// The texts that an act tells, once room was made for it, have no more bytes than this; none
    /// where there is no such number.
    pub fn most_bytes(&self) -> Option<usize>
        ensures { IfSome result (λ n. (log : List Act) → (act : Act) → StandsFor self.now log →
            IsReserved self.now act → text_bytes (told act log) ≤ n) }
    {
        self.machine.spare_bytes()
    }

    /// The surface that has the keyboard focus.
    pub fn focus(&self) -> Option<Label>
        ensures { (log : List Act) → StandsFor self.now log → result ≡ focus (history log) }
    {
        self.machine.focus
    }

    /// The field that holds the seat.
    pub fn holder(&self) -> Option<Label>
        ensures { (log : List Act) → StandsFor self.now log → result ≡ holder (history log) }
    {
        self.machine.holder
    }

    /// The method that serves the seat.
    pub fn serving(&self) -> Option<Label>
        ensures { (log : List Act) → StandsFor self.now log → result ≡ serving (history log) }
    {
        self.machine.serving
    }

    /// How many dones the serving method was told, modulo 2^32: the serial of the last
    /// (`zwp_input_method_v2.commit`). 0 where no method serves.
    pub fn dones(&self) -> u32
        ensures { (log : List Act) → StandsFor self.now log →
            result ≡ length (dones_told (history log) (serving (history log))) % 2 ^ 32 }
    {
        self.machine.dones.get()
    }

    /// How many of these dones came in the present activation, at most 2^32. 0 where none stands.
    pub fn dones_since(&self) -> u64
        ensures { (log : List Act) → StandsFor self.now log →
            result ≡ min (count_since (begun (history log))
            (dones_told (history log) (serving (history log)))) (2 ^ 32) }
    {
        self.machine.since.get()
    }

    /// How often the field that holds the seat committed, modulo 2^32: what its next done says
    /// (`zwp_text_input_v3.done`). None where no field holds it.
    pub fn holder_commits(&self) -> Option<u32>
        ensures { (log : List Act) → StandsFor self.now log →
            result ≡ option_map (commit_count (history log)) (holder (history log)) }
    {
        self.machine.holder_commits()
    }

    /// The grab that stands, to which modifiers go, and the first press of a key.
    pub fn standing(&self) -> Option<Label>
        ensures { (log : List Act) → StandsFor self.now log → result ≡ standing (history log) }
    {
        self.machine.keys.standing()
    }
}
