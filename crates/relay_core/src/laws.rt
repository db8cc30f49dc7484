//! What it is for a relay to stand for a list of acts, in other words.
ghost use Rattle.std.specs.Prelude.{◌≡◌, ◌+◌, ℕ, List, [], length, if◌then◌else◌};
ghost use Rattle.relay_model.specs.declared.act.Act.{Act};
ghost use Rattle.relay_model.specs.declared.act.Act.TheVariants as acts;
ghost use Rattle.relay_model.specs.Boards.{sends, board_route, grab_for};
ghost use Rattle.relay_model.specs.Idle.{history};
ghost use Rattle.relay_model.specs.Keys.{Keymap, Mods};
ghost use Rattle.relay_model.specs.Told.{told, key_told, board_mods_told};
ghost use Rattle.relay_core.specs.Kept.{Shown};
ghost use Rattle.relay_core.specs.Stands.{StandsFor};
ghost use Rattle.relay_core.specs.KeyboardKept.{KeepsKeyboard};

/// What a relay keeps of the keyboard is what the definitions say of the acts that it stands for.
pub fn keyboard_law()
    ensures { (relay : Shown) (log : List Act) → StandsFor relay log →
        KeepsKeyboard relay.state.keys (history log) }
{}

/// The acts of boards tell where their keys and modifiers go, and nothing else: a new board and a
/// keymap tell nothing, and so does a board that has had no keymap. A press that is refused goes
/// nowhere.
pub fn board_law()
    ensures made { (log : List Act) (p : ℕ) → told (acts.VBoard p) log ≡ [] }
    ensures keymap { (log : List Act) (v : ℕ) (keymap : Keymap) →
        told (acts.VKeymap v keymap) log ≡ [] }
    ensures key { (log : List Act) (v time key state : ℕ) → told (acts.VKey v time key state) log
        ≡ (if sends (history log) v then key_told (length log + 1) time key state
        (board_route (history log) v key state) else []) }
    ensures mods { (log : List Act) (v : ℕ) (mods : Mods) → told (acts.VMods v mods) log
        ≡ (if sends (history log) v then board_mods_told (length log + 1) mods
        (grab_for (history log) v) else []) }
{}
