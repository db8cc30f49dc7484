//! What holds of every list of acts, by the definitions.
ghost use Rattle.std.specs.Prelude.{◌≡◌, ℕ, List};
ghost use Rattle.relay_model.specs.declared.act.Act.{Act};
ghost use Rattle.relay_model.specs.Batch.{relayed};
ghost use Rattle.relay_model.specs.Idle.{history};
ghost use Rattle.relay_model.specs.WithoutBoards.{without_boards};

/// Virtual keyboards change nothing of what is relayed: each field is relayed the same with `Idle`
/// in the place of each act that makes a board, comes from one, or drops one.
pub fn boards_relay_nothing()
    ensures { (acts : List Act) (f : ℕ) → relayed (history (without_boards acts)) f ≡ relayed
        (history acts) f }
{}
