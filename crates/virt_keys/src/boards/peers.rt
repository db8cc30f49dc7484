//! The boards that are there, and those of a peer that ends.
ghost use Rattle.std.specs.Prelude.{◌≡◌, ◌∷◌, ℕ, List, is_some};
ghost use Rattle.std.specs.FinMap as map;
ghost use Rattle.virt_keys.specs.Boards.{StandsFor};
ghost use Rattle.virt_keys.specs.PeerBoards.{unless_of};
ghost use Rattle.virt_keys.specs.Routes.{Call};
ghost use Rattle.virt_keys.specs.Routes.Call.{Gone};

use super::VKeys;
use kbd_grab::Label;

impl VKeys {
    /// Whether a board lives with the label.
    pub fn contains(&self, board: Label) -> bool
        ensures { result ≡ is_some (map.get self.now board) }
    {
        self.boards.get(&board).is_some()
    }

    /// The peer ends, and its boards with it; others stay. It costs a look at each board.
    pub fn drop_peer(&mut self, peer: Label)
        ensures left { (board : ℕ) → map.get self.new board ≡ unless_of peer (map.get self.old
            board) }
        ensures history { (calls : List Call) → StandsFor calls self.old → StandsFor (Gone peer ∷
            calls) self.new }
    {
        self.boards.retain(|_, board| !board.is_of(peer));
    }
}
