//! The relay's part on virtual keyboards: the boards that live, and one that may be made ahead.
ghost use Rattle.std.specs.Prelude.{◌≡◌, ◌<◌, ◌==◌, ℕ, Some, None, OnOk, OnErr, if◌then◌else◌, is_some};
ghost use Rattle.std.specs.FinMap as map;
ghost use Rattle.virt_keys.specs.Boards.{new_board, takes_at};
ghost use Rattle.relay_core.specs.Kept.{state, kept};
ghost use Rattle.relay_core.specs.BoardKeys.{live_board, may_send, with_keymap, key_turned};
ghost use Rattle.relay_core.specs.BoardKeys.{key_sent, mods_sent, unless_of, board_after, sent_by};
ghost use Rattle.relay_core.specs.BoardKeys.{sent_told, is_for_boards, HasBoard};
ghost use Rattle.relay_objects.specs.Reached.{Reached};

use crate::machine::Machine;
use kbd_grab::{NoMemory, Route};
use relay_model::{Act, Label};
use relay_objects::{Post, is_number, tell_board_mods, tell_key};
use std::alloc::Global;
use virt_keys::VKeys;

/// The boards, and the label of one that was made ahead and isn't there yet.
#[derive(Drop)]
pub struct Boards {
    pub keys: VKeys,
    pub ahead: Option<Label>,
}

impl Boards {
    /// The board lives.
    pub fn lives(&self, board: Label) -> bool
        ensures { result ≡ is_some (live_board (kept self.now) board) }
    {
        !is_number(self.ahead, board) && self.keys.contains(board)
    }

    /// The board lives and has had a keymap.
    pub fn has_keymap(&self, board: Label) -> bool
        ensures { result ≡ may_send (live_board (kept self.now) board) }
    {
        self.lives(board) && self.keys.has_keymap(board)
    }

    /// The board lives, has had a keymap, and doesn't refuse the press or release.
    pub fn takes(&self, board: Label, key: u32, pressed: bool) -> bool
        ensures { result ≡ takes_at (live_board (kept self.now) board) key pressed }
    {
        !is_number(self.ahead, board) && self.keys.takes(board, key, pressed)
    }

    // What is kept under the label is kept no more.
    fn forget(&mut self, board: Label)
        ensures ahead { self.new.ahead ≡ self.old.ahead }
        ensures keys { (v : ℕ) → map.get self.new.keys v
            ≡ (if board == v then None else map.get self.old.keys v) }
    {
        if self.keys.contains(board) {
            self.keys.drop_board(board);
        }
    }

    // No board is made ahead any more, but one with the label.
    fn forget_others(&mut self, board: Label)
        ensures ahead { self.new.ahead ≡ self.old.ahead }
        ensures keys { (v : ℕ) → map.get self.new.keys v
            ≡ (if board == v then map.get self.old.keys v else live_board (kept self.old) v) }
    {
        if let Some(made) = self.ahead {
            if made != board {
                self.forget(made);
            }
        }
    }

    /// A board of the peer is made ahead, in place of any that has the label. Others that live stay. `NoMemory` is its
    /// one error, after which all is as before.
    pub fn make_ahead(&mut self, board: Label, peer: Label) -> Result<(), NoMemory>
        ensures same { OnOk result ((v : ℕ) → live_board (kept self.new) v
            ≡ (if board == v then None else live_board (kept self.old) v)) }
        ensures label { OnOk result (self.new.ahead ≡ Some board) }
        ensures made { OnOk result (map.get self.new.keys board ≡ Some (new_board peer)) }
        ensures err { OnErr result (kept self.new ≡ kept self.old) }
    {
        self.keys.make(board, peer)?;
        self.forget_others(board);
        self.ahead = Some(board);
        Ok(())
    }

    // The board is given a keymap, if it lives.
    fn give_keymap(&mut self, board: Label)
        ensures { (v : ℕ) → live_board (kept self.new) v
            ≡ (if board == v then with_keymap (live_board (kept self.old) v)
            else live_board (kept self.old) v) }
    {
        if self.lives(board) {
            self.keys.keymap(board);
        }
    }

    // A press or a release on the board, if it may send it: where it goes.
    fn turn_key(
        &mut self,
        board: Label,
        key: u32,
        pressed: bool,
        grab: Option<(Label, Label)>,
    ) -> Option<Route>
        ensures after { (v : ℕ) → live_board (kept self.new) v
            ≡ (if board == v then key_turned key pressed grab (live_board (kept self.old) v)
            else live_board (kept self.old) v) }
        ensures sent { result ≡ key_sent key pressed grab (live_board (kept self.old) board) }
    {
        if self.has_keymap(board) {
            Some(self.keys.key(board, key, pressed, grab))
        } else {
            None
        }
    }

    // Where the board's modifiers go, if it may send them.
    fn route_mods(&self, board: Label, grab: Option<(Label, Label)>) -> Option<Route>
        ensures { result ≡ mods_sent grab (live_board (kept self.now) board) }
    {
        if self.has_keymap(board) {
            Some(self.keys.mods(board, grab))
        } else {
            None
        }
    }

    // The label's board ends, if it is one.
    fn drop_label(&mut self, label: Label)
        ensures { (v : ℕ) → live_board (kept self.new) v
            ≡ (if label == v then None else live_board (kept self.old) v) }
    {
        if self.lives(label) {
            self.keys.drop_board(label);
        }
    }

    // The boards of the peer end.
    fn drop_peer(&mut self, peer: Label)
        ensures { (v : ℕ) → live_board (kept self.new) v
            ≡ unless_of peer (live_board (kept self.old) v) }
    {
        self.keys.drop_peer(peer);
    }

    // The board that was made ahead lives, if its peer does.
    fn begin(&mut self, peer: Label, machine: &Machine)
        requires made { HasBoard (Act.VBoard peer) (state machine.now) (kept self.old) }
        requires number { machine.now.acts < 4294967295 }
        ensures { (v : ℕ) → live_board (kept self.new) v
            ≡ board_after (Act.VBoard peer) (state machine.now) (kept self.old) v }
    {
        if machine.objects.is_peer(peer) {
            self.ahead = None;
        }
    }

    /// What the act makes of the boards, before the machine takes it: where goes what it sends.
    pub fn turn(&mut self, act: &Act, machine: &Machine) -> Option<Route>
        requires made { HasBoard act.now (state machine.now) (kept self.old) }
        requires number { machine.now.acts < 4294967295 }
        ensures after { (v : ℕ) → live_board (kept self.new) v
            ≡ board_after act.now (state machine.now) (kept self.old) v }
        ensures sent { result ≡ sent_by act.now (state machine.now) (kept self.old) }
    {
        match act {
            Act::VBoard { peer } => self.begin(*peer, machine),
            Act::VKeymap { board, .. } => self.give_keymap(*board),
            Act::VKey {
                board,
                key,
                state,
                ..
            } => return self.turn_key(*board, *key, *state == 1, machine.grab()),
            Act::VMods { board, .. } => return self.route_mods(*board, machine.grab()),
            Act::Drop { label } => self.drop_label(*label),
            Act::Gone { peer, .. } => {
                if machine.objects.is_peer(*peer) {
                    self.drop_peer(*peer);
                }
            }
            _ => {}
        }
        None
    }
}

/// The act is one that boards have to do with.
#[inline(always)]
pub fn is_for_boards(act: &Act) -> bool
    ensures { result ≡ is_for_boards act.now }
{
    matches!(
        act,
        Act::VBoard { .. }
            | Act::VKeymap { .. }
            | Act::VKey { .. }
            | Act::VMods { .. }
            | Act::Drop { .. }
            | Act::Gone { .. }
    )
}

/// Tells what a board sends, by the number of the act, where it goes.
pub fn tell_sent<P: Post>(act: &Act, number: u32, route: Option<Route>, post: &mut P)
    ensures { Reached P.may_follow post.old (sent_told act.now number route) post.new }
{
    let Some(route) = route else {
        return;
    };
    match act {
        Act::VKey {
            time,
            key,
            state,
            ..
        } => tell_key(route, number, *time, *key, *state, post),
        Act::VMods { mods, .. } => tell_board_mods(route, number, *mods, post),
        _ => {}
    }
}
