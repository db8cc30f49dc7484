//! The relay as its callers see it.
use crate::boards::{Boards, is_for_boards, tell_sent};
use crate::machine::Machine;
use edit_batch::Pending;
use kbd_grab::{Grab, NoMemory, Route};
use relay_model::{Act, Label, Size};
use relay_objects::{Objects, Post, Spare};
use serial_count::{Count32, Since};
use std::alloc::Global;
use std::marker::Model;
use virt_keys::VKeys;

/// The broker's state on one seat: which objects live, which surface has the focus, which field
/// holds the seat, which method serves, and what is pending. It stands for the list of all acts
/// that it took, of which it keeps no copy: an act costs the objects that it changes and what it
/// tells, however many others live and whatever came before.
#[derive(Drop)]
pub struct Relay {
    pub(crate) machine: Machine,
    pub(crate) boards: Boards,
}

impl Model for Relay {
    ghost use Rattle.relay_core.specs.Kept.{Shown, shown};
    ghost use Rattle.std.specs.Coded.{codes};
    ghost use Rattle.kbd_grab.specs.Keyboard.{keyboard_code};
    ghost use Rattle.relay_core.specs.BoardKeys.{boards_code};

    ghost Value = { Shown };

    ghost coded = { Prim.hlevel (codes, keyboard_code, boards_code) };

    ghost view = { λ r. shown r.machine r.boards };
}

impl Relay {
    ghost use Rattle.std.specs.Prelude.{◌≡◌, ◌<◌, List, [], ◌∷◌, length, true, IfOk, OnOk, OnErr};
    ghost use Rattle.relay_model.specs.declared.act.Act.{Act};
    ghost use Rattle.relay_model.specs.Objects.{has_popup};
    ghost use Rattle.relay_model.specs.Boards.{sends};
    ghost use Rattle.relay_model.specs.Idle.{history};
    ghost use Rattle.relay_model.specs.Told.{told};
    ghost use Rattle.relay_objects.specs.Reached.{Reached};
    ghost use Rattle.relay_objects.specs.Fits.{FitsMessage};
    ghost use Rattle.relay_core.specs.Kept.{IsReserved};
    ghost use Rattle.relay_core.specs.Stands.{StandsFor, route_told};

    /// A relay that took no act.
    pub fn new(alloc: Global) -> Result<Relay, NoMemory>
        ensures { IfOk result (λ relay. StandsFor relay []) }
    {
        let pending = Pending::new(alloc)?;
        let keys = Grab::new(alloc)?;
        let boards = VKeys::new(alloc)?;
        Ok(Relay {
            machine: Machine {
                alloc,
                acts: 0,
                objects: Objects::new(alloc),
                focus: None,
                holder: None,
                serving: None,
                pending,
                active: false,
                dones: Count32::at(0),
                since: Since::at(0),
                screen: Size {
                    width: 0,
                    height: 0,
                },
                keys,
                spare: Spare::new(alloc),
            },
            boards: Boards {
                keys: boards,
                ahead: None,
            },
        })
    }

    /// How many acts the relay took.
    pub fn acts(&self) -> u32
        ensures number { result ≡ self.now.state.acts }
        ensures length { (log : List Act) → StandsFor self.now log → result ≡ length log }
    {
        self.machine.acts
    }

    /// Makes the room for one act, with copies of the texts that it may tell and the place of a
    /// field that it may make. Asks that a message can carry the act's text. The relay stands for
    /// what it stood for, also after `NoMemory`; then each act for which room was made still has it.
    #[tactic(auto, using(crate::proofs::RoomForActs::has_room))]
    pub fn reserve(&mut self, act: &Act) -> Result<(), NoMemory>
        requires { FitsMessage act.now }
        ensures same { self.new.state ≡ self.old.state }
        ensures stands { (log : List Act) → StandsFor self.old log → StandsFor self.new log }
        ensures reserved { OnOk result (IsReserved self.new act.now) }
        ensures still { OnErr result ((other : Act) → IsReserved self.old other →
            IsReserved self.new other) }
    {
        match act {
            Act::VBoard { peer } if self.machine.acts < u32::MAX => {
                self.machine.reserve_room()?;
                self.boards.make_ahead(self.machine.acts + 1, *peer)?;
                Ok(())
            }
            _ => self.machine.reserve(act),
        }
    }

    /// Takes one act, for which room was made, and tells the post what it tells: one `tell` for
    /// each event, in order, and no other. The end of a peer needs no room. Takes no memory and
    /// can't fail. At most 4,294,967,295 acts are taken. The answer is where a key act went, and
    /// none for any other act; a press that is refused is idle, and its route says so.
    pub fn step<P: Post>(&mut self, act: &Act, post: &mut P) -> Option<Route>
        requires reserved { IsReserved self.old act.now }
        requires number { self.old.state.acts < 4294967295 }
        ensures stands { (log : List Act) → StandsFor self.old log →
            StandsFor self.new (act.now ∷ log) }
        ensures told { (log : List Act) → StandsFor self.old log →
            Reached P.may_follow post.old (told act.now log) post.new }
        ensures route { (log : List Act) → StandsFor self.old log → result ≡ route_told act.now
            log }
    {
        if is_for_boards(act) {
            return self.step_boards(act, post);
        }
        self.machine.turn(act, post)
    }

    // Takes an act that boards may have to do with. Stands apart, so that any other act doesn't carry
    // where it would go what a board sends.
    #[inline(never)]
    fn step_boards<P: Post>(&mut self, act: &Act, post: &mut P) -> Option<Route>
        requires reserved { IsReserved self.old act.now }
        requires number { self.old.state.acts < 4294967295 }
        ensures stands { (log : List Act) → StandsFor self.old log →
            StandsFor self.new (act.now ∷ log) }
        ensures told { (log : List Act) → StandsFor self.old log →
            Reached P.may_follow post.old (told act.now log) post.new }
        ensures route { (log : List Act) → StandsFor self.old log → result ≡ route_told act.now
            log }
    {
        let sent = self.boards.turn(act, &self.machine);
        let route = self.machine.turn(act, post);
        tell_sent(act, self.machine.acts, sent, post);
        route
    }

    /// Whether the live board has had a keymap (`zwp_virtual_keyboard_v1.key` would be refused of
    /// another).
    pub fn has_keymap(&self, board: Label) -> bool
        ensures { (log : List Act) → StandsFor self.now log → result ≡ sends (history log) board }
    {
        self.boards.has_keymap(board)
    }

    /// Whether a live popup has the surface (`zwp_input_method_v2.get_input_popup_surface` would be refused).
    pub fn has_popup(&self, surface: Label) -> bool
        ensures { (log : List Act) → StandsFor self.now log →
            result ≡ has_popup (history log) surface }
    {
        self.machine.objects.has_popup(surface)
    }
}
