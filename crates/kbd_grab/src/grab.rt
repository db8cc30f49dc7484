//! The grab that stands, and the keys that are down.
ghost use Rattle.std.specs.Prelude.{◌≡◌, ◌∷◌, [], List, None, Some, IfOk, ◌↔◌, IsTrue, true};
ghost use Rattle.std.specs.FinMap as map;
ghost use Rattle.kbd_grab.specs.Keys.{Call, key_route, is_down, is_refused, first_went, fell_since};
ghost use Rattle.kbd_grab.specs.Keys.{unless_fell, EachStandsOnce, told_keymap, told_repeat};
ghost use Rattle.kbd_grab.specs.Keys.{told_mods, grab_standing};
ghost use Rattle.kbd_grab.specs.Keys.Call.{Stand, Fall, Key, TellKeymap, TellRepeat, TellMods};
ghost use Rattle.kbd_grab.specs.Keyboard.{StandsFor, turned, answer_at, refused_at};

use crate::held::HeldKeys;
use crate::keyboard::{Keymap, Label, Mods, Repeat, Route};
use std::alloc::Global;
use std::marker::Model;
use wio_core::NoMemory;

/// A keyboard: the grab that stands on it, if any, the keys that are down, and what the shell told last.
///
/// In contracts it is a `Keyboard`, a record of these, in which the keys that are down are a finite
/// map to the grab that stood at their first press. `StandsFor calls keyboard` says that it is what
/// a list of calls, the newest first, makes of it by looking back. Only `new` takes memory.
#[derive(Debug, Drop)]
pub struct Grab {
    standing: Option<Label>,
    down: HeldKeys,
    keymap: Option<Keymap>,
    repeat: Option<Repeat>,
    mods: Option<Mods>,
}

impl Model for Grab {
    ghost use Rattle.kbd_grab.specs.Keyboard.{Keyboard, keyboard_code};

    ghost Value = { Keyboard };

    ghost coded = { keyboard_code };

    ghost view = { λ a. record {
      standing = a.standing;
      down = a.down;
      keymap = a.keymap;
      repeat = a.repeat;
      mods = a.mods;
    } };
}

impl Grab {
    /// A keyboard on which no grab stands and no key is down. Takes room for the 64 keys that may be down.
    pub fn new(alloc: Global) -> Result<Self, NoMemory>
        ensures { IfOk result (λ grab. StandsFor [] grab) }
    {
        Ok(Self {
            standing: None,
            down: HeldKeys::new(alloc)?,
            keymap: None,
            repeat: None,
            mods: None,
        })
    }

    /// The grab `label` stands from now on. Asks that none stands (`standing` tells). Keys that are down stay with whom
    /// their first press went to.
    ///
    /// A label is to stand once. Which labels stood before, the list of calls tells and this type doesn't keep: a label
    /// that stands again is taken, and has again the keys whose press went to it. So the promise
    /// that a key goes nowhere once its grab has fallen is for lists of calls in which each grab
    /// stands once.
    pub fn stand(&mut self, label: Label)
        requires { self.old.standing ≡ None }
        ensures stands { self.new ≡ record self.old { standing = Some label } }
        ensures history { (calls : List Call) → StandsFor calls self.old →
            StandsFor (Stand label ∷ calls) self.new }
    {
        self.standing = Some(label);
    }

    /// The grab that stands, if any, stands no more. Keys whose first press went to it go nowhere until they are up.
    pub fn fall(&mut self)
        ensures falls { self.new ≡ record self.old { standing = None } }
        ensures history { (calls : List Call) → StandsFor calls self.old →
            StandsFor (Fall ∷ calls) self.new }
    {
        self.standing = None;
    }

    /// A press (`pressed`) or a release of the key with this code: where it goes. After `TooMany` all is as before.
    pub fn key(&mut self, key: u32, pressed: bool) -> Route
        ensures now { result ≡ answer_at (map.get self.old.down key) self.old.standing
            (map.len self.old.down) pressed }
        ensures route { (calls : List Call) → StandsFor calls self.old →
            result ≡ key_route calls key pressed }
        ensures history { (calls : List Call) → StandsFor calls self.old →
            StandsFor (Key key pressed ∷ calls) self.new }

        // A key that is down goes where its press went, or nowhere where that grab has fallen.
        ensures follows_its_press { (calls : List Call) → StandsFor calls self.old →
            EachStandsOnce calls → IsTrue (is_down calls key) →
            result ≡ unless_fell (fell_since calls key) (first_went calls key) }

        // 64 keys are down, and this press is of another.
        ensures too_many { (result ≡ Route.TooMany) ↔
            (IsTrue pressed × (map.len self.old.down ≡ 64) × (map.get self.old.down key ≡ None)) }
        ensures refused { result ≡ Route.TooMany → self.new ≡ self.old }
        ensures keys { self.new ≡ record self.old { down = turned self.old key pressed } }
    {
        self.down.turn(self.standing, self.standing, key, pressed)
    }

    /// Whether `key` would refuse this press (`pressed`) or release: 64 keys are down, and it is a press of another.
    pub fn refuses(&self, key: u32, pressed: bool) -> bool
        ensures now { result ≡ refused_at (map.get self.now.down key) (map.len self.now.down) pressed }
        ensures history { (calls : List Call) → StandsFor calls self.now →
            result ≡ is_refused calls key pressed }
    {
        self.down.refuses(key, pressed)
    }

    /// The shell told this keymap.
    pub fn keymap(&mut self, map: Keymap)
        ensures told { self.new ≡ record self.old { keymap = Some map } }
        ensures history { (calls : List Call) → StandsFor calls self.old →
            StandsFor (TellKeymap map ∷ calls) self.new }
    {
        self.keymap = Some(map);
    }

    /// The shell told this repeat.
    pub fn repeat(&mut self, repeat: Repeat)
        ensures told { self.new ≡ record self.old { repeat = Some repeat } }
        ensures history { (calls : List Call) → StandsFor calls self.old →
            StandsFor (TellRepeat repeat ∷ calls) self.new }
    {
        self.repeat = Some(repeat);
    }

    /// The shell told these modifiers.
    pub fn mods(&mut self, mods: Mods)
        ensures told { self.new ≡ record self.old { mods = Some mods } }
        ensures history { (calls : List Call) → StandsFor calls self.old →
            StandsFor (TellMods mods ∷ calls) self.new }
    {
        self.mods = Some(mods);
    }

    /// The grab that stands, if any.
    pub fn standing(&self) -> Option<Label>
        ensures now { result ≡ self.now.standing }
        ensures history { (calls : List Call) → StandsFor calls self.now →
            result ≡ grab_standing calls }
    {
        self.standing
    }

    /// The keymap that the shell told last, if it told one.
    pub fn last_keymap(&self) -> Option<Keymap>
        ensures now { result ≡ self.now.keymap }
        ensures history { (calls : List Call) → StandsFor calls self.now →
            result ≡ told_keymap calls }
    {
        self.keymap
    }

    /// The repeat that the shell told last, if it told one.
    pub fn last_repeat(&self) -> Option<Repeat>
        ensures now { result ≡ self.now.repeat }
        ensures history { (calls : List Call) → StandsFor calls self.now →
            result ≡ told_repeat calls }
    {
        self.repeat
    }

    /// The modifiers that the shell told last, if it told any.
    pub fn last_mods(&self) -> Option<Mods>
        ensures now { result ≡ self.now.mods }
        ensures history { (calls : List Call) → StandsFor calls self.now → result ≡ told_mods
            calls }
    {
        self.mods
    }
}
