//! The relay's part on keys: grabs, and what the shell says of the keyboard.
ghost use Rattle.std.specs.Prelude.{◌≡◌, ◌<◌, ◌≤◌};
ghost use Rattle.relay_model.specs.declared.act.Act.TheVariants as acts;
ghost use Rattle.relay_objects.specs.Reached.{Reached};
ghost use Rattle.relay_core.specs.Kept.{state};
ghost use Rattle.relay_core.specs.BoardKeys.{grab_in};
ghost use Rattle.relay_core.specs.Machine.{made_by, fallen, grabbed, keyed, route_in, moved, says};

use crate::machine::Machine;
use kbd_grab::{Keymap, Mods, Repeat, Route};
use relay_model::{Label, Said};
use relay_objects::{Kind, Post, is_number, tell_grab, tell_key, tell_keyboard};

impl Machine {
    /// The method made an object.
    pub fn make_by(&mut self, method: Label, kind: Kind)
        requires room { 0 < self.old.objects.room }
        requires above { self.old.objects.bound ≤ self.old.acts }
        ensures state { state self.new ≡ made_by method kind (state self.old) }
        ensures keys { self.new.keys ≡ self.old.keys }
        ensures serving { self.new.serving ≡ self.old.serving }
        ensures acts { self.new.acts ≡ self.old.acts }
    {
        if let Some(peer) = self.objects.owner(method) {
            self.make(peer, kind);
        }
    }

    /// A grab stands from its making on, where its method serves and no other stands.
    pub fn make_grab<P: Post>(&mut self, method: Label, post: &mut P)
        requires room { 0 < self.old.objects.room }
        requires above { self.old.objects.bound ≤ self.old.acts }
        ensures state { state self.new ≡ grabbed method (state self.old) }
        ensures told { Reached P.may_follow post.old (says (acts.Grab method) (state self.old))
            post.new }
    {
        self.make_by(method, Kind::Grab { method });
        if self.keys.standing().is_none() && is_number(self.serving, method) {
            self.keys.stand(self.acts);
            tell_keyboard(self.acts, &self.keys, post);
        }
    }

    /// The grab that stands, with its peer.
    pub fn grab(&self) -> Option<(Label, Label)>
        ensures { result ≡ grab_in (state self.now) }
    {
        let grab = self.keys.standing()?;
        let peer = self.objects.owner(grab)?;
        Some((grab, peer))
    }

    /// The grab that stands may be gone, or its method.
    pub fn fall_where(&mut self, gone: bool)
        ensures { state self.new ≡ fallen gone (state self.old) }
    {
        if self.keys.standing().is_some() && gone {
            self.keys.fall();
        }
    }

    /// A press (1) or a release of a key.
    pub fn turn_key<P: Post>(&mut self, time: u32, key: u32, turned: u32, post: &mut P) -> Route
        ensures state { state self.new ≡ keyed key turned (state self.old) }
        ensures route { result ≡ route_in key turned (state self.old) }
        ensures told { Reached P.may_follow post.old (says (acts.Key time key turned)
            (state self.old)) post.new }
    {
        let route = self.keys.key(key, turned == 1);
        tell_key(route, self.acts, time, key, turned, post);
        route
    }

    pub fn set_mods<P: Post>(&mut self, mods: Mods, post: &mut P)
        ensures state { state self.new ≡ moved (acts.Mods mods) (state self.old) }
        ensures told { Reached P.may_follow post.old (says (acts.Mods mods) (state self.old))
            post.new }
    {
        self.keys.mods(mods);
        tell_grab(
            self.keys.standing(),
            Said::Mods {
                serial: self.acts,
                mods,
            },
            post,
        );
    }

    pub fn set_keymap<P: Post>(&mut self, keymap: Keymap, post: &mut P)
        ensures state { state self.new ≡ moved (acts.Keymap keymap) (state self.old) }
        ensures told { Reached P.may_follow post.old (says (acts.Keymap keymap) (state self.old))
            post.new }
    {
        self.keys.keymap(keymap);
        tell_grab(self.keys.standing(), Said::Keymap(keymap), post);
    }

    pub fn set_repeat<P: Post>(&mut self, repeat: Repeat, post: &mut P)
        ensures state { state self.new ≡ moved (acts.Repeat repeat) (state self.old) }
        ensures told { Reached P.may_follow post.old (says (acts.Repeat repeat) (state self.old))
            post.new }
    {
        self.keys.repeat(repeat);
        tell_grab(self.keys.standing(), Said::Repeat(repeat), post);
    }
}
