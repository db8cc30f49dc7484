//! All to whom acts tell things.
ghost use Rattle.std.specs.Prelude.{◌≡◌, ◌<◌, ◌++◌, length, map, None, option_map, IfSome, OnOk};
ghost use Rattle.std.specs.Prelude.{OnErr};
ghost use Rattle.std.specs.List.{slice_get};
ghost use Rattle.std.specs.FinMap as finite;
ghost use Rattle.im_objects.specs.Objects.{refusal_of};
ghost use Rattle.relay_model.specs.declared.said.Told.{Told};
ghost use Rattle.broker_model.specs.Ids.{made_as};
ghost use Rattle.broker_model.specs.Groups.{id_of};
ghost use Rattle.broker_model.specs.Resolve.{made_new};
ghost use Rattle.broker_wire.specs.Asked.{asked};
ghost use Rattle.broker_wire.specs.Events.{named};
ghost use Rattle.broker_audience.specs.Directed.{IsNewest};
ghost use Rattle.broker_audience.specs.Lives.{listens};
ghost use Rattle.broker_audience.specs.Tells.{IsShort, Tells};
ghost use Rattle.broker_audience.specs.Changes.{IsChangedAt};

use crate::directory::{Directory, Named};
use crate::listeners::Listeners;
use broker_wire::{Meaning, Post, event_of, named, token_of};
use relay_model::{Label, Said, Told};
use wio_core::NoMemory;
use wl_proto::event_len;

// The most bytes of a message.
const LONGEST: usize = 4096;

/// The live peers by rising number, and whose each label is.
#[derive(Drop)]
pub struct Audience {
    /// The live peers.
    pub live: Listeners,
    /// Whose each label is.
    pub directory: Directory,
}

impl Audience {
    /// What a message to the object with the id makes, and whether it was refused: of the sender at
    /// the place, and of the directory. `label` is the message's number. Asks that there is room in
    /// the directory. `NoMemory` is its one error, after which all is as before.
    #[inline(always)]
    pub fn change(
        &mut self,
        place: usize,
        id: u32,
        label: Label,
        meaning: &Meaning,
    ) -> Result<(), NoMemory>
        requires place { place < length self.old.live.items }
        requires room { 0 < self.old.directory.room }
        requires newest { IsNewest label self.old.directory.made }
        requires unused { IfSome (slice_get self.old.live.items place)
            (λ l. finite.get l.table.ids label ≡ None) }
        requires accepted { IfSome (slice_get self.old.live.items place)
            (λ l. IfSome meaning.now.made (λ new. refusal_of l.table new.id ≡ None)) }
        ensures changed { OnOk result (IsChangedAt place id label meaning.now.takes_token
            meaning.now.act (option_map asked meaning.now.made)
            self.old.live.items self.new.live.items) }
        ensures made { IfSome (slice_get self.old.live.items place)
            (λ l. OnOk result (self.new.directory.made ≡ made_new l.label label
            (option_map asked meaning.now.made) ++ self.old.directory.made)) }
        ensures err { OnErr result (self.new.live.items ≡ self.old.live.items) }
        ensures err_made { OnErr result (self.new.directory.made ≡ self.old.directory.made) }
    {
        self.live.change(place, id, label, meaning)?;
        let peer = self.live.at(place).label;
        if let Some(new) = meaning.made {
            self.directory.push(Named {
                peer,
                id: new.id,
                label,
                interface: new.interface,
            });
        }
        Ok(())
    }

    // The id of the object that the event names, or 0.
    fn id_named(&self, said: &Said) -> u32
        ensures { IfSome (named said.now) (λ label.
            id_of (made_as self.now.directory.made label) ≡ result) }
    {
        let Some(label) = named(said) else {
            return 0;
        };
        match self.directory.find(label) {
            Some(object) => object.id,
            None => 0,
        }
    }

    // Gathers the event for the peer that it is told to. A message is never too long for the wire.
    fn gather(&mut self, told: &Told)
        ensures live { IsShort told.now → self.new.live.items ≡ map
            (listens self.old.directory.made told.now) self.old.live.items }
        ensures directory { self.new.directory ≡ self.old.directory }
    {
        let Some(to) = self.directory.find(told.to) else {
            return;
        };
        let id = self.id_named(&told.event);
        let Some(event) = event_of(&told.event, id) else {
            return;
        };
        let len = event_len(&event);
        if len <= LONGEST {
            self.live.hear(&to, &event, len, token_of(&told.event));
        }
    }
}

impl Post for Audience {
    ghost may_follow = { λ before told after. IsShort told → Tells before told after };

    fn tell(&mut self, told: &Told) {
        self.gather(told);
    }
}
