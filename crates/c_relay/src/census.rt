//! The live objects, counted.
ghost use Rattle.std.specs.Prelude.{◌≡◌, ◌<◌, ◌≤◌, ◌==◌, ◌&&◌, ◌∷◌, List, [], not, count_by, filter, option_map};
ghost use Rattle.std.specs.Prelude.{OnOk};
ghost use Rattle.relay_model.specs.declared.act.Act.{Act};
ghost use Rattle.relay_model.specs.Objects.{made, maker, next};
ghost use Rattle.std.specs.List.{find};
ghost use Rattle.c_relay.specs.Living.{crowds, left, living, living_of, owner_in, is_over};

use relay_model::{Act, Label};
use std::alloc::Global;
use std::marker::Model;
use wio_core::NoMemory;

/// How many peers may be alive where no number is chosen.
pub const PEER_LIMIT: u32 = 64;

/// How many objects of a peer may be alive where no number is chosen.
pub const OBJECT_LIMIT: u32 = 256;

/// How many may be alive at once.
#[derive(Clone, Copy, Debug, PartialEq, Eq)]
pub struct SeatLimits {
    /// The most peers.
    pub peers: u32,
    /// The most objects of each peer.
    pub objects: u32,
}

/// A live object.
#[derive(Clone, Copy, Debug, PartialEq, Eq)]
pub struct Living {
    /// Its label.
    pub label: Label,
    /// The peer that it belongs to; a peer is its own.
    pub peer: Label,
    /// Whether it is a peer.
    pub is_peer: bool,
}

/// The live objects by rising label, and how many may be alive.
#[derive(Drop)]
pub struct Census {
    limits: SeatLimits,
    living: Vec<Living>,
}

impl Model for Census {
    ghost use Rattle.std.specs.Prelude.{◌-◌, vec_len, vec_capacity};
    ghost use Rattle.c_relay.specs.Living.{Counted};

    ghost Value = { Counted };

    ghost view = { λ c. record {
      limits = c.limits;
      living = c.living.items;
      room = vec_capacity c.living - vec_len c.living;
    } };
}

impl Census {
    /// Nothing is alive. Takes no memory.
    pub fn new(alloc: Global, limits: SeatLimits) -> Census
        ensures limits { result.limits ≡ limits }
        ensures living { result.living ≡ [] }
    {
        Census {
            limits,
            living: Vec::new(alloc),
        }
    }

    // The live object with the label.
    fn find(&self, label: Label) -> Option<Living>
        ensures { result ≡ find (λ o. o.label == label) self.now.living }
    {
        self.living.iter().find(|one| one.label == label).copied()
    }

    // The peer of the live object with the label.
    fn owner(&self, label: Label) -> Option<Label>
        ensures { result ≡ owner_in self.now.living label }
    {
        match self.find(label) {
            Some(one) => Some(one.peer),
            None => None,
        }
    }

    // How many peers are alive.
    fn peers(&self) -> usize
        ensures { result ≡ count_by (λ o. o.is_peer) self.now.living }
    {
        self.living.iter().filter(|one| one.is_peer).count()
    }

    // How many objects of the peer are alive.
    fn objects_of(&self, peer: Label) -> usize
        ensures { result ≡ count_by (λ o. (o.peer == peer) && not o.is_peer) self.now.living }
    {
        self.living
            .iter()
            .filter(|one| one.peer == peer && !one.is_peer)
            .count()
    }

    // What the act makes, where it has this number.
    fn made(&self, act: &Act, number: Label) -> Option<Living>
        ensures { result ≡ option_map (living_of number)
            (made act.now number (owner_in self.now.living (maker act.now))) }
    {
        let (peer, is_peer) = match act {
            Act::Peer => (number, true),
            Act::Surface { peer }
            | Act::Field { peer }
            | Act::Method { peer }
            | Act::Registry { peer, .. }
            | Act::Seat { peer }
            | Act::Thing { peer }
            | Act::VBoard { peer } => (*peer, false),
            Act::Popup { method, .. } | Act::Grab { method } => (self.owner(*method)?, false),
            _ => return None,
        };
        Some(Living {
            label: number,
            peer,
            is_peer,
        })
    }

    // Whether what is made, if anything is, is one too many.
    fn crowds(&self, made: Option<Living>) -> bool
        ensures { result ≡ crowds self.now.limits self.now.living made }
    {
        match made {
            Some(one) if one.is_peer => self.peers() >= self.limits.peers as usize,
            Some(one) => self.objects_of(one.peer) >= self.limits.objects as usize,
            None => false,
        }
    }

    /// Whether the act, which comes next and has this number, makes one too many: a peer where so many are alive as may be,
    /// or an object of a peer that has so many.
    pub fn is_over(&self, act: &Act, number: Label) -> bool
        ensures { (log : List Act) → self.now.living ≡ living log → number ≡ next log →
            result ≡ is_over self.now.limits act.now log }
    {
        self.crowds(self.made(act, number))
    }

    /// Makes room for one object more. `NoMemory` is its one error, after which all is as before.
    pub fn reserve(&mut self) -> Result<(), NoMemory>
        ensures limits { self.new.limits ≡ self.old.limits }
        ensures living { self.new.living ≡ self.old.living }
        ensures room { OnOk result (0 < self.new.room) }
        ensures never_less { self.old.room ≤ self.new.room }
    {
        self.living.reserve(1)?;
        Ok(())
    }

    // The object with the label is gone.
    fn forget(&mut self, label: Label)
        ensures limits { self.new.limits ≡ self.old.limits }
        ensures living { self.new.living ≡ filter (λ o. not (o.label == label)) self.old.living }
    {
        self.living.retain(|one| one.label != label);
    }

    // The peer is gone, with all that is its own.
    fn forget_peer(&mut self, peer: Label)
        ensures limits { self.new.limits ≡ self.old.limits }
        ensures living { self.new.living ≡ filter (λ o. not (o.peer == peer)) self.old.living }
    {
        self.living.retain(|one| one.peer != peer);
    }

    // What the act leaves of those that were alive.
    fn leave(&mut self, act: &Act)
        ensures limits { self.new.limits ≡ self.old.limits }
        ensures living { self.new.living ≡ left act.now self.old.living }
    {
        match act {
            Act::Drop { label } => self.forget(*label),
            Act::Gone { peer, .. } => self.forget_peer(*peer),
            _ => {}
        }
    }

    /// The act was taken, and has this number. Asks for room.
    pub fn enter(&mut self, act: &Act, number: Label)
        requires room { 0 < self.old.room }
        ensures limits { self.new.limits ≡ self.old.limits }
        ensures living { (log : List Act) → self.old.living ≡ living log → number ≡ next log →
            self.new.living ≡ living (act.now ∷ log) }
    {
        match self.made(act, number) {
            Some(one) => {
                self.living.push_reserved(one);
            }
            None => self.leave(act),
        }
    }
}
