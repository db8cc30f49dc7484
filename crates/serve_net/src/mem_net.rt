//! A net in memory, which fails where it is told to.
ghost use Rattle.std.specs.Prelude.{◌≡◌, ◌⊎◌, ◌↔◌, ◌++◌, ◌∷◌, [], true, false, Ok, List};
ghost use Rattle.std.specs.Prelude.{◌≤◌, IfOk, OnErr, IsErr, IfSome, IfNone, OnSome, length};
ghost use Rattle.std.specs.List.{Contains};
ghost use Rattle.wio_core.specs.Io.{raised};
ghost use Rattle.serve_net.specs.MemNets.{IsPlaceFor, LacksLinkFor};
ghost use Rattle.serve_net.specs.declared.mem_link.MemLink.{MemLink};

use crate::door::Door;
use crate::mem_link::MemLink;
use crate::mem_ways::{MemIn, MemOut};
use crate::net::Net;
use out_store::Past;
use std::alloc::Global;
use std::marker::Model;
use wio_core::{Failed, NoMemory};

/// Gives the links of a `Vec`, each at its door and in their order, and fails in the calls of
/// `accept` that it was told.
#[derive(Drop)]
pub struct MemNet {
    app: bool,
    method: bool,
    shell: bool,
    // Contracts alone see it.
    listens: Past<(Door, u64)>,
    waiting: Vec<MemLink>,
    links: Vec<Door>,
    // Contracts alone see it.
    hung_up: u64,
    fail: Vec<u64>,
    calls: u64,
    faults: u64,
}

impl Model for MemNet {
    ghost use Rattle.std.specs.Prelude.{vec_len, vec_capacity, ◌+◌, ◌≤◌};
    ghost use Rattle.serve_net.specs.MemNets.{NetInMemory};

    ghost Value = { NetInMemory };

    ghost view = { λ n. record {
      app = n.app;
      method = n.method;
      shell = n.shell;
      listens = n.listens;
      waiting = n.waiting.items;
      links = n.links.items;
      hung_up = n.hung_up;
      fail = n.fail.items;
      calls = n.calls;
      faults = n.faults;
    } };

    ghost invariant = { λ n. vec_len n.links + vec_len n.waiting ≤ vec_capacity n.links };
}

impl MemNet {
    ghost use Rattle.serve_net.specs.MemNets.{IsFirstFor, LacksLinkFor};

    /// Gives these links. The accepts with a number in `fail`, counted from 1, fail. It reserves the
    /// list of the doors that it gives, so that no other call takes memory.
    pub fn new(alloc: Global, links: Vec<MemLink>, fail: Vec<u64>) -> Result<MemNet, NoMemory>
        ensures value { IfOk result (λ net. net ≡ record {
          app = false;
          method = false;
          shell = false;
          listens = [];
          waiting = links.items;
          links = [];
          hung_up = 0;
          fail = fail.items;
          calls = 0;
          faults = 0;
        }) }
    {
        let doors = Vec::with_capacity(alloc, links.len())?;
        Ok(MemNet {
            app: false,
            method: false,
            shell: false,
            listens: Past::new(),
            waiting: links,
            links: doors,
            hung_up: 0,
            fail,
            calls: 0,
            faults: 0,
        })
    }

    // Takes the first link that waits at the door.
    fn next_at(&mut self, door: Door) -> Option<MemLink>
        ensures first { IfSome result (λ link.
            IsFirstFor door self.old.waiting link self.new.waiting) }
        ensures rest { OnSome result (self.new ≡ record self.old {
          waiting = self.new.waiting;
          links = self.old.links ++ door ∷ [];
        }) }
        ensures none { IfNone result (LacksLinkFor door self.old.waiting) }
        ensures same { IfNone result (self.new ≡ self.old) }
    {
        let place = place_for(&self.waiting, door)?;
        if let Err(_full) = self.links.push(door) {
            unreachable!()
        }
        Some(self.waiting.remove(place))
    }

    // Notes for contracts that the door was opened.
    fn note(&mut self, door: Door)
        ensures { self.new ≡ record self.old {
          listens = (door, length self.old.links) ∷ self.old.listens;
        } }
    {
        let listens = std::mem::replace(&mut self.listens, Past::new());
        self.listens = listens.with(&(door, self.links.len() as u64));
    }

    fn fault<T>(&mut self) -> Result<T, Failed>
        ensures err { IsErr result }
        ensures counted { self.new ≡ record self.old { faults = raised self.old.faults } }
        ensures never_falls { self.old.faults ≤ self.new.faults }
    {
        self.faults = self.faults.saturating_add(1);
        Err(Failed)
    }
}

// Whether the link waits at the door.
fn waits_at(link: &MemLink, door: Door) -> bool
    ensures yes { result ≡ true → link.now.door ≡ door }
    ensures no { result ≡ false → link.now.door ≡ door → ⊥ }
{
    link.door == door
}

// The place of the first link that waits at the door.
fn place_for(waiting: &[MemLink], door: Door) -> Option<usize>
    ensures place { IfSome result (λ at. (link : MemLink) × IsPlaceFor door waiting.now at link) }
    ensures none { IfNone result (LacksLinkFor door waiting.now) }
{
    for at in 0..waiting.len() {
        if waits_at(&waiting[at], door) {
            return Some(at);
        }
    }
    None
}

impl Net for MemNet {
    ghost use Rattle.serve_net.specs.MemNets.{is_open, opening, GivesLink, LacksLinkFor};

    type In = MemIn;

    type Out = MemOut;

    ghost opened = { λ n d. is_open n.app n.method n.shell d };

    ghost listens = { λ n. n.listens };

    ghost links = { λ n. n.links };

    ghost hung_up = { λ n. n.hung_up };

    ghost fault_count = { λ n. n.faults };

    /// Never fails.
    fn listen(&mut self, door: Door, _path: &str) -> Result<(), Failed>
        ensures ok { result ≡ Ok tt }
        ensures opens { self.new ≡ opening door self.old }
    {
        self.note(door);
        match door {
            Door::App => self.app = true,
            Door::Method => self.method = true,
            Door::Shell => self.shell = true,
        }
        Ok(())
    }

    /// Gives the first link that is left for its door, and waits for none.
    fn accept(&mut self, door: Door, _wait: u32) -> Result<(MemIn, MemOut), Failed>
        // It fails in the calls that it was told and where no link waits at the door.
        ensures fails { IsErr result ↔ (Contains self.old.fail (raised self.old.calls) ⊎
            LacksLinkFor door self.old.waiting) }
        ensures ok { IfOk result (λ link. GivesLink door self.old self.new link.0 link.1) }
        ensures err { OnErr result (self.new ≡ record self.old {
          calls = raised self.old.calls;
          faults = raised self.old.faults;
        }) }
        ensures never_falls { self.old.faults ≤ self.new.faults }
    {
        self.calls = self.calls.saturating_add(1);
        if self.fail.contains(&self.calls) {
            return self.fault();
        }
        let Some(link) = self.next_at(door) else {
            return self.fault();
        };
        let number = self.links.len() as u64;
        let MemLink {
            door: _,
            source,
            sink,
        } = link;
        Ok((
            MemIn { source, number },
            MemOut {
                sink,
                number,
                hung_up: false,
            },
        ))
    }

    /// Nobody waits at a link in memory, and what its ways hold stays.
    fn hang_up(&mut self)
        ensures { self.new ≡ record self.old { hung_up = length self.old.links } }
    {
        self.hung_up = self.links.len() as u64;
    }

    fn faults(&self) -> u64 {
        self.faults
    }
}
