//! Unix listeners as a net.
ghost use Rattle.std.specs.Prelude.{◌≡◌, ◌≤◌, [], ◌∷◌, None, IsErr, IfOk, false, length};
ghost use Rattle.wio_core.specs.Io.{raised};
ghost use Rattle.serve_unix.specs.Opened.{is_open};

use crate::link_ends::LinkEnds;
use crate::open_door::OpenDoor;
use crate::unix_sink::UnixSink;
use crate::unix_source::UnixSource;
use serve_net::{Door, LinkSink, LinkSource, Net, Past};
use std::alloc::Global;
use std::fs::{File, Files};
use std::os::unix::net::UnixStream;
use std::time::Duration;
use std::{io, net};
use wio_core::{Failed, Sink, Source};

// How long a write waits for a peer that doesn't read before it fails, in seconds.
const PATIENCE: u64 = 30;

/// Three doors, each a Unix listener at its own path. A door's socket file can be used by its owner
/// alone, and is removed where the net is dropped.
#[derive(Drop)]
pub struct UnixNet<R: Files<File = File> + Copy> {
    rt: R,
    alloc: Global,
    app: Option<OpenDoor<R>>,
    method: Option<OpenDoor<R>>,
    shell: Option<OpenDoor<R>>,
    // Contracts alone see it.
    listens: Past<(Door, u64)>,
    links: Vec<Door>,
    ends: LinkEnds,
    // Contracts alone see it.
    hung_up: u64,
    faults: u64,
}

impl<R: Files<File = File> + net::Net + Copy> UnixNet<R> {
    /// No door is open yet, no link was accepted, and nothing failed.
    pub fn new(rt: R, alloc: Global) -> UnixNet<R>
        ensures app_is_shut { ⟦<UnixNet<R> as Net>⟧.opened result Door.App ≡ false }
        ensures method_is_shut { ⟦<UnixNet<R> as Net>⟧.opened result Door.Method ≡ false }
        ensures shell_is_shut { ⟦<UnixNet<R> as Net>⟧.opened result Door.Shell ≡ false }
        ensures no_listen_yet { ⟦<UnixNet<R> as Net>⟧.listens result ≡ [] }
        ensures no_link_yet { ⟦<UnixNet<R> as Net>⟧.links result ≡ [] }
        ensures none_hung_up { ⟦<UnixNet<R> as Net>⟧.hung_up result ≡ 0 }
        ensures no_fault_yet { ⟦<UnixNet<R> as Net>⟧.fault_count result ≡ 0 }
    {
        UnixNet {
            rt,
            alloc,
            app: None,
            method: None,
            shell: None,
            listens: Past::new(),
            links: Vec::new(alloc),
            ends: LinkEnds::new(alloc),
            hung_up: 0,
            faults: 0,
        }
    }
}

impl<R: Files<File = File> + Copy> UnixNet<R> {
    // Whether the door is open.
    fn has_open(&self, door: Door) -> bool
        ensures { result ≡ is_open self.now.app self.now.method self.now.shell door }
    {
        match door {
            Door::App => self.app.is_some(),
            Door::Method => self.method.is_some(),
            Door::Shell => self.shell.is_some(),
        }
    }

    // Notes for contracts that the door was opened.
    fn note(&mut self, door: Door)
        ensures { self.new ≡ record self.old {
          listens = (door, length self.old.links.items) ∷ self.old.listens;
        } }
    {
        let listens = std::mem::replace(&mut self.listens, Past::new());
        self.listens = listens.with(&(door, self.links.len() as u64));
    }

    fn fault<T>(&mut self) -> Result<T, Failed>
        ensures err { IsErr result }
        ensures counted { self.new ≡ record self.old { faults = raised self.old.faults } }
        ensures never_falls { self.old.faults ≤ self.new.faults }
    {
        self.faults = self.faults.saturating_add(1);
        Err(Failed)
    }
}

// The two ways of the link of a stream that came in, with this number.
fn ways_of(
    alloc: Global,
    stream: UnixStream,
    ends: &mut LinkEnds,
    number: u64,
) -> io::Result<(UnixSource, UnixSink)>
    ensures gave { IfOk result (λ link. ⟦<UnixSource as Source>⟧.given link.0 ≡ None) }
    ensures source { IfOk result (λ link. ⟦<UnixSource as Source>⟧.fault_count link.0 ≡ 0) }
    ensures holds { IfOk result (λ link. ⟦<UnixSink as Sink>⟧.held link.1 ≡ None) }
    ensures sink { IfOk result (λ link. ⟦<UnixSink as Sink>⟧.fault_count link.1 ≡ 0) }
    ensures live { IfOk result (λ link. ⟦<UnixSink as LinkSink>⟧.hung_up link.1 ≡ false) }
    ensures number_in { IfOk result (λ link. ⟦<UnixSource as LinkSource>⟧.number link.0 ≡ number) }
    ensures number_out { IfOk result (λ link. ⟦<UnixSink as LinkSink>⟧.number link.1 ≡ number) }
{
    stream.set_write_timeout(Some(Duration::from_secs(PATIENCE)))?;
    let out = stream.try_clone()?;
    let is_over = ends.keep(alloc, stream.try_clone()?)?;
    Ok((
        UnixSource::new(alloc, stream, number, is_over)?,
        UnixSink::new(out, number),
    ))
}

impl<R: Files<File = File> + net::Net + Copy> Net for UnixNet<R> {
    type In = UnixSource;

    type Out = UnixSink;

    ghost opened = { λ n d. is_open n.app n.method n.shell d };

    ghost listens = { λ n. n.listens };

    ghost links = { λ n. n.links.items };

    ghost hung_up = { λ n. n.hung_up };

    ghost fault_count = { λ n. n.faults };

    /// Fails at a door that is open.
    fn listen(&mut self, door: Door, path: &str) -> Result<(), Failed> {
        if self.has_open(door) {
            return self.fault();
        }
        let Ok(opened) = OpenDoor::at(self.rt, self.alloc, path) else {
            return self.fault();
        };
        self.note(door);
        match door {
            Door::App => self.app = Some(opened),
            Door::Method => self.method = Some(opened),
            Door::Shell => self.shell = Some(opened),
        }
        Ok(())
    }

    fn accept(&mut self, door: Door, wait: u32) -> Result<(UnixSource, UnixSink), Failed> {
        let number = self.links.len() as u64 + 1;
        let opened = match door {
            Door::App => &self.app,
            Door::Method => &self.method,
            Door::Shell => &self.shell,
        };
        let Some(opened) = opened else { unreachable!() };
        let Ok(stream) = opened.accept(wait) else {
            return self.fault();
        };
        let Ok(link) = ways_of(self.alloc, stream, &mut self.ends, number) else {
            return self.fault();
        };
        if self.links.push(door).is_err() {
            return self.fault();
        }
        Ok(link)
    }

    /// The sources give nothing more, also of what had come.
    fn hang_up(&mut self) {
        self.ends.hang_up();
        self.hung_up = self.links.len() as u64;
    }

    fn faults(&self) -> u64 {
        self.faults
    }
}
