//! What the shell is told and hasn't asked for yet.
ghost use Rattle.std.specs.Prelude.{◌≡◌, ◌++◌, ◌∷◌, ◌<◌, [], length, IfOk};
ghost use Rattle.circular_buffer.specs.Buffer.{buffer};
ghost use Rattle.c_broker.specs.Ears.{Gains, Hands, nothing_heard, sender_of};

use broker_core::{Entry, Watch};
use circular_buffer::HeapCircularBuffer;
use relay_core::Relay;
use relay_model::{Act, Mods};
use std::alloc::Global;
use std::marker::Model;
use wl_wire::NoMemory;

/// How many events may wait for the shell.
const MOST_EVENTS: usize = 1024;

/// What the shell is told beside what is stored for its clients.
#[derive(Clone, Copy, Debug, PartialEq, Eq)]
pub enum ShellEvent {
    /// Where a popup stands (`zwp_input_popup_surface_v2`).
    Placed {
        /// The number of its peer.
        peer: u32,
        /// Its id there.
        id: u32,
        /// How many pixels of the screen it stands right of the top left corner.
        x: i64,
        /// How many below.
        y: i64,
    },
    /// A key that no grab has, for the focused surface (`wl_keyboard.key`): one of the seat's
    /// keyboard, or of a method's own.
    Passed {
        /// Whose message it was.
        from: Sender,
        /// When, in milliseconds from any moment.
        time: u32,
        /// The key's number on the keyboard, as Linux's evdev counts them.
        key: u32,
        /// 0 where it was released, 1 where it was pressed.
        state: u32,
    },
    /// Modifiers of a method's own keyboard that no grab has (`zwp_virtual_keyboard_v1.modifiers`).
    Modified {
        /// Whose message it was.
        from: Sender,
        /// How the modifiers stand, by the keyboard's own keymap.
        mods: Mods,
    },
}

/// Whose message told something: its peer, and the object that it went to, as a virtual keyboard.
/// Both are 0 where it was no message, as with a key of the seat's keyboard.
#[derive(Clone, Copy, Debug, PartialEq, Eq)]
pub struct Sender {
    /// The number of the peer.
    pub peer: u32,
    /// The id of the object there.
    pub id: u32,
}

/// What the shell is handed.
#[derive(Clone, Copy, Debug, PartialEq, Eq)]
pub enum Heard {
    /// What it was told and waited longest.
    Event(ShellEvent),
    /// Nothing waits, and some events before are lost: 1,024 waited.
    Missed,
    /// Nothing waits.
    Nothing,
}

// Of what is no message.
const NOBODY: Sender = Sender { peer: 0, id: 0 };

// Whose message the entry is.
fn sender_of(entry: &Entry) -> Sender
    ensures { result ≡ sender_of entry.now }
{
    match entry {
        Entry::Message { peer, id, .. } => Sender {
            peer: *peer,
            id: *id,
        },
        _ => NOBODY,
    }
}

/// The events that wait, the oldest first.
#[derive(Drop)]
pub struct Ears {
    events: HeapCircularBuffer<ShellEvent>,
    missed: bool,
    from: Sender,
}

impl Model for Ears {
    ghost use Rattle.std.specs.Prelude.{◌≡◌};
    ghost use Rattle.c_broker.specs.Ears.{Waits};

    ghost Value = { Waits };

    ghost view = { λ e. record { events = e.events.items; missed = e.missed; from = e.from } };

    ghost invariant = { λ e. e.events.capacity ≡ 1024 };
}

impl Ears {
    /// Nothing waits.
    pub fn new(alloc: Global) -> Result<Ears, NoMemory>
        ensures { IfOk result (λ ears. ears ≡ nothing_heard) }
    {
        Ok(Ears {
            events: HeapCircularBuffer::with_capacity(alloc, MOST_EVENTS)?,
            missed: false,
            from: NOBODY,
        })
    }

    // Puts an event behind those that wait, where there is room.
    fn gain(&mut self, event: ShellEvent)
        ensures { Gains self.old event self.new }
    {
        if self.events.len() >= MOST_EVENTS {
            self.missed = true;
            return;
        }
        let _ = self.events.try_push_back(event);
    }

    /// Hands out the event that waits longest. Where none does, it says once if some were lost.
    pub fn next(&mut self) -> Heard
        ensures { Hands self.old result self.new }
    {
        if let Some(event) = self.events.pop_front() {
            return Heard::Event(event);
        }
        if self.missed {
            self.missed = false;
            return Heard::Missed;
        }
        Heard::Nothing
    }
}

impl Watch for Ears {
    ghost use Rattle.c_broker.specs.Ears.{Hears};

    ghost may_follow = { Hears };

    fn entered(&mut self, _number: u32, entry: &Entry, _act: &Act, _relay: &Relay) {
        self.from = sender_of(entry);
    }

    fn placed(&mut self, _number: u32, peer: u32, id: u32, x: i64, y: i64) {
        self.gain(ShellEvent::Placed { peer, id, x, y });
    }

    fn passed(&mut self, _number: u32, time: u32, key: u32, state: u32) {
        let from = self.from;
        self.gain(ShellEvent::Passed {
            from,
            time,
            key,
            state,
        });
    }

    fn modified(&mut self, _number: u32, mods: Mods) {
        let from = self.from;
        self.gain(ShellEvent::Modified { from, mods });
    }

    fn put(&mut self, _number: u32, _peer: u32, _bytes: &[u8], _tokens: &[(usize, u32)]) {}
}
