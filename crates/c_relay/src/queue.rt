//! What was told and not asked for yet: the events in one ring, their texts one after the other in
//! another.
ghost use Rattle.std.specs.Prelude.{◌≡◌, ◌+◌, ◌^◌, ◌++◌, ◌∷◌, ◌≤◌, ◌<◌, [], length, false};
ghost use Rattle.std.specs.Prelude.{IfOk, OnOk};
ghost use Rattle.circular_buffer.specs.Buffer.{buffer};
ghost use Rattle.c_relay.specs.Events.{hidden_heard};
ghost use Rattle.c_relay.specs.Waiting.{IsFirst, Pulls};

use crate::event::{Event, event_of, hidden_event, tells_place, text_of};
use circular_buffer::HeapCircularBuffer;
use relay_core::Post;
use relay_model::{Label, Told};
use std::alloc::Global;
use std::marker::Model;
use wio_core::NoMemory;

/// The text of the event that waits longest has more bytes than there is room for.
#[derive(Clone, Copy, Debug, PartialEq, Eq)]
pub struct TooShort {
    /// How many bytes it has.
    pub needed: usize,
}

/// The events, the next one first, and their texts.
#[derive(Drop)]
pub struct Queue {
    events: HeapCircularBuffer<Event>,
    texts: HeapCircularBuffer<u8>,
    has_placed: bool,
}

impl Model for Queue {
    ghost use Rattle.std.specs.Prelude.{◌≡◌, ◌-◌, length};
    ghost use Rattle.c_relay.specs.Waiting.{Waiting, heard_from, lengths};

    ghost Value = { Waiting };

    ghost view = { λ q. record {
      heard = heard_from q.events.items q.texts.items;
      places = q.events.capacity - length q.events.items;
      bytes = q.texts.capacity - length q.texts.items;
      has_placed = q.has_placed;
    } };

    ghost invariant = { λ q. lengths q.events.items ≡ length q.texts.items };
}

// Room for so many more; a ring that grows has at least twice the room that it had. `NoMemory` is
// the ring's own: more than can be counted is asked of it as the greatest number, which none has.
fn make_room<T: Drop>(ring: &mut HeapCircularBuffer<T>, more: usize) -> Result<(), NoMemory>
    ensures items { ring.new.items ≡ ring.old.items }
    ensures room { OnOk result (length ring.new.items + more ≤ ring.new.capacity) }
    ensures few { ring.new.capacity < 2 ^ 63 }
{
    let length = ring.len();
    let capacity = ring.capacity();
    if more <= capacity - length {
        return Ok(());
    }
    let wanted = length.saturating_add(more);
    ring.resize(wanted.max(capacity.saturating_mul(2)))?;
    let _capacity = ring.capacity();
    Ok(())
}

fn push(ring: &mut HeapCircularBuffer<Event>, event: Event)
    requires { length ring.old.items < ring.old.capacity }
    ensures { ring.new ≡ buffer (ring.old.items ++ event ∷ []) ring.old.capacity }
{
    let _ = ring.try_push_back(event);
}

fn append(ring: &mut HeapCircularBuffer<u8>, text: &[u8])
    requires { length ring.old.items + length text.now ≤ ring.old.capacity }
    ensures { ring.new ≡ buffer (ring.old.items ++ text.now) ring.old.capacity }
{
    let _ = ring.fill_from_slice(text);
}

impl Queue {
    /// Nothing waits.
    pub fn new(alloc: Global) -> Result<Queue, NoMemory>
        ensures { IfOk result (λ queue. queue.heard ≡ []) }
    {
        Ok(Queue {
            events: HeapCircularBuffer::with_capacity(alloc, 0)?,
            texts: HeapCircularBuffer::with_capacity(alloc, 0)?,
            has_placed: false,
        })
    }

    /// Makes room for so many events more, and so many bytes of their texts, for an act, which told no
    /// place yet. What waits stays, also after `NoMemory`, which comes where a ring gets no memory. No
    /// room has 2^63 places.
    pub fn reserve(&mut self, events: usize, bytes: usize) -> Result<(), NoMemory>
        ensures heard { self.new.heard ≡ self.old.heard }
        ensures places { OnOk result (events ≤ self.new.places) }
        ensures bytes { OnOk result (bytes ≤ self.new.bytes) }
        ensures few { OnOk result ((self.new.places < 2 ^ 63) × (self.new.bytes < 2 ^ 63)) }
        ensures placed { self.new.has_placed ≡ false }
    {
        self.has_placed = false;
        make_room(&mut self.events, events)?;
        make_room(&mut self.texts, bytes)
    }

    // Puts an event behind what waits, where there is room.
    fn put(&mut self, event: Event, text: &[u8])
        requires { event.length ≡ length text.now }
        ensures gained { 0 < self.old.places → length text.now ≤ self.old.bytes → self.new.heard ≡
            self.old.heard ++ record { event = event; text = text.now } ∷ [] }
        ensures places { self.old.places ≤ self.new.places + 1 }
        ensures bytes { self.old.bytes ≤ self.new.bytes + length text.now }
        ensures placed { self.new.has_placed ≡ self.old.has_placed }
    {
        if text.len() > self.texts.capacity() - self.texts.len() {
            return;
        }
        if self.events.len() >= self.events.capacity() {
            return;
        }
        append(&mut self.texts, text);
        push(&mut self.events, event);
    }

    /// The shell is told that a popup is hidden, where there is room.
    pub fn hide(&mut self, popup: Label)
        ensures gained { 0 < self.old.places →
            self.new.heard ≡ self.old.heard ++ hidden_heard popup ∷ [] }
        ensures places { self.old.places ≤ self.new.places + 1 }
    {
        self.put(hidden_event(popup), &[]);
    }

    /// Whether a place was told since room was made.
    pub fn has_placed(&self) -> bool
        ensures { result ≡ self.now.has_placed }
    {
        self.has_placed
    }

    /// Hands out the event that waits longest, and writes its text to the front of `text`.
    pub fn pull(&mut self, text: &mut [u8]) -> Result<Option<Event>, TooShort>
        ensures { Pulls self.old.heard self.new.heard text.old text.new result }
    {
        let Some(event) = self.first() else {
            return Ok(None);
        };
        if text.len() < event.length {
            return Err(TooShort {
                needed: event.length,
            });
        }
        let (front, _) = text.split_at_mut(event.length);
        let _ = self.texts.read_into(front);
        let _ = self.events.pop_front();
        Ok(Some(event))
    }

    /// The event that waits longest, if any does.
    pub fn first(&self) -> Option<Event>
        ensures { IsFirst self.now.heard result }
    {
        match self.events.front() {
            Some(event) => Some(*event),
            None => None,
        }
    }
}

impl Post for Queue {
    ghost use Rattle.c_relay.specs.Waiting.{Queues};

    ghost may_follow = { Queues };

    fn tell(&mut self, told: &Told) {
        self.has_placed = self.has_placed || tells_place(told);
        if let Some(event) = event_of(told) {
            self.put(event, text_of(&told.event));
        }
    }
}
