//! The popups that live and which of them are shown, so that the shell is told which an act hides.
ghost use Rattle.std.specs.Prelude.{◌≡◌, ◌+◌, ◌++◌, ◌∷◌, ◌≤◌, ◌<◌, List, [], length, map, filter, is_some, OnOk};
ghost use Rattle.std.specs.Prelude.{vec_len, vec_capacity};
ghost use Rattle.std.specs.List.{flat_map};
ghost use Rattle.relay_model.specs.declared.act.Act.{Act};
ghost use Rattle.relay_model.specs.Objects.{alive};
ghost use Rattle.relay_model.specs.Idle.{history};
ghost use Rattle.relay_core.specs.Stands.{StandsFor};
ghost use Rattle.c_relay.specs.Events.{hidden_heard};
ghost use Rattle.c_relay.specs.Hidden.{hidden};
ghost use Rattle.c_relay.specs.KeptPopups.{kept_popups, is_holders, turn_of, stays, turned, hides, moves, Taken};
ghost use Rattle.c_relay.specs.KeptPopups.{listed, made_popup};

use crate::queue::Queue;
use relay_core::Relay;
use relay_model::{Act, Label};
use relay_objects::is_number;
use std::alloc::Global;
use std::marker::Model;
use wio_core::NoMemory;

/// A popup that lives, and whether it is shown.
#[derive(Clone, Copy, Debug, PartialEq, Eq)]
pub struct KeptPopup {
    /// Its label.
    pub label: Label,
    /// The method that made it.
    pub method: Label,
    /// Its surface.
    pub surface: Label,
    /// Whether it is shown.
    pub is_shown: bool,
    /// Whether it lives, which all do between two acts.
    pub is_alive: bool,
}

/// What an act means for the popups that lived before it.
#[derive(Clone, Copy, Debug, PartialEq, Eq)]
pub struct Turn {
    /// Whether it shows also popups that weren't shown.
    pub shows: bool,
    /// Whether there is a cursor rectangle after it, of all that the popups need to know.
    pub has_cursor: bool,
}

/// The live popups, by rising label.
#[derive(Drop)]
pub struct Popups {
    kept: Vec<KeptPopup>,
}

impl Model for Popups {
    ghost use Rattle.std.specs.Prelude.{◌-◌, vec_len, vec_capacity};
    ghost use Rattle.c_relay.specs.KeptPopups.{Tracked};

    ghost Value = { Tracked };

    ghost view = { λ p. record {
      kept = p.kept.items;
      room = vec_capacity p.kept - vec_len p.kept;
    } };
}

// Whether the object lives: it can be dropped, or it is a peer.
fn lives(relay: &Relay, label: Label) -> bool
    ensures { (log : List Act) → StandsFor relay.now log → result ≡ alive (history log) label }
{
    relay.is_live(&Act::Drop { label }) || relay.is_live(&Act::Surface { peer: label })
}

impl KeptPopup {
    // Whether it is shown after an act.
    fn stays(&self, relay: &Relay, turn: Turn) -> bool
        ensures { (log : List Act) → StandsFor relay.now log →
            result ≡ stays (history log) turn self.now }
    {
        (self.is_shown || turn.shows)
            && turn.has_cursor
            && is_number(relay.serving(), self.method)
            && lives(relay, self.label)
            && lives(relay, self.surface)
    }
}

// The relay took an act: the popup stays shown or not, and lives on or not. Where it was shown and
// isn't the shell is told.
fn turn_one(popup: &mut KeptPopup, relay: &Relay, turn: Turn, queue: &mut Queue)
    ensures turned { (log : List Act) → StandsFor relay.now log →
        popup.new ≡ turned (history log) turn popup.old }
    ensures told { (log : List Act) → StandsFor relay.now log → 0 < queue.old.places →
        queue.new.heard ≡
        queue.old.heard ++ map hidden_heard (hides (history log) turn popup.old) }
    ensures places { queue.old.places ≤ queue.new.places + 1 }
{
    let was_shown = popup.is_shown;
    popup.is_shown = popup.stays(relay, turn);
    popup.is_alive = lives(relay, popup.label);
    if was_shown && !popup.is_shown {
        queue.hide(popup.label);
    }
}

// The same of all popups.
fn turn_each(popups: &mut [KeptPopup], relay: &Relay, turn: Turn, queue: &mut Queue)
    ensures turned { (log : List Act) → StandsFor relay.now log →
        popups.new ≡ map (turned (history log) turn) popups.old }
    ensures told { (log : List Act) → StandsFor relay.now log →
        length popups.old ≤ queue.old.places → queue.new.heard ≡
        queue.old.heard ++ map hidden_heard (flat_map (hides (history log) turn) popups.old) }
{
    for popup in popups.iter_mut() {
        turn_one(popup, relay, turn, queue);
    }
}

// All popups are turned, and those that live no more leave.
fn turn_all(kept: &mut Vec<KeptPopup>, relay: &Relay, turn: Turn, queue: &mut Queue)
    ensures turned { (log : List Act) → StandsFor relay.now log → kept.new.items ≡
        filter (λ p. p.is_alive) (map (turned (history log) turn) kept.old.items) }
    ensures told { (log : List Act) → StandsFor relay.now log →
        length kept.old.items ≤ queue.old.places → queue.new.heard ≡
        queue.old.heard ++ map hidden_heard (flat_map (hides (history log) turn) kept.old.items) }
    ensures room { vec_capacity kept.old + vec_len kept.new ≤
        vec_capacity kept.new + vec_len kept.old }
{
    turn_each(kept, relay, turn, queue);
    kept.retain(|popup| popup.is_alive);
}

// What the act means, after which this field holds: a commit of that field shows the popups that
// are ready, where it told a place, or hides all; any other act leaves the cursor rectangle while a
// field holds.
fn turn_of(act: &Act, has_told: bool, holder: Option<Label>) -> Turn
    ensures { result ≡ turn_of (is_holders act.now holder) has_told (is_some holder) }
{
    match act {
        Act::Commit { field } if is_number(holder, *field) => Turn {
            shows: true,
            has_cursor: has_told,
        },
        _ => Turn {
            shows: false,
            has_cursor: holder.is_some(),
        },
    }
}

// Whether the act may make, end, show or hide a popup.
fn moves(act: &Act) -> bool
    ensures { result ≡ moves act.now }
{
    matches!(
        act,
        Act::Gone { .. }
            | Act::Popup { .. }
            | Act::Drop { .. }
            | Act::Focus { .. }
            | Act::Unfocus
            | Act::Commit { .. }
    )
}

// The popup that the act makes, which is shown where the act told a place.
fn made_popup(act: &Act, number: Label, has_told: bool) -> Option<KeptPopup>
    ensures { listed result ≡ made_popup act.now number has_told }
{
    match act {
        Act::Popup { method, surface } => Some(KeptPopup {
            label: number,
            method: *method,
            surface: *surface,
            is_shown: has_told,
            is_alive: true,
        }),
        _ => None,
    }
}

impl Popups {
    /// No popup lives. Takes no memory.
    pub fn new(alloc: Global) -> Popups
        ensures { result.kept ≡ [] }
    {
        Popups {
            kept: Vec::new(alloc),
        }
    }

    /// How many popups live.
    pub fn count(&self) -> usize
        ensures { result ≡ length self.now.kept }
    {
        self.kept.len()
    }

    /// Makes room for one popup more. `NoMemory` is its one error, after which all is as before.
    pub fn reserve(&mut self) -> Result<(), NoMemory>
        ensures kept { self.new.kept ≡ self.old.kept }
        ensures room { OnOk result (0 < self.new.room) }
    {
        self.kept.reserve(1)?;
        Ok(())
    }

    /// The relay took the act, which has this number, and told the queue what it tells. The queue is
    /// told of each popup that was shown and isn't, by rising label. Asks for room for one popup more.
    pub fn enter(&mut self, act: &Act, number: Label, relay: &Relay, queue: &mut Queue)
        requires room { 0 < self.old.room }
        ensures kept { (log : List Act) →
            Taken self.old.kept act.now number queue.old.has_placed relay.now log →
            self.new.kept ≡ kept_popups (history (act.now ∷ log)) }
        ensures told { (log : List Act) →
            Taken self.old.kept act.now number queue.old.has_placed relay.now log →
            length self.old.kept ≤ queue.old.places →
            queue.new.heard ≡ queue.old.heard ++ map hidden_heard (hidden act.now log) }
    {
        if !moves(act) {
            return;
        }
        let has_told = queue.has_placed();
        let turn = turn_of(act, has_told, relay.holder());
        turn_all(&mut self.kept, relay, turn, queue);
        if let Some(popup) = made_popup(act, number, has_told) {
            self.kept.push_reserved(popup);
        }
    }
}
