//! Who watches what the entries of a journal make.
ghost use Rattle.std.specs.Prelude.{◌≡◌, ◌<◌, ◌∷◌, List, map};
ghost use Rattle.std.specs.List.{AllByRecursion, flat_map};
ghost use Rattle.relay_model.specs.declared.act.Act.{Act};
ghost use Rattle.relay_model.specs.Told.{told};
ghost use Rattle.relay_objects.specs.Reached.{Reached};
ghost use Rattle.relay_core.specs.Kept.{IsReserved};
ghost use Rattle.relay_core.specs.Stands.{StandsFor, route_told};
ghost use Rattle.broker_audience.specs.Tells.{IsShort, Tells};
ghost use Rattle.broker_audience.specs.Lives.{who, has_room};
ghost use Rattle.broker_core.specs.Watched.{Watched, number_at, shown, shown_by, gathered_put};
ghost use Rattle.broker_core.specs.Watched.Watched.{Entered, Placed, Passed, Modified, Put};

use broker_audience::{Audience, Listeners, Live};
use broker_model::Entry;
use relay_core::{Post, Relay, Route};
use relay_model::{Act, Label, Mods, Said, Told};

/// Watches a journal: is told of each entry, by its number from 1, what it makes.
///
/// In this order: the entry, what the shell is told, and what was put for each peer, the one with
/// the lowest number first. A group that is empty or was left out isn't told. `()` watches nothing.
pub trait Watch {
    /// The watcher before, what it is told, and a watcher that may follow.
    ghost may_follow: { Self → Watched → Self → Type 0 };

    /// The entry with the number, and the act that it is, which the relay is about to take: it stands
    /// for the acts before.
    fn entered(&mut self, number: u32, entry: &Entry, act: &Act, relay: &Relay)
        ensures { (log : List Act) → StandsFor relay.now log →
            may_follow self.old (Entered number entry.now act.now log) self.new };

    /// Where the shell shows a popup, in pixels of the screen from the top left corner
    /// (`zwp_input_popup_surface_v2`): by the number of its peer, and its id there.
    fn placed(&mut self, number: u32, peer: u32, id: u32, x: i64, y: i64)
        ensures { may_follow self.old (Placed number peer id x y) self.new };

    /// A key that goes on to the shell (`wl_keyboard.key`), its time in milliseconds.
    fn passed(&mut self, number: u32, time: u32, key: u32, state: u32)
        ensures { may_follow self.old (Passed number time key state) self.new };

    /// Modifiers of a method's own keyboard that go on to the shell
    /// (`zwp_virtual_keyboard_v1.modifiers`).
    fn modified(&mut self, number: u32, mods: Mods)
        ensures { may_follow self.old (Modified number mods) self.new };

    /// What was put for the peer: the bytes, and each token with the offset of its message.
    fn put(&mut self, number: u32, peer: u32, bytes: &[u8], tokens: &[(usize, u32)])
        ensures { may_follow self.old (Put number peer bytes.now tokens.now) self.new };
}

impl Watch for () {
    ghost may_follow = { λ before event after. Unit {0} };

    fn entered(&mut self, _number: u32, _entry: &Entry, _act: &Act, _relay: &Relay) {}

    fn placed(&mut self, _number: u32, _peer: u32, _id: u32, _x: i64, _y: i64) {}

    fn passed(&mut self, _number: u32, _time: u32, _key: u32, _state: u32) {}

    fn modified(&mut self, _number: u32, _mods: Mods) {}

    fn put(&mut self, _number: u32, _peer: u32, _bytes: &[u8], _tokens: &[(usize, u32)]) {}
}

// The number of the live peer with the label, or 0.
fn number_with(live: &Listeners, label: Label) -> u32
    ensures { result ≡ number_at (map who live.now.items) label }
{
    match live.place_with(label) {
        Some(place) => live.at(place).number,
        None => 0,
    }
}

// Tells what the shell is told.
fn show<W: Watch>(number: u32, audience: &Audience, said: &Said, watch: &mut W)
    ensures { Reached W.may_follow watch.old (shown number audience.now.directory.made
        (map who audience.now.live.items) said.now) watch.new }
{
    match said {
        Said::Placed { popup, x, y } => {
            let (peer, id) = match audience.directory.find(*popup) {
                Some(object) => (object.peer, object.id),
                None => (0, 0),
            };
            let peer = number_with(&audience.live, peer);
            watch.placed(number, peer, id, *x, *y);
        }
        Said::Pass { time, key, state } => watch.passed(number, *time, *key, *state),
        Said::VMods(mods) => watch.modified(number, *mods),
        _ => {}
    }
}

/// An audience, and who watches what the shell is told meanwhile, as of the entry with the number.
#[derive(Drop)]
pub(crate) struct Telling<'a, W> {
    pub number: u32,
    pub audience: &'a mut Audience,
    pub watch: &'a mut W,
}

impl<'a, W: Watch> Post for Telling<'a, W> {
    ghost use Rattle.broker_core.specs.Telling.{IsTelling};

    ghost may_follow = { λ before told after. IsTelling W.may_follow before told after };

    fn tell(&mut self, told: &Told) {
        show(self.number, self.audience, &told.event, self.watch);
        self.audience.tell(told);
    }
}

/// The relay takes the act, for which room was made: the audience hears what it tells, and who
/// watches is told what the shell is told.
#[inline(always)]
pub(crate) fn speak<W: Watch>(
    relay: &mut Relay,
    number: u32,
    act: &Act,
    audience: &mut Audience,
    watch: &mut W,
) -> Option<Route>
    requires reserved { IsReserved relay.old act.now }
    requires number { relay.old.state.acts < 4294967295 }
    ensures stands { (log : List Act) → StandsFor relay.old log →
        StandsFor relay.new (act.now ∷ log) }
    ensures route { (log : List Act) → StandsFor relay.old log → result ≡ route_told act.now log }
    ensures told { (log : List Act) → StandsFor relay.old log →
        Reached (λ a t b. IsShort t → Tells a t b) audience.old (told act.now log) audience.new }
    ensures watched { (log : List Act) → StandsFor relay.old log →
        AllByRecursion IsShort (told act.now log) →
        Reached W.may_follow watch.old (shown_by number audience.old.directory.made
        (map who audience.old.live.items) (told act.now log)) watch.new }
{
    let mut telling = Telling {
        number,
        audience,
        watch,
    };
    relay.step(act, &mut telling)
}

// Whether what is gathered for the peer is a whole group, for which there is room.
fn has_room(peer: &Live) -> bool
    ensures { result ≡ has_room peer.now }
{
    !peer.gathering.is_over()
        && peer.gathering.bytes().len() <= peer.store.capacity() - peer.store.len()
}

// Tells the group that is gathered for the peer, if it will be put.
fn show_group<W: Watch>(number: u32, peer: &Live, watch: &mut W)
    ensures { Reached W.may_follow watch.old (gathered_put number peer.now) watch.new }
{
    let group = peer.gathering.bytes();
    if group.is_empty() || !has_room(peer) {
        return;
    }
    watch.put(number, peer.number, group, peer.gathering.tokens());
}

/// Tells what is gathered for the live peers, as far as it will be put.
pub(crate) fn show_groups<W: Watch>(number: u32, live: &Listeners, watch: &mut W)
    ensures { Reached W.may_follow watch.old (flat_map (gathered_put number) live.now.items)
        watch.new }
{
    for place in live.told() {
        show_group(number, live.at(*place), watch);
    }
}
