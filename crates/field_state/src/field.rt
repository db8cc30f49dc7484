//! One text field: its requests set what is pending, and a commit makes that current where the field holds the seat.
//! What is current is defined by looking back over the calls; here it is kept in two sets of slots.
ghost use Rattle.std.specs.Prelude.{◌≡◌, ◌≤◌, List, [], ◌∷◌, length, true, false, Option, None};
ghost use Rattle.std.specs.Prelude.{option_map, is_some, if◌then◌else◌, IsTrue, IfSome};
ghost use Rattle.wl_wire.specs.Texts.{has_no_zero};
ghost use Rattle.field_state.specs.Calls.{Call, Enter, Leave, Enable, Disable, Surround, Cause};
ghost use Rattle.field_state.specs.Calls.{Content, Rectangle, Commit, Displace, initial, is_place};
ghost use Rattle.field_state.specs.Hold.{entered, answer, holds_after, has_effect, taken};
ghost use Rattle.field_state.specs.Hold.{commit_count};
ghost use Rattle.field_state.specs.Current.{current};
ghost use Rattle.field_state.specs.Stands.{Stands, pending_of};
ghost use Rattle.field_state.specs.Changes.{fresh, focused, enabled, disabled, surrounded, caused};
ghost use Rattle.field_state.specs.Changes.{typed, placed, taken_of, committed, displaced};

use crate::commit::{Taken, Word};
use crate::room::Room;
use crate::slots::{SURROUNDING_LIMIT, Slots};
use popup_place::Rect;
use std::alloc::Global;
use std::marker::Model;
use wl_wire::Text;

/// One `zwp_text_input_v3`. Contracts speak of the calls on it so far, the newest first.
#[derive(Drop)]
pub struct Field {
    entered: bool,
    word: Option<Word>,
    holds: bool,
    count: u32,
    pending: Slots,
    current: Slots,
}

impl Model for Field {
    ghost use Rattle.field_state.specs.Stands.{Kept};

    ghost Value = { Kept };

    ghost view = { λ f. record {
      entered = f.entered;
      word = f.word;
      holds = f.holds;
      count = f.count;
      pending = f.pending.state;
      current = f.current.state;
    } };

    ghost use Rattle.std.specs.Prelude.{◌≡◌, false};
    ghost use Rattle.field_state.specs.Stands.{IsLeft};

    ghost invariant = { λ f.
        (f.entered ≡ false → IsLeft f.word f.holds f.pending.state f.current.state)
        × (f.pending.has_room ≡ f.current.has_room) };
}

// A cursor or anchor can stand at this byte of the text.
fn is_place(text: &str, at: i32) -> bool
    ensures { result ≡ is_place text.now at }
{
    at >= 0 && text.is_char_boundary(at as usize)
}

// What a commit does, by what it says and whether the field holds.
fn answer(word: Option<Word>, holds: bool) -> Taken
    ensures { result ≡ answer word holds }
{
    match word {
        Some(Word::Enabled) => Taken::Begun,
        Some(Word::Disabled) if holds => Taken::Ended,
        None if holds => Taken::Updated,
        _ => Taken::Nothing,
    }
}

// The field holds after a commit with this answer.
fn holds_after(taken: Taken) -> bool
    ensures { result ≡ holds_after taken }
{
    matches!(taken, Taken::Begun | Taken::Updated)
}

// Makes current what is pending where the field holds, else what is initial.
fn show(current: &mut Slots, pending: &Slots, holds: bool)
    requires { pending.now.has_room ≡ current.old.has_room }
    ensures { current.new ≡ record {
      state = (if holds then pending.now.state else initial);
      has_room = current.old.has_room;
    } }
{
    if holds {
        current.copy_from(pending);
    } else {
        current.clear();
    }
}

// Both have memory for a text then: their own, or that of the room.
fn take_room(pending: &mut Slots, current: &mut Slots, room: &mut Option<Room>)
    requires room { is_some room.old ≡ true }
    requires both { pending.old.has_room ≡ current.old.has_room }
    ensures pending { pending.new ≡ record { state = pending.old.state; has_room = true } }
    ensures current { current.new ≡ record { state = current.old.state; has_room = true } }
{
    if pending.has_room() {
        return;
    }
    if let Some(room) = room.take() {
        pending.take_room(room.pending);
        current.take_room(room.current);
    }
}

impl Field {
    /// A field that isn't entered. Takes no memory.
    pub fn new(alloc: Global) -> Field
        ensures fresh { result ≡ fresh }
        ensures history { Stands [] result }
    {
        Field {
            entered: false,
            word: None,
            holds: false,
            count: 0,
            pending: Slots::new(alloc),
            current: Slots::new(alloc),
        }
    }

    /// The field is entered. Where it isn't, leaving it changes nothing.
    pub fn is_entered(&self) -> bool
        ensures now { result ≡ self.now.entered }
        ensures left { result ≡ false → focused false self.now ≡ self.now }
        ensures history { (calls : List Call) → Stands calls self.now → result ≡ entered calls }
    {
        self.entered
    }

    // Nothing is pending or current any more, and no hold goes on.
    fn clear(&mut self)
        ensures { self.new ≡ record {
          entered = self.old.entered;
          word = None;
          holds = false;
          count = self.old.count;
          pending = initial;
          current = initial;
        } }
    {
        self.displace();
        self.word = None;
        self.pending.clear();
    }

    /// `zwp_text_input_v3.enter`: the focus comes to a surface of the field's peer. A hold ends,
    /// and all but the count is initial.
    pub fn enter(&mut self)
        ensures now { self.new ≡ focused true self.old }
        ensures stands { (calls : List Call) → Stands calls self.old →
            Stands (Enter ∷ calls) self.new }
    {
        self.clear();
        self.entered = true;
    }

    /// `zwp_text_input_v3.leave`: the focus goes. A hold ends, and all but the count is initial. Until the next `enter`
    /// commits are only counted, and no other request has an effect.
    pub fn leave(&mut self)
        ensures now { self.new ≡ focused false self.old }
        ensures stands { (calls : List Call) → Stands calls self.old →
            Stands (Leave ∷ calls) self.new }
    {
        self.clear();
        self.entered = false;
    }

    /// `zwp_text_input_v3.enable`: the next commit takes the seat, also from another field, and
    /// from then on nothing that was set before counts.
    pub fn enable(&mut self)
        ensures now { self.new ≡ enabled self.old }
        ensures stands { (calls : List Call) → Stands calls self.old →
            Stands (Enable ∷ calls) self.new }
    {
        if self.entered {
            self.word = Some(Word::Enabled);
            self.pending.clear();
        }
    }

    /// `zwp_text_input_v3.disable`: the next commit ends the field's hold, if no `enable` comes before it.
    pub fn disable(&mut self)
        ensures now { self.new ≡ disabled self.old }
        ensures stands { (calls : List Call) → Stands calls self.old →
            Stands (Disable ∷ calls) self.new }
    {
        if self.entered {
            self.word = Some(Word::Disabled);
        }
    }

    /// `zwp_text_input_v3.set_surrounding_text`: the text around the cursor, of at most
    /// `SURROUNDING_LIMIT` bytes, and the bytes where cursor and anchor stand. False, and no
    /// effect, exactly where the field isn't entered, or cursor or anchor is negative, past the
    /// text's end or inside a character. The first text that has an effect takes the room, and no
    /// other call takes memory.
    pub fn set_surrounding(
        &mut self,
        text: &Text,
        cursor: i32,
        anchor: i32,
        room: &mut Option<Room>,
    ) -> bool
        requires short { length text.now ≤ SURROUNDING_LIMIT }
        requires room { is_some room.old ≡ true }
        ensures now { self.new ≡ surrounded text.now cursor anchor self.old }
        ensures stands { (calls : List Call) → Stands calls self.old →
            Stands (Surround text.now cursor anchor ∷ calls) self.new }
        ensures effect { (calls : List Call) → Stands calls self.old →
            result ≡ has_effect calls (Surround text.now cursor anchor) }
    {
        let shown = text.as_str();
        let has_effect = self.entered && is_place(shown, cursor) && is_place(shown, anchor);
        if has_effect {
            take_room(&mut self.pending, &mut self.current, room);
            self.pending.set_surrounding(text, cursor, anchor);
        }
        has_effect
    }

    /// `zwp_text_input_v3.set_text_change_cause`: what changed the text, 0 for the input method and
    /// 1 for anything else; other numbers are kept as they are. It counts for the next commit
    /// alone.
    pub fn set_cause(&mut self, cause: u32)
        ensures now { self.new ≡ caused cause self.old }
        ensures stands { (calls : List Call) → Stands calls self.old →
            Stands (Cause cause ∷ calls) self.new }
    {
        if self.entered {
            self.pending.set_cause(cause);
        }
    }

    /// `zwp_text_input_v3.set_content_type`: hint and purpose, any numbers.
    pub fn set_content(&mut self, hint: u32, purpose: u32)
        ensures now { self.new ≡ typed hint purpose self.old }
        ensures stands { (calls : List Call) → Stands calls self.old →
            Stands (Content hint purpose ∷ calls) self.new }
    {
        if self.entered {
            self.pending.set_content(hint, purpose);
        }
    }

    /// `zwp_text_input_v3.set_cursor_rectangle`: where the cursor stands, in pixels of the surface.
    /// False, and no effect, exactly where the field isn't entered or width or height is negative.
    pub fn set_rect(&mut self, rect: Rect) -> bool
        ensures now { self.new ≡ placed rect self.old }
        ensures stands { (calls : List Call) → Stands calls self.old →
            Stands (Rectangle rect ∷ calls) self.new }
        ensures effect { (calls : List Call) → Stands calls self.old →
            result ≡ has_effect calls (Rectangle rect) }
    {
        let has_effect = self.entered && rect.width >= 0 && rect.height >= 0;
        if has_effect {
            self.pending.set_rect(rect);
        }
        has_effect
    }

    /// `zwp_text_input_v3.commit`: counts, and where the field then holds the seat makes current
    /// what is pending. `Begun` takes the seat from another field that had it, which the caller
    /// displaces.
    pub fn commit(&mut self) -> Taken
        ensures now { self.new ≡ committed self.old }
        ensures answer { result ≡ taken_of self.old }
        ensures stands { (calls : List Call) → Stands calls self.old →
            Stands (Commit ∷ calls) self.new }
        ensures taken { (calls : List Call) → Stands calls self.old → result ≡ taken calls }
    {
        let taken = answer(self.word, self.holds);
        self.holds = holds_after(taken);
        show(&mut self.current, &self.pending, self.holds);
        self.word = None;
        self.pending.set_cause(0);
        self.count = self.count.wrapping_add(1);
        taken
    }

    /// What `commit` would answer now, without a commit.
    pub fn commit_answer(&self) -> Taken
        ensures now { result ≡ taken_of self.now }
        ensures history { (calls : List Call) → Stands calls self.now → result ≡ taken calls }
    {
        answer(self.word, self.holds)
    }

    /// Another field's commit takes the seat: this field no longer holds, and is told nothing. What
    /// it has pending stays, with its word and its count. No effect where the field doesn't hold.
    pub fn displace(&mut self)
        ensures now { self.new ≡ displaced self.old }
        ensures stands { (calls : List Call) → Stands calls self.old →
            Stands (Displace ∷ calls) self.new }
    {
        self.holds = false;
        self.current.clear();
    }

    /// The pending surrounding text with its cursor and anchor: what the next commit makes current,
    /// where the field then holds.
    pub fn pending_surrounding(&self) -> Option<(&str, i32, i32)>
        ensures now { option_map (λ s. record { text = s.0.now; cursor = s.1; anchor = s.2 }) result
            ≡ self.now.pending.surrounding }
        ensures history { (calls : List Call) → Stands calls self.now →
            option_map (λ s. record { text = s.0.now; cursor = s.1; anchor = s.2 }) result
            ≡ (pending_of calls).surrounding }
        ensures clean { IfSome result (λ s. IsTrue (has_no_zero s.0.now)) }
    {
        self.pending.surrounding()
    }

    /// How many commits there were, entered or not, modulo 2^32. `zwp_text_input_v3.done` carries it as its serial.
    pub fn count(&self) -> u32
        ensures now { result ≡ self.now.count }
        ensures history { (calls : List Call) → Stands calls self.now → result ≡ commit_count
            calls }
    {
        self.count
    }

    /// The current surrounding text with its cursor and anchor; `None` where none was set or the field doesn't hold.
    pub fn surrounding(&self) -> Option<(&str, i32, i32)>
        ensures now { option_map (λ s. record { text = s.0.now; cursor = s.1; anchor = s.2 }) result
            ≡ self.now.current.surrounding }
        ensures history { (calls : List Call) → Stands calls self.now →
            option_map (λ s. record { text = s.0.now; cursor = s.1; anchor = s.2 }) result ≡
            (current calls).surrounding }
        ensures clean { IfSome result (λ s. IsTrue (has_no_zero s.0.now)) }
    {
        self.current.surrounding()
    }

    /// The current cause; 0, the input method, where none was set or the field doesn't hold.
    pub fn cause(&self) -> u32
        ensures now { result ≡ self.now.current.cause }
        ensures history { (calls : List Call) → Stands calls self.now →
            result ≡ (current calls).cause }
    {
        self.current.cause()
    }

    /// The current hint and purpose; 0 and 0, none and normal, where none were set or the field doesn't hold.
    pub fn content(&self) -> (u32, u32)
        ensures now { result ≡ self.now.current.content }
        ensures history { (calls : List Call) → Stands calls self.now →
            result ≡ (current calls).content }
    {
        self.current.content()
    }

    /// The current cursor rectangle; `None` where none was set or the field doesn't hold.
    pub fn rect(&self) -> Option<Rect>
        ensures now { result ≡ self.now.current.rect }
        ensures history { (calls : List Call) → Stands calls self.now →
            result ≡ (current calls).rect }
    {
        self.current.rect()
    }
}
