//! Places of a list that are marked.
ghost use Rattle.std.specs.Prelude.{◌≡◌, ℕ, suc, ◌≤◌, ◌<◌, ◌&&◌, ◌||◌, ◌==◌, nat_lt, map, []};
ghost use Rattle.std.specs.Prelude.{if◌then◌else◌, OnOk};
ghost use Rattle.broker_audience.specs.Marks.{is_marked, lowered, AreWithin};

use std::alloc::Global;
use std::marker::Model;
use wio_core::NoMemory;

/// Marked places of a list, each once, the lowest first.
///
/// In contracts it is the marked places, and below which place any can be marked. Only `reserve` takes memory.
#[derive(Drop)]
pub(crate) struct Marks {
    places: Vec<usize>,
}

impl Model for Marks {
    ghost use Rattle.std.specs.Prelude.{vec_capacity};
    ghost use Rattle.broker_audience.specs.Marks.{Marked, AreWithin};

    ghost Value = { Marked };

    ghost view = { λ m. record { places = m.places.items; bound = vec_capacity m.places } };

    ghost invariant = { λ m. AreWithin 0 (vec_capacity m.places) m.places.items };
}

impl Marks {
    /// None is marked. Takes no memory.
    pub(crate) fn new(alloc: Global) -> Marks
        ensures none { result.places ≡ [] }
    {
        Marks {
            places: Vec::new(alloc),
        }
    }

    /// The marked places, the lowest first.
    pub(crate) fn places(&self) -> &[usize]
        ensures places { result.now ≡ self.now.places }
    {
        &self.places
    }

    /// Makes room for marks below the bound. `NoMemory` is its one error, after which there is the room that there was.
    pub(crate) fn reserve(&mut self, bound: usize) -> Result<(), NoMemory>
        ensures same { self.new.places ≡ self.old.places }
        ensures bound { OnOk result (bound ≤ self.new.bound) }
        ensures never_less { self.old.bound ≤ self.new.bound }
    {
        let more = bound.saturating_sub(self.places.len());
        self.places.reserve(more)?;
        Ok(())
    }

    /// None is marked any more.
    pub(crate) fn clear(&mut self)
        ensures none { self.new.places ≡ [] }
        ensures bound { self.new.bound ≡ self.old.bound }
    {
        self.places.clear();
    }

    /// Marks the place, for which there is room.
    pub(crate) fn mark(&mut self, place: usize)
        requires place { place < self.old.bound }
        ensures marked { (k : ℕ) →
            is_marked k self.new.places ≡ ((place == k) || is_marked k self.old.places) }
        ensures within { (n : ℕ) → AreWithin 0 n self.old.places → place < n →
            AreWithin 0 n self.new.places }
        ensures bound { self.old.bound ≤ self.new.bound }
    {
        match self.places.binary_search_by_key(&place, |each| *each) {
            Ok(_) => {}
            Err(at) => {
                let _ = self.places.insert(at, place);
            }
        }
    }

    /// Marks the place, for which there is room, if so it is wanted.
    pub(crate) fn mark_if(&mut self, place: usize, is_wanted: bool)
        requires place { place < self.old.bound }
        ensures marked { (k : ℕ) →
            is_marked k self.new.places ≡
            ((is_wanted && place == k) || is_marked k self.old.places) }
        ensures within { (n : ℕ) → AreWithin 0 n self.old.places → place < n →
            AreWithin 0 n self.new.places }
        ensures bound { self.old.bound ≤ self.new.bound }
    {
        if is_wanted {
            self.mark(place);
        }
    }

    /// The element at the place leaves the list, and its mark with it; those behind it move up.
    pub(crate) fn leave_out(&mut self, place: usize)
        requires place { place < self.old.bound }
        ensures marked { (k : ℕ) →
            is_marked k self.new.places ≡ is_marked
            (if nat_lt k place then k else suc k) self.old.places }
        ensures within { (n : ℕ) → AreWithin 0 (suc n) self.old.places → place ≤ n →
            AreWithin 0 n self.new.places }
        ensures bound { self.new.bound ≡ self.old.bound }
    {
        self.places.retain(|each| *each != place);
        lower_each(&mut self.places, place);
    }
}

// The places behind the one that left move up.
fn lower_each(places: &mut [usize], left: usize)
    ensures { places.new ≡ map (lowered left) places.old }
{
    for each in places.iter_mut() {
        *each = lowered(*each, left);
    }
}

// The place after the one at `place` left: one less where it was behind.
fn lowered(each: usize, place: usize) -> usize
    ensures { result ≡ lowered place each }
{
    if each > place { each - 1 } else { each }
}
