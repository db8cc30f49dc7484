//! The list, as far as it is kept in memory.
use crate::past::Past;
use std::alloc::Global;
use std::collections::VecDeque;
use std::marker::Model;
use wio_core::NoMemory;

/// A value that can be copied into memory of its own.
pub trait OwnCopy: Sized {
    ghost use Rattle.std.specs.Prelude.{◌≡◌, IfOk};

    /// The same value in memory of its own. `NoMemory` is its one error.
    fn own_copy(&self, alloc: Global) -> Result<Self, NoMemory>
        ensures value { IfOk result (λ copy. copy ≡ self.now) };
}

impl<T: Copy> OwnCopy for T {
    fn own_copy(&self, _alloc: Global) -> Result<T, NoMemory> {
        Ok(*self)
    }
}

/// A list whose oldest items can be let go. Its items have numbers from 1, the oldest, and each
/// keeps its own.
///
/// In contracts it is all its items, the newest first, how many of the oldest were let go, and how
/// many more may be put without taking memory. Only those that weren't let go are in memory.
#[derive(Drop)]
pub struct LongList<T> {
    past: Past<T>,
    kept_from: u32,
    // The front is the oldest.
    kept: VecDeque<T>,
}

impl<T> Model for LongList<T> {
    ghost use Rattle.std.specs.Prelude.{◌≡◌, ◌+◌, ◌-◌, ◌<◌, ◌++◌, reverse, length};
    ghost use Rattle.std.specs.VecDeque.{deque_len, deque_capacity};
    ghost use Rattle.out_store.specs.Long.{Long};

    ghost Value = { Long T };

    ghost view = { λ l. record {
      items = reverse l.kept.items ++ l.past;
      kept_from = l.kept_from;
      room = deque_capacity l.kept - deque_len l.kept;
    } };

    ghost invariant = { λ l. (l.kept_from ≡ length l.past)
        × (length l.kept.items + length l.past < 4294967296) };
}

impl<T> LongList<T> {
    ghost use Rattle.std.specs.Prelude.{◌≡◌, ◌+◌, ◌<◌, ◌≤◌, ◌↔◌, [], ◌∷◌, length, max, min, OnOk};
    ghost use Rattle.std.specs.Prelude.{IsSome};
    ghost use Rattle.std.specs.Option.{option_copied};
    ghost use Rattle.out_store.specs.Long.{item_at, kept_at};

    /// No items. Takes no memory.
    pub fn new(alloc: Global) -> LongList<T>
        ensures empty { result.items ≡ [] }
        ensures kept { result.kept_from ≡ 0 }
    {
        LongList {
            past: Past::new(),
            kept_from: 0,
            kept: VecDeque::new(alloc),
        }
    }

    /// How many items there are, let go or not: 0 to 4,294,967,295.
    pub fn len(&self) -> u32
        ensures number { result ≡ length self.now.items }
        ensures within { self.now.kept_from ≤ length self.now.items }
    {
        self.kept_from + self.kept.len() as u32
    }

    /// How many of the oldest were let go: 0 to `len`.
    pub fn kept_from(&self) -> u32
        ensures number { result ≡ self.now.kept_from }
        ensures within { result ≤ length self.now.items }
    {
        self.kept_from
    }

    /// The item with a number, from 1, the oldest, to `len`. None has another number, and none is
    /// answered that was let go.
    pub fn item(&self, number: u32) -> Option<&T>
        ensures value { option_copied result ≡ kept_at self.now.kept_from self.now.items number }
    {
        let before = number.checked_sub(1)?;
        let place = before.checked_sub(self.kept_from)?;
        self.kept.get(place as usize)
    }

    /// Makes room for so many more items. `NoMemory` is its one error, after which there is the room
    /// that there was.
    pub fn reserve(&mut self, more: usize) -> Result<(), NoMemory>
        ensures same { self.new.items ≡ self.old.items }
        ensures kept { self.new.kept_from ≡ self.old.kept_from }
        ensures room { OnOk result (more ≤ self.new.room) }
        ensures never_less { self.old.room ≤ self.new.room }
    {
        self.kept.reserve(more)?;
        Ok(())
    }

    /// Puts one more item, the newest. Asks that there is room, and that its number is below
    /// 4,294,967,296. Takes no memory.
    #[inline(always)]
    pub fn push(&mut self, item: T)
        requires room { 0 < self.old.room }
        requires number { length self.old.items < 4294967295 }
        ensures put { self.new.items ≡ item ∷ self.old.items }
        ensures kept { self.new.kept_from ≡ self.old.kept_from }
        ensures room_left { self.old.room ≤ self.new.room + 1 }
    {
        self.kept.push_back_reserved(item);
    }

    /// Lets the oldest kept item go, and hands it out; none where none is kept.
    pub fn pop_oldest(&mut self) -> Option<T>
        ensures value { result ≡ item_at self.old.items (self.old.kept_from + 1) }
        ensures some { IsSome result ↔ (self.old.kept_from < length self.old.items) }
        ensures same { self.new.items ≡ self.old.items }
        ensures kept { self.new.kept_from ≡ min (self.old.kept_from + 1) (length self.old.items) }
        ensures never_less { self.old.room ≤ self.new.room }
    {
        let item = self.kept.pop_front()?;
        let past = std::mem::replace(&mut self.past, Past::new());
        self.past = past.with(&item);
        self.kept_from += 1;
        Some(item)
    }

    // Lets all items go.
    fn let_all_go(&mut self)
    where
        T: Drop,
        ensures same { self.new.items ≡ self.old.items }
        ensures kept { self.new.kept_from ≡ length self.old.items }
        ensures never_less { self.old.room ≤ self.new.room }
    {
        let past = std::mem::replace(&mut self.past, Past::new());
        self.past = past.with_all(&self.kept);
        self.kept_from += self.kept.len() as u32;
        self.kept.clear();
    }

    /// Lets the items up to a number go, all where it is `len` or more: they are dropped, and stay
    /// in the list for contracts. Those that went before stay gone.
    pub fn let_go(&mut self, number: u32)
    where
        T: Drop,
        ensures same { self.new.items ≡ self.old.items }
        ensures kept { self.new.kept_from ≡ max self.old.kept_from
            (min number (length self.old.items)) }
        ensures never_less { self.old.room ≤ self.new.room }
    {
        if self.len() <= number {
            self.let_all_go();
            return;
        }
        while self.kept_from() < number {
            if self.pop_oldest().is_none() {
                return;
            }
        }
    }
}

impl<T: OwnCopy + Drop> LongList<T> {
    ghost use Rattle.std.specs.Prelude.{◌≡◌, IfOk};

    /// The same items in memory of their own, without those that were let go, which are gone in the
    /// copy too. `NoMemory` is its one error.
    pub fn copy(&self, alloc: Global) -> Result<LongList<T>, NoMemory>
        ensures value { IfOk result (λ list. list.items ≡ self.now.items) }
        ensures kept { IfOk result (λ list. list.kept_from ≡ self.now.kept_from) }
    {
        let mut kept = VecDeque::with_capacity(alloc, self.kept.len())?;
        for place in 0..self.kept.len() {
            kept.push_back(self.kept[place].own_copy(alloc)?)?;
        }
        Ok(LongList {
            past: self.past.copy(),
            kept_from: self.kept_from,
            kept,
        })
    }
}
