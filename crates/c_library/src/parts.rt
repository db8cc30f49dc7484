//! What a `Box` is made of.
ghost use Rattle.std.specs.Prelude.{◌≡◌};
ghost use Rattle.std.specs.Box.Ownership.{box_owns};

use std::alloc::Allocator;
use std::marker::Model;

/// The place of a boxed value, and whose memory it is.
pub struct Parts<T, A: Allocator> {
    pub(crate) place: *mut T,
    pub(crate) alloc: A,
    pub ghost value: { T },
}

impl<T, A: Allocator> Model for Parts<T, A> {
    ghost also_owns = { λ p. box_owns (A.dealloc_token p.alloc) T.row p.place p.value };
}

impl<T, A: Allocator> Parts<T, A> {
    pub fn of_box(boxed: Box<T, A>) -> Parts<T, A>
    where
        T: Drop,
        ensures { result.value ≡ boxed.value }
    {
        let (place, alloc) = Box::into_raw_with_allocator(boxed);
        Parts { place, alloc }
    }

    pub fn into_box(self) -> Box<T, A>
        ensures { result.value ≡ self.value }
    {
        let Parts { place, alloc } = self;
        unsafe { Box::from_raw(alloc, place) }
    }
}
