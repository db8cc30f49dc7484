//! A boxed seat, or none, in a form in which a program in C can keep it.
ghost use Rattle.std.specs.Prelude.{◌≡◌, Option, Some, None, is_some, true};
ghost use Rattle.c_relay.specs.declared.numbered.NumberedSeat.{NumberedSeat};
ghost use Rattle.c_library.specs.Held.{held_owns, seat_coded};

use crate::parts::Parts;
use c_relay::NumberedSeat;
use std::alloc::Global;
use std::marker::Model;
use std::ptr::null_mut;

/// What C sees of a seat. Nothing is ever read or written as one.
#[repr(C)]
#[derive(Drop)]
pub struct Opaque {
    byte: u8,
}

/// Owns a boxed seat, or nothing; who has it knows which.
#[repr(C)]
#[derive(Drop)]
pub struct Held {
    place: *mut Opaque,
    alloc: Global,
    pub ghost seat: { Option NumberedSeat } by { seat_coded },
}

impl Model for Held {
    ghost also_owns = { λ h. held_owns h.alloc h.place h.seat };
}

impl Held {
    pub fn nothing(alloc: Global) -> Held
        ensures { result.seat ≡ None }
    {
        Held {
            place: null_mut(),
            alloc,
        }
    }

    pub fn of_box(seat: Box<NumberedSeat>) -> Held
        ensures { result.seat ≡ Some seat.value }
    {
        Held::of_parts(Parts::of_box(seat))
    }

    pub fn into_box(self) -> Box<NumberedSeat>
        requires { is_some self.seat ≡ true }
        ensures { self.seat ≡ Some result.value }
    {
        self.into_parts().into_box()
    }

    fn of_parts(parts: Parts<NumberedSeat, Global>) -> Held
        ensures { result.seat ≡ Some parts.value }
    {
        let Parts { place, alloc } = parts;
        Held {
            place: place as *mut Opaque,
            alloc,
        }
    }

    fn into_parts(self) -> Parts<NumberedSeat, Global>
        requires { is_some self.seat ≡ true }
        ensures { self.seat ≡ Some result.value }
    {
        let Held { place, alloc } = self;
        Parts {
            place: place as *mut NumberedSeat,
            alloc,
        }
    }
}
