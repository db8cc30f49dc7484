//! A boxed broker, or none, in a form in which a program in C can keep it.
ghost use Rattle.std.specs.Prelude.{◌≡◌, Option, Some, None, is_some, true};
ghost use Rattle.c_broker.specs.declared.seat.ByteSeat.{ByteSeat};
ghost use Rattle.c_library.specs.HeldBytes.{held_owns, seat_coded};

use crate::held::Opaque;
use crate::parts::Parts;
use c_broker::ByteSeat;
use std::alloc::Global;
use std::marker::Model;
use std::ptr::null_mut;

/// Owns a boxed broker, or nothing; who has it knows which.
#[repr(C)]
#[derive(Drop)]
pub struct HeldBytes {
    place: *mut Opaque,
    alloc: Global,
    pub ghost seat: { Option ByteSeat } by { seat_coded },
}

impl Model for HeldBytes {
    ghost also_owns = { λ h. held_owns h.alloc h.place h.seat };
}

impl HeldBytes {
    pub fn nothing(alloc: Global) -> HeldBytes
        ensures { result.seat ≡ None }
    {
        HeldBytes {
            place: null_mut(),
            alloc,
        }
    }

    pub fn of_box(seat: Box<ByteSeat>) -> HeldBytes
        ensures { result.seat ≡ Some seat.value }
    {
        HeldBytes::of_parts(Parts::of_box(seat))
    }

    pub fn into_box(self) -> Box<ByteSeat>
        requires { is_some self.seat ≡ true }
        ensures { self.seat ≡ Some result.value }
    {
        self.into_parts().into_box()
    }

    fn of_parts(parts: Parts<ByteSeat, Global>) -> HeldBytes
        ensures { result.seat ≡ Some parts.value }
    {
        let Parts { place, alloc } = parts;
        HeldBytes {
            place: place as *mut Opaque,
            alloc,
        }
    }

    fn into_parts(self) -> Parts<ByteSeat, Global>
        requires { is_some self.seat ≡ true }
        ensures { self.seat ≡ Some result.value }
    {
        let HeldBytes { place, alloc } = self;
        Parts {
            place: place as *mut ByteSeat,
            alloc,
        }
    }
}
