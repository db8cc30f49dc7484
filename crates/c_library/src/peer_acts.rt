//! Peers and their objects, as they are made and end. An object that is made has a number of the embedder's.
ghost use Rattle.relay_model.specs.declared.act.EndCause.TheVariants.{Gone};
ghost use Rattle.c_library.specs.Took.{Took, Made, Ended};

use crate::opened::{Wlim, end, make, take};
use relay_model::{Act, EndCause};
use std::alloc::Global;

/// A peer joins.
#[unsafe(no_mangle)]
pub extern "C" fn wlim_peer(seat: &mut Wlim, alloc: Global) -> i64
    ensures { Took seat.old.held.seat seat.new.held.seat Act.Peer result }
{
    take(seat, alloc, Act::Peer)
}

/// A peer ends, and with it all its objects.
#[unsafe(no_mangle)]
pub extern "C" fn wlim_gone(seat: &mut Wlim, alloc: Global, peer: u32) -> i64
    ensures { Took seat.old.held.seat seat.new.held.seat (Act.Gone peer Gone) result }
{
    take(
        seat,
        alloc,
        Act::Gone {
            peer,
            cause: EndCause::Gone,
        },
    )
}

/// `wl_compositor.create_surface`.
#[unsafe(no_mangle)]
pub extern "C" fn wlim_surface(seat: &mut Wlim, alloc: Global, peer: u32, number: u64) -> i64
    ensures { Made number seat.old.held.seat seat.new.held.seat (Act.Surface peer) result }
{
    make(seat, alloc, Act::Surface { peer }, number)
}

/// `zwp_text_input_manager_v3.get_text_input`.
#[unsafe(no_mangle)]
pub extern "C" fn wlim_field(seat: &mut Wlim, alloc: Global, peer: u32, number: u64) -> i64
    ensures { Made number seat.old.held.seat seat.new.held.seat (Act.Field peer) result }
{
    make(seat, alloc, Act::Field { peer }, number)
}

/// `zwp_input_method_manager_v2.get_input_method`.
#[unsafe(no_mangle)]
pub extern "C" fn wlim_method(seat: &mut Wlim, alloc: Global, peer: u32, number: u64) -> i64
    ensures { Made number seat.old.held.seat seat.new.held.seat (Act.Method peer) result }
{
    make(seat, alloc, Act::Method { peer }, number)
}

/// `zwp_input_method_v2.get_input_popup_surface`.
#[unsafe(no_mangle)]
pub extern "C" fn wlim_popup(
    seat: &mut Wlim,
    alloc: Global,
    method: u32,
    surface: u32,
    number: u64,
) -> i64
    ensures { Made number seat.old.held.seat seat.new.held.seat (Act.Popup method surface) result }
{
    make(seat, alloc, Act::Popup { method, surface }, number)
}

/// `zwp_input_method_v2.grab_keyboard`.
#[unsafe(no_mangle)]
pub extern "C" fn wlim_grab(seat: &mut Wlim, alloc: Global, method: u32, number: u64) -> i64
    ensures { Made number seat.old.held.seat seat.new.held.seat (Act.Grab method) result }
{
    make(seat, alloc, Act::Grab { method }, number)
}

/// `zwp_virtual_keyboard_manager_v1.create_virtual_keyboard`.
#[unsafe(no_mangle)]
pub extern "C" fn wlim_vboard(seat: &mut Wlim, alloc: Global, peer: u32, number: u64) -> i64
    ensures { Made number seat.old.held.seat seat.new.held.seat (Act.VBoard peer) result }
{
    make(seat, alloc, Act::VBoard { peer }, number)
}

/// An object is destroyed by its peer; never a peer. Its number is forgotten, whatever is answered.
#[unsafe(no_mangle)]
pub extern "C" fn wlim_drop(seat: &mut Wlim, alloc: Global, label: u32) -> i64
    ensures { Ended label seat.old.held.seat seat.new.held.seat result }
{
    end(seat, alloc, label)
}
