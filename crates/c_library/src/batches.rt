//! What a batch comes to, as C is told.
ghost use Rattle.std.specs.Prelude.{◌≡◌};
ghost use Rattle.c_library.specs.Fates.{IsBatch, fate_code, batch_of};

use crate::answer;
use crate::opened::{Wlim, put, taken};
use c_relay::{BatchFate, Reason};
use std::alloc::Global;

/// To which field a batch is relayed, and with which serial; 0 both where it is relayed to none.
#[repr(C)]
#[derive(Clone, Copy, Debug, PartialEq, Eq)]
pub struct Batch {
    /// The field.
    pub field: u32,
    /// The serial that it is told (`zwp_text_input_v3.done`).
    pub serial: u32,
}

// The answer of what a batch comes to.
fn fate_code(fate: BatchFate) -> i64
    ensures { result ≡ fate_code fate }
{
    match fate {
        BatchFate::Relayed { .. } => answer::RELAYED,
        BatchFate::Unrelayed(Reason::NotServing) => answer::NOT_SERVING,
        BatchFate::Unrelayed(Reason::NoActivation) => answer::NO_ACTIVATION,
        BatchFate::Unrelayed(Reason::NamesNoDone) => answer::NAMES_NO_DONE,
        BatchFate::Unrelayed(Reason::EarlierActivation) => answer::EARLIER_ACTIVATION,
    }
}

fn batch_of(fate: BatchFate) -> Batch
    ensures { result ≡ batch_of fate }
{
    match fate {
        BatchFate::Relayed { field, count } => Batch {
            field,
            serial: count,
        },
        BatchFate::Unrelayed(_) => Batch {
            field: 0,
            serial: 0,
        },
    }
}

/// What a batch comes to that the method commits next with this serial, asked before `wlim_mcommit`.
/// 1: it is relayed, and the field and its count are written. Else 0 and 0 are, and the answer is the
/// reason: 2, the method doesn't serve the seat; 3, no activation stands; 4, the serial names no done
/// that the method was told; 5, it names one of an earlier activation. -5: no seat is open, and
/// nothing is written. The seat stays as it is.
#[unsafe(no_mangle)]
pub extern "C" fn wlim_batch(
    seat: &mut Wlim,
    alloc: Global,
    method: u32,
    serial: u32,
    batch: &mut Batch,
) -> i64
    ensures { IsBatch seat.old.held.seat seat.new.held.seat method serial batch.old batch.new
        result }
{
    let Some(boxed) = taken(seat, alloc) else {
        return answer::CLOSED;
    };
    let fate = boxed.seat().batch(method, serial);
    put(seat, boxed);
    *batch = batch_of(fate);
    fate_code(fate)
}
