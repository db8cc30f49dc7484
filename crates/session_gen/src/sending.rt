//! Requests as the steps that send them.
ghost use Rattle.std.specs.Prelude.{◌≡◌, ◌<◌, ◌≤◌, ◌^◌, IfOk};
ghost use Rattle.wl_proto.specs.Rows.{request_message};
ghost use Rattle.wl_proto.specs.Spelling.{message_len};
ghost use Rattle.broker_steps.specs.Ranges.{IsStep};
ghost use Rattle.session_gen.specs.Sending.{IsShort, sends};

use broker_steps::{PeerStep, Step};
use std::alloc::Global;
use wio_core::NoMemory;
use wl_proto::{Bytes, Request, write_request};

/// The most bytes of a message that a generated session sends, its header included.
const LONGEST: usize = 64;

// The peer sends the request to its object with this id.
pub(crate) fn request_step(
    alloc: Global,
    peer: u32,
    object: u32,
    request: &Request<'_>,
) -> Result<Step, NoMemory>
    requires { IsShort (request_message request.now) }
    ensures value { IfOk result (λ step. step ≡ sends peer object (request_message request.now)) }
    ensures valid { IfOk result IsStep }
{
    let mut message = [0; LONGEST];
    let size = write_request(object, request, &mut message);
    let opcode = u16::from_le_bytes([message[4], message[5]]);
    let body = Vec::from_slice(alloc, &message[8..size])?;
    Ok(Step::Peer(
        peer,
        PeerStep::Message {
            id: object,
            opcode,
            body: Bytes::new(body),
        },
    ))
}
