//! Bytes that wait to be sent.
ghost use Rattle.std.specs.Prelude.{◌≡◌, ◌+◌, ◌≤◌, ◌<◌, ◌++◌, [], length, take, IfOk, OnOk};
ghost use Rattle.wl_proto.specs.Rows.{request_message};
ghost use Rattle.wl_proto.specs.Spelling.{message_len, message_bytes};

use std::alloc::Global;
use std::marker::Model;
use wio_core::NoMemory;
use wl_proto::{Request, request_len, write_request};

// Messages that wait to be sent, and the room for more. It takes memory where it is asked for room,
// and nowhere else.
#[derive(Debug, Drop)]
pub(crate) struct Outbox {
    bytes: Vec<u8>,
}

impl Model for Outbox {
    ghost use Rattle.std.specs.Prelude.{◌-◌, ◌≤◌, vec_len, vec_capacity};
    ghost use Rattle.client_side.specs.Outgoing.{Outgoing};

    ghost Value = { Outgoing };

    ghost view = { λ o. record {
      bytes = o.bytes.items;
      room = vec_capacity o.bytes - vec_len o.bytes;
    } };

    ghost invariant = { λ o. vec_len o.bytes ≤ vec_capacity o.bytes };
}

// Writes the request behind the first `len` bytes.
fn write_behind(bytes: &mut [u8], len: usize, object: u32, request: &Request<'_>)
    requires short { message_len (request_message request.now) ≤ 4096 }
    requires room { len + message_len (request_message request.now) ≤ length bytes.old }
    ensures { take (len + message_len (request_message request.now)) bytes.new
        ≡ take len bytes.old ++ message_bytes object (request_message request.now) }
{
    write_request(object, request, &mut bytes[len..]);
}

impl Outbox {
    // Nothing to send. Takes no memory.
    pub(crate) fn new(alloc: Global) -> Outbox
        ensures { result.bytes ≡ [] }
    {
        Outbox {
            bytes: Vec::new(alloc),
        }
    }

    // Makes room for so many bytes.
    pub(crate) fn reserve(&mut self, room: usize) -> Result<(), NoMemory>
        ensures ok { OnOk result (room ≤ self.new.room) }
        ensures bytes { self.new.bytes ≡ self.old.bytes }
    {
        self.bytes.reserve(room)?;
        Ok(())
    }

    // Puts a request to the object behind what waits.
    pub(crate) fn put(&mut self, object: u32, request: &Request<'_>)
        requires short { message_len (request_message request.now) ≤ 4096 }
        requires room { message_len (request_message request.now) ≤ self.old.room }
        ensures bytes { self.new.bytes ≡ self.old.bytes
            ++ message_bytes object (request_message request.now) }
        ensures room { self.old.room ≤ self.new.room + message_len (request_message request.now) }
    {
        let len = self.bytes.len();
        let size = request_len(request);
        let _ = self.bytes.resize(len + size, 0);
        write_behind(&mut self.bytes, len, object, request);
    }

    // What waits.
    pub(crate) fn as_slice(&self) -> &[u8]
        ensures { result.now ≡ self.now.bytes }
    {
        &self.bytes
    }

    // Nothing waits any more.
    pub(crate) fn clear(&mut self)
        ensures { self.new.bytes ≡ [] }
    {
        self.bytes.clear();
    }
}
