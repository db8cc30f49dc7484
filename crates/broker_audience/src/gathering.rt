//! The group of one act for one peer, as it is gathered.
ghost use Rattle.std.specs.Prelude.{◌≡◌, ◌+◌, ◌<◌, ◌≤◌, ◌++◌, length, take, map, vec_len};
ghost use Rattle.std.specs.Prelude.{vec_capacity, IfOk, IfSome};
ghost use Rattle.wl_proto.specs.Rows.{event_message};
ghost use Rattle.wl_proto.specs.Spelling.{message_len, message_bytes};
ghost use Rattle.out_store.specs.Spacing.{IsSpaced};
ghost use Rattle.broker_model.specs.Groups.{pair_of, token_of_pair, later, tokens_in};
ghost use Rattle.broker_wire.specs.Events.{first_token};
ghost use Rattle.broker_audience.specs.Gathered.{empty, with_message};

use std::alloc::Global;
use std::marker::Model;
use wio_core::NoMemory;
use wl_proto::{Event, event_len, write_event};

// The fewest bytes of a message with a token.
const SPACING: usize = 16;

/// A buffer in which the group of one act for one peer is gathered. From the first event on that
/// does not fit, all are left out.
///
/// In contracts it is a `Gathered`: what is gathered, the capacity, and whether something was left
/// out. Only `new` takes memory.
#[derive(Drop)]
pub struct Gathering {
    // As many as the capacity, of which the first `len` are the group's.
    bytes: Vec<u8>,
    len: usize,
    // Where a message with a token begins, and the token.
    tokens: Vec<(usize, u32)>,
    is_over: bool,
}

impl Model for Gathering {
    ghost use Rattle.std.specs.Prelude.{◌*◌, ◌≤◌, take, map, vec_len, vec_capacity};
    ghost use Rattle.broker_model.specs.Groups.{token_of_pair};
    ghost use Rattle.broker_model.specs.Stored.{AreSpaced};
    ghost use Rattle.broker_audience.specs.Gathered.{Gathered};

    ghost Value = { Gathered };

    ghost view = { λ g. record {
      group = record {
        bytes = take g.len g.bytes.items;
        tokens = map token_of_pair g.tokens.items;
      };
      capacity = vec_len g.bytes;
      is_over = g.is_over;
    } };

    // No message with a token is shorter than 16 bytes, so that there is room for each token.
    ghost invariant = { λ g. (g.len ≤ vec_len g.bytes)
        × (16 * vec_len g.tokens ≤ g.len)
        × (vec_len g.bytes ≤ 16 * vec_capacity g.tokens)
        × AreSpaced (record {
          bytes = take g.len g.bytes.items;
          tokens = map token_of_pair g.tokens.items;
        }) };
}

// Writes the event behind the first `len` bytes.
fn write_behind(bytes: &mut [u8], len: usize, id: u32, event: &Event)
    requires short { message_len (event_message event.now) ≤ 4096 }
    requires room { len + message_len (event_message event.now) ≤ length bytes.old }
    ensures { take (len + message_len (event_message event.now)) bytes.new ≡ take len bytes.old ++
        message_bytes id (event_message event.now) }
{
    write_event(id, event, &mut bytes[len..]);
}

// Adds the token of a message that begins at the offset, if it has one.
fn add_token(tokens: &mut Vec<(usize, u32)>, offset: usize, token: Option<u32>)
    requires room { IfSome token (λ _. vec_len tokens.old < vec_capacity tokens.old) }
    ensures added { map token_of_pair tokens.new.items ≡ map token_of_pair tokens.old.items ++ map
        (later offset) (first_token token) }
    ensures number { vec_len tokens.new ≡ vec_len tokens.old + length (first_token token) }
    ensures capacity { vec_capacity tokens.old ≤ vec_capacity tokens.new }
{
    if let Some(token) = token {
        let _ = tokens.push((offset, token));
    }
}

impl Gathering {
    /// Nothing, and room for `capacity` bytes and a token for each 16 of them. `NoMemory` is its one error.
    pub fn new(alloc: Global, capacity: usize) -> Result<Gathering, NoMemory>
        ensures empty { IfOk result (λ gathering. gathering ≡ empty capacity) }
    {
        Ok(Gathering {
            bytes: vec![in alloc; 0; capacity]?,
            len: 0,
            tokens: Vec::with_capacity(alloc, capacity.div_ceil(SPACING))?,
            is_over: false,
        })
    }

    /// Begins anew, with nothing gathered.
    pub fn clear(&mut self)
        ensures empty { self.new ≡ empty self.old.capacity }
    {
        self.len = 0;
        self.tokens.clear();
        self.is_over = false;
    }

    /// Puts the event to the object with the id behind what is gathered, with the token of its
    /// descriptor, if it has one; or leaves it out where it doesn't fit or one before it didn't.
    pub fn put(&mut self, id: u32, event: &Event, token: Option<u32>)
        requires short { message_len (event_message event.now) ≤ 4096 }
        requires token { tokens_in (event_message event.now).values ≡ first_token token }
        ensures put { self.new ≡ with_message id (event_message event.now) self.old }
    {
        self.put_measured(id, event, event_len(event), token);
    }

    // As `put`, of an event of which it is known that it has `len` bytes.
    pub(crate) fn put_measured(&mut self, id: u32, event: &Event, len: usize, token: Option<u32>)
        requires short { message_len (event_message event.now) ≤ 4096 }
        requires len { len ≡ message_len (event_message event.now) }
        requires token { tokens_in (event_message event.now).values ≡ first_token token }
        ensures put { self.new ≡ with_message id (event_message event.now) self.old }
    {
        if self.is_over || len > self.bytes.len() - self.len {
            self.is_over = true;
            return;
        }
        write_behind(&mut self.bytes, self.len, id, event);
        add_token(&mut self.tokens, self.len, token);
        self.len += len;
    }

    /// The group's bytes.
    pub fn bytes(&self) -> &[u8]
        ensures bytes { result.now ≡ self.now.group.bytes }
    {
        &self.bytes[..self.len]
    }

    /// The group's tokens by rising offset, each with that of its message's first byte.
    pub fn tokens(&self) -> &[(usize, u32)]
        ensures tokens { result.now ≡ map pair_of self.now.group.tokens }
        ensures spaced { IsSpaced 0 result.now (length self.now.group.bytes) }
    {
        &self.tokens
    }

    /// Whether an event was left out.
    pub fn is_over(&self) -> bool
        ensures over { result ≡ self.now.is_over }
    {
        self.is_over
    }
}
