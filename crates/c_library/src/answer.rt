//! What C is answered in place of a number of an act.

/// An event was handed out.
pub const GIVEN: i64 = 1;

/// The act does nothing, or no event waits.
pub const NOTHING: i64 = 0;

/// There is no memory.
pub const NO_MEMORY: i64 = -1;

/// The seat took 4,294,967,295 acts. Of a broker: its journal is full.
pub const FULL: i64 = -2;

/// The text has more bytes than a message can carry.
pub const LONG: i64 = -3;

/// The bytes are no UTF-8, or one of them is zero.
pub const NO_TEXT: i64 = -4;

/// No seat, or no broker, is open.
pub const CLOSED: i64 = -5;

/// There is no room for the event's text and a zero behind it. Of what is taken: none for a byte, or for 256 tokens.
pub const SHORT: i64 = -6;

/// It makes one too many: so many peers are alive as may be, or the peer has so many objects.
pub const MANY: i64 = -7;

/// Of a batch: it is relayed.
pub const RELAYED: i64 = 1;

/// Of a batch: the method doesn't serve the seat.
pub const NOT_SERVING: i64 = 2;

/// Of a batch: no field holds the seat, so no activation stands.
pub const NO_ACTIVATION: i64 = 3;

/// Of a batch: the serial names no done that the method was told.
pub const NAMES_NO_DONE: i64 = 4;

/// Of a batch: the serial names a done of an earlier activation.
pub const EARLIER_ACTIVATION: i64 = 5;

/// A number is out of its range, and nothing was done.
pub const RANGE: i64 = -8;

/// No peer has the number.
pub const NOBODY: i64 = -9;

/// The peer has ended.
pub const ENDED: i64 = -10;

/// Of a key: it went to the grab that stands.
pub const TO_GRAB: i64 = 2;

/// Of a key: no grab has it, so it is for the focused surface.
pub const PASSED: i64 = 3;

/// Of a key: the grab that had its press doesn't stand any more.
pub const NOWHERE: i64 = 4;

/// Of a key: 64 others are down, and the press is refused.
pub const TOO_MANY: i64 = 5;

/// Of what the shell is told: nothing waits, and some before is lost.
pub const MISSED: i64 = 6;

/// Of a peer: it is alive.
pub const ALIVE: i64 = 1;

/// Of a peer: its link ended.
pub const GONE: i64 = 2;

/// Of a peer: its last message was refused.
pub const BAD: i64 = 3;

/// Of a peer: a group of events didn't fit its store.
pub const OVER: i64 = 4;
