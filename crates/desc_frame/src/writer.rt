//! Frames into a sink.
ghost use Rattle.std.specs.Prelude.{◌≡◌, ℕ, ◌+◌, ◌*◌, ◌<◌, ◌≤◌, ◌++◌, length, take, OnOk, OnErr};
ghost use Rattle.std.specs.Io.KnownBytes.{Appends};
ghost use Rattle.wio_core.specs.Io.{Rose, StaysQuiet};
ghost use Rattle.desc_frame.specs.Frames.{WithinLimits, frame, header, spelled_tokens, spelling};

use crate::MAX_TOKENS;
use byteorder::{ByteOrder, LittleEndian};
use wio_core::{Failed, Sink, write_all};

// The most bytes that stand before a frame's own: the header and the tokens.
const MAX_HEAD: usize = 4 + 4 * MAX_TOKENS;

// Up to so many bytes are put into one buffer with what stands before them, so that the frame goes
// out in one write.
const FEW_BYTES: usize = 1024;

/// Writes frames.
pub struct FrameWriter;

impl FrameWriter {
    /// Writes a frame of these bytes and tokens. After `Failed` the sink has gained a proper prefix of it. (no memory)
    pub fn put<K: Sink>(sink: &mut K, bytes: &[u8], tokens: &[u32]) -> Result<(), Failed>
        requires { WithinLimits (length bytes.now) (length tokens.now) }
        ensures whole { OnOk result (Appends (K.held sink.old) (K.held sink.new)
            (spelling (frame bytes.now tokens.now))) }
        ensures prefix { OnErr result ((n : ℕ) ×
            (n < length (spelling (frame bytes.now tokens.now))) ×
            Appends (K.held sink.old) (K.held sink.new)
            (take n (spelling (frame bytes.now tokens.now)))) }
        ensures quiet { StaysQuiet (K.held sink.old) (K.held sink.new) }
        ensures never_falls { K.fault_count sink.old ≤ K.fault_count sink.new }
        ensures cause { OnErr result (Rose (K.fault_count sink.old) (K.fault_count sink.new)) }
        ensures no_fault { OnOk result (K.fault_count sink.new ≡ K.fault_count sink.old) }
    {
        if bytes.len() <= FEW_BYTES {
            put_few(sink, bytes, tokens)
        } else {
            put_many(sink, bytes, tokens)
        }
    }
}

/// Writes a frame of few bytes, all from one buffer.
fn put_few<K: Sink>(sink: &mut K, bytes: &[u8], tokens: &[u32]) -> Result<(), Failed>
    requires limits { WithinLimits (length bytes.now) (length tokens.now) }
    requires few { length bytes.now ≤ 1024 }
    ensures whole { OnOk result
        (Appends (K.held sink.old) (K.held sink.new) (spelling (frame bytes.now tokens.now))) }
    ensures prefix { OnErr result ((n : ℕ) × (n < length (spelling (frame bytes.now tokens.now)))
        × Appends (K.held sink.old) (K.held sink.new)
        (take n (spelling (frame bytes.now tokens.now)))) }
    ensures quiet { StaysQuiet (K.held sink.old) (K.held sink.new) }
    ensures never_falls { K.fault_count sink.old ≤ K.fault_count sink.new }
    ensures cause { OnErr result (Rose (K.fault_count sink.old) (K.fault_count sink.new)) }
    ensures no_fault { OnOk result (K.fault_count sink.new ≡ K.fault_count sink.old) }
{
    let mut all = [0; MAX_HEAD + FEW_BYTES];
    let size = spell(&mut all, bytes, tokens);
    write_all(sink, &all[..size])
}

/// Writes a frame of many bytes: what stands before them, and then these from where they are.
fn put_many<K: Sink>(sink: &mut K, bytes: &[u8], tokens: &[u32]) -> Result<(), Failed>
    requires { WithinLimits (length bytes.now) (length tokens.now) }
    ensures whole { OnOk result
        (Appends (K.held sink.old) (K.held sink.new) (spelling (frame bytes.now tokens.now))) }
    ensures prefix { OnErr result ((n : ℕ) × (n < length (spelling (frame bytes.now tokens.now)))
        × Appends (K.held sink.old) (K.held sink.new)
        (take n (spelling (frame bytes.now tokens.now)))) }
    ensures quiet { StaysQuiet (K.held sink.old) (K.held sink.new) }
    ensures never_falls { K.fault_count sink.old ≤ K.fault_count sink.new }
    ensures cause { OnErr result (Rose (K.fault_count sink.old) (K.fault_count sink.new)) }
    ensures no_fault { OnOk result (K.fault_count sink.new ≡ K.fault_count sink.old) }
{
    let mut head = [0; MAX_HEAD];
    let size = spell_head(&mut head, bytes.len(), tokens);
    write_all(sink, &head[..size])?;
    write_all(sink, bytes)
}

/// Spells a frame into the front of `all`, and says how many bytes that is.
fn spell(all: &mut [u8; 2052], bytes: &[u8], tokens: &[u32]) -> usize
    requires limits { WithinLimits (length bytes.now) (length tokens.now) }
    requires few { length bytes.now ≤ 1024 }
    ensures size { result ≤ 2052 }
    ensures spelled { take result all.new ≡ spelling (frame bytes.now tokens.now) }
{
    let head = spell_head(all, bytes.len(), tokens);
    let size = head + bytes.len();
    all[head..size].copy_from_slice(bytes);
    size
}

/// Spells a frame up to its bytes into the front of `head`, and says how many bytes that is.
fn spell_head(head: &mut [u8], n: usize, tokens: &[u32]) -> usize
    requires limits { WithinLimits n (length tokens.now) }
    requires room { 1028 ≤ length head.old }
    ensures size { result ≡ 4 + 4 * length tokens.now }
    ensures spelled { take result head.new ≡
        header n (length tokens.now) ++ spelled_tokens tokens.now }
{
    let size = 4 + 4 * tokens.len();
    LittleEndian::write_u16(&mut head[..2], n as u16);
    LittleEndian::write_u16(&mut head[2..4], tokens.len() as u16);
    LittleEndian::write_u32_into(tokens, &mut head[4..size]);
    size
}
