//! The parts of a frame, each read whole.
ghost use Rattle.std.specs.Prelude.{◌≡◌, ◌≢◌, ℕ, ◌+◌, ◌*◌, ◌^◌, ◌<◌, ◌≤◌, ◌++◌, List, [], length, take};
ghost use Rattle.std.specs.Prelude.{IfOk, IfErr, OnOk, OnErr, IsTrue, ◌↔◌};
ghost use Rattle.wio_core.specs.Io.{Rose, StaysQuiet};
ghost use Rattle.desc_frame.specs.Frames.{WithinLimits, header, spelled_tokens};
ghost use Rattle.desc_frame.specs.Answers.{Gave, Stops, IsFrameOf};
ghost use Rattle.desc_frame.specs.Fills.{AreBytes, AreTokens, EndsWithin};

use crate::{Got, MAX_BYTES, MAX_TOKENS};
use byteorder::{ByteOrder, LittleEndian};
use wio_core::{Failed, Source};

/// Reads once into a part that begins `before` bytes into its frame.
fn read_some<S: Source>(source: &mut S, part: &mut [u8], before: usize) -> Result<usize, Got>
    requires { 0 < length part.old }
    ensures within { IfOk result (λ n. (0 < n) × (n ≤ length part.new)) }
    ensures moved { IfOk result (λ n.
        Gave (S.given source.old) (S.given source.new) (S.left source.old) (S.left source.new)
        (take n part.new)) }
    ensures stays { OnErr result (Gave (S.given source.old) (S.given source.new) (S.left source.old)
        (S.left source.new) []) }
    ensures ended { IfErr result (λ got. EndsWithin got before [] (S.left source.new)) }
    ensures given_quiet { StaysQuiet (S.given source.old) (S.given source.new) }
    ensures left_quiet { StaysQuiet (S.left source.old) (S.left source.new) }
    ensures never_falls { S.fault_count source.old ≤ S.fault_count source.new }
    ensures cause { result ≡ Err Got.ReadFault →
        Rose (S.fault_count source.old) (S.fault_count source.new) }
    ensures no_fault { result ≢ Err Got.ReadFault →
        S.fault_count source.new ≡ S.fault_count source.old }
{
    match source.read(part) {
        Ok(0) if before == 0 => Err(Got::End),
        Ok(0) => Err(Got::Torn(before)),
        Ok(n) => Ok(n),
        Err(Failed) => Err(Got::ReadFault),
    }
}

/// Fills a part that begins `before` bytes into its frame.
fn fill<S: Source>(source: &mut S, part: &mut [u8], before: usize) -> Result<(), Got>
    requires { before + length part.old < 2 ^ 64 }
    ensures whole { OnOk result (Gave (S.given source.old) (S.given source.new) (S.left source.old)
        (S.left source.new) part.new) }
    ensures bytes { AreBytes part.new }
    ensures ended { IfErr result (λ got. (taken : List ℕ) × (length taken < length part.old) ×
        Gave (S.given source.old) (S.given source.new) (S.left source.old) (S.left source.new)
        taken × EndsWithin got before taken (S.left source.new)) }
    ensures given_quiet { StaysQuiet (S.given source.old) (S.given source.new) }
    ensures left_quiet { StaysQuiet (S.left source.old) (S.left source.new) }
    ensures never_falls { S.fault_count source.old ≤ S.fault_count source.new }
    ensures cause { result ≡ Err Got.ReadFault →
        Rose (S.fault_count source.old) (S.fault_count source.new) }
    ensures no_fault { result ≢ Err Got.ReadFault →
        S.fault_count source.new ≡ S.fault_count source.old }
{
    let mut at = 0;
    while at < part.len() {
        at += read_some(source, &mut part[at..], before + at)?;
    }
    Ok(())
}

/// Whether a header may announce these numbers of bytes and of tokens.
fn is_within_limits(n: u16, t: u16) -> bool
    ensures { IsTrue result ↔ WithinLimits n t }
{
    n > 0 && n as usize <= MAX_BYTES && t as usize <= MAX_TOKENS
}

/// Reads a header, and says how many bytes and tokens it announces.
fn read_header<S: Source>(source: &mut S) -> Result<(usize, usize), Got>
    ensures sizes { IfOk result (λ sizes. WithinLimits sizes.0 sizes.1) }
    ensures whole { IfOk result (λ sizes.
        Gave (S.given source.old) (S.given source.new) (S.left source.old) (S.left source.new)
        (header sizes.0 sizes.1)) }
    ensures ended { IfErr result (λ got. (taken : List ℕ) ×
        Gave (S.given source.old) (S.given source.new) (S.left source.old) (S.left source.new)
        taken × Stops got taken (S.left source.new)) }
    ensures given_quiet { StaysQuiet (S.given source.old) (S.given source.new) }
    ensures left_quiet { StaysQuiet (S.left source.old) (S.left source.new) }
    ensures never_falls { S.fault_count source.old ≤ S.fault_count source.new }
    ensures cause { result ≡ Err Got.ReadFault →
        Rose (S.fault_count source.old) (S.fault_count source.new) }
    ensures no_fault { result ≢ Err Got.ReadFault →
        S.fault_count source.new ≡ S.fault_count source.old }
{
    let mut bytes = [0; 4];
    fill(source, &mut bytes, 0)?;
    let n = LittleEndian::read_u16(&bytes);
    let t = LittleEndian::read_u16(&bytes[2..]);
    if is_within_limits(n, t) {
        Ok((n as usize, t as usize))
    } else {
        Err(Got::BadFrame(n, t))
    }
}

/// Reads the tokens that follow a header.
fn read_tokens<S: Source>(source: &mut S, tokens: &mut [u32]) -> Result<(), Got>
    requires { length tokens.old ≤ 256 }
    ensures whole { OnOk result (Gave (S.given source.old) (S.given source.new) (S.left source.old)
        (S.left source.new) (spelled_tokens tokens.new)) }
    ensures tokens { AreTokens tokens.new }
    ensures ended { IfErr result (λ got. (taken : List ℕ) × (length taken < 4 * length tokens.old) ×
        Gave (S.given source.old) (S.given source.new) (S.left source.old) (S.left source.new)
        taken × EndsWithin got 4 taken (S.left source.new)) }
    ensures given_quiet { StaysQuiet (S.given source.old) (S.given source.new) }
    ensures left_quiet { StaysQuiet (S.left source.old) (S.left source.new) }
    ensures never_falls { S.fault_count source.old ≤ S.fault_count source.new }
    ensures cause { result ≡ Err Got.ReadFault →
        Rose (S.fault_count source.old) (S.fault_count source.new) }
    ensures no_fault { result ≢ Err Got.ReadFault →
        S.fault_count source.new ≡ S.fault_count source.old }
{
    let mut bytes = [0; 4 * MAX_TOKENS];
    let part = &mut bytes[..4 * tokens.len()];
    fill(source, part, 4)?;
    LittleEndian::read_u32_into(part, tokens);
    Ok(())
}

/// Reads a frame into the front of the buffers, and says how many bytes and tokens it has.
pub fn read_frame<S: Source>(
    source: &mut S,
    bytes: &mut [u8; 4096],
    tokens: &mut [u32; 256],
) -> Result<(usize, usize), Got>
    ensures whole { IfOk result (λ sizes. (taken : List ℕ) ×
        Gave (S.given source.old) (S.given source.new) (S.left source.old) (S.left source.new)
        taken × IsFrameOf sizes.0 sizes.1 bytes.new tokens.new taken) }
    ensures ended { IfErr result (λ got. (taken : List ℕ) ×
        Gave (S.given source.old) (S.given source.new) (S.left source.old) (S.left source.new)
        taken × Stops got taken (S.left source.new)) }
    ensures given_quiet { StaysQuiet (S.given source.old) (S.given source.new) }
    ensures left_quiet { StaysQuiet (S.left source.old) (S.left source.new) }
    ensures never_falls { S.fault_count source.old ≤ S.fault_count source.new }
    ensures cause { result ≡ Err Got.ReadFault →
        Rose (S.fault_count source.old) (S.fault_count source.new) }
    ensures no_fault { result ≢ Err Got.ReadFault →
        S.fault_count source.new ≡ S.fault_count source.old }
{
    let (n, t) = read_header(source)?;
    read_tokens(source, &mut tokens[..t])?;
    fill(source, &mut bytes[..n], 4 + 4 * t)?;
    Ok((n, t))
}
