//! A line is cut into its words at each space.
ghost use Rattle.std.specs.Prelude.{◌≡◌, ◌<◌, ◌≤◌, ◌==◌, [], ◌∷◌, length, take, map, min, IfOk};
ghost use Rattle.std.specs.Prelude.{IfSome, IfNone};
ghost use Rattle.std.specs.List.{slice_split};
ghost use Rattle.memchr.specs.Find.{IsFirstByte, NoneBefore, Nowhere, Passes, is_byte};

use memchr::memchr;
use smallvec::SmallVec;
use std::alloc::{AllocError, Global};

/// The most words of a line without a stamp.
pub(crate) const MOST_WORDS: usize = 8;

// Most words are shorter, and a search among few bytes is cheapest byte by byte.
const NEAR: usize = 12;

// The first space among the first bytes, as many as are near.
#[inline(always)]
fn near_space(line: &[u8]) -> Option<usize>
    ensures found { IfSome result (λ at. NoneBefore (Passes (is_byte 32) line.now) 0
        (length line.now) at × Passes (is_byte 32) line.now at) }
    ensures none { IfNone result (Nowhere (Passes (is_byte 32) line.now) 0
        (min 12 (length line.now))) }
{
    let near = NEAR.min(line.len());
    let mut at = 0;
    while at < near {
        if line[at] == b' ' {
            return Some(at);
        }
        at += 1;
    }
    None
}

// The first space.
#[inline(always)]
fn first_space(line: &[u8]) -> Option<usize>
    ensures { IsFirstByte (is_byte 32) line.now result }
{
    if let Some(at) = near_space(line) {
        return Some(at);
    }
    if line.len() <= NEAR {
        return None;
    }
    let (_, rest) = line.split_at(NEAR);
    let far = memchr(b' ', rest)?;
    Some(NEAR + far)
}

/// The first word and what stands behind its space, if there is a space.
#[inline(always)]
pub(crate) fn first_word(line: &[u8]) -> Option<(&[u8], &[u8])>
    ensures cut { IfSome result (λ cut. slice_split (λ b. b == 32) line.now
        ≡ cut.0.now ∷ slice_split (λ b. b == 32) cut.1.now) }
    ensures shorter { IfSome result (λ cut. length cut.1.now < length line.now) }
    ensures last { IfNone result (slice_split (λ b. b == 32) line.now ≡ line.now ∷ []) }
{
    match first_space(line) {
        Some(space) => {
            let (word, rest) = line.split_at(space);
            Some((word, &rest[1..]))
        }
        None => None,
    }
}

/// The words of the line, of which one more than it has spaces, go to the front of the places: so
/// many. None where there are more than eight.
pub(crate) fn cut_words<'a>(line: &'a [u8], words: &mut [&'a [u8]]) -> Option<usize>
    requires places { length words.old ≡ 8 }
    ensures places { length words.new ≡ 8 }
    ensures words { IfSome result (λ n. map (λ w. w.now) (take n words.new)
        ≡ slice_split (λ b. b == 32) line.now) }
    ensures few { IfSome result (λ n. n ≤ 8) }
    ensures many { IfNone result (8 < length (slice_split (λ b. b == 32) line.now)) }
{
    let mut count = 0;
    let mut left = line;
    while let Some((word, rest)) = first_word(left) {
        if count + 1 >= MOST_WORDS {
            return None;
        }
        words[count] = word;
        count += 1;
        left = rest;
    }
    words[count] = left;
    Some(count + 1)
}

/// The words of a line that may have tokens. More than ten take memory.
pub(crate) fn all_words(alloc: Global, line: &[u8]) -> Result<SmallVec<&[u8], 10>, AllocError>
    ensures { IfOk result (λ v. map (λ w. w.now) v.items ≡ slice_split (λ b. b == 32) line.now) }
{
    let mut words = SmallVec::new(alloc);
    let mut left = line;
    while let Some((word, rest)) = first_word(left) {
        words.push(word)?;
        left = rest;
    }
    words.push(left)?;
    Ok(words)
}
