//! What was sent is compared with what is told, message by message.
ghost use Rattle.std.specs.Prelude.{◌≡◌, ◌≤◌, ◌++◌, [], true, List, length, IfSome, IfNone};
ghost use Rattle.std.specs.List.{AllByRecursion};
ghost use Rattle.audit_fields.specs.Heard.{Heard, heard, heard_by, is_field_opcode, IsWell, IsLike};
ghost use Rattle.audit_fields.specs.FromField.{before_field};
ghost use Rattle.audit_fields.specs.Passing.{Tells, IsCompared};
ghost use Rattle.wl_wire.specs.Messages.{messages};

use crate::field_event::{is_field_opcode, is_same, read_field};
use wl_wire::{Front, Raw, front_of};

/// The opcode of a done.
const DONE: u16 = 5;

/// How many bytes were compared of what was sent and of what is told, and how many dones they have.
#[derive(Clone, Copy)]
pub(crate) struct Compared {
    pub sent: usize,
    pub told: usize,
    pub dones: u64,
}

/// How many bytes stand before the first whole field message of what is told.
pub(crate) fn before_field(told: &[u8]) -> usize
    ensures is { result ≡ before_field (messages told.now) }
    ensures within { result ≤ length told.now }
{
    let mut at = 0;
    'messages: loop {
        let (_, rest) = told.split_at(at);
        match front_of(rest) {
            Front::Whole(raw, size) => {
                if is_field_opcode(raw.opcode) {
                    return at;
                }
                at += size;
            }
            _ => return at,
        }
    }
}

// The first whole field message of what is told, and how many bytes go with it and those before.
fn next_field(told: &[u8]) -> Option<(Raw<'_>, usize)>
    ensures found { IfSome result (λ next.
        Tells told.now next.1 (heard_by next.0.id next.0.opcode next.0.body.now)) }
    ensures field { IfSome result (λ next. is_field_opcode next.0.opcode ≡ true) }
    ensures none { IfNone result (heard told.now ≡ []) }
{
    let at = before_field(told);
    let (_, rest) = told.split_at(at);
    match front_of(rest) {
        Front::Whole(raw, size) => Some((raw, at + size)),
        _ => None,
    }
}

// How many bytes of what is told go with a message that was sent: none with one that is no field
// message. `None` where what is told says something else next, or nothing more.
fn told_with(raw: &Raw<'_>, told: &[u8]) -> Option<usize>
    ensures some { IfSome result (λ at.
        Tells told.now at (heard_by raw.now.id raw.now.opcode raw.now.body.now)) }
    ensures well { IfSome result (λ _.
        AllByRecursion IsWell (heard_by raw.now.id raw.now.opcode raw.now.body.now)) }
    ensures none { IfNone result ((rest : List Heard) →
        AllByRecursion IsWell (heard_by raw.now.id raw.now.opcode raw.now.body.now) →
        heard told.now ≡ heard_by raw.now.id raw.now.opcode raw.now.body.now ++ rest → ⊥) }
{
    if !is_field_opcode(raw.opcode) {
        return Some(0);
    }
    let Some(event) = read_field(raw.opcode, raw.body) else {
        return None;
    };
    let Some((next, used)) = next_field(told) else {
        return None;
    };
    let Some(expected) = read_field(next.opcode, next.body) else {
        return None;
    };
    if next.id == raw.id && is_same(&event, &expected) {
        Some(used)
    } else {
        None
    }
}

/// Compares the whole messages of what was sent with what is told; `None` where they are unlike.
pub(crate) fn compare(told: &[u8], sent: &[u8]) -> Option<Compared>
    ensures like { IfSome result (IsCompared told.now sent.now) }
    ensures unlike { IfNone result (IsLike told.now sent.now → ⊥) }
{
    let mut at = 0;
    let mut gone = 0;
    let mut dones: u64 = 0;
    'messages: loop {
        let (_, rest) = sent.split_at(at);
        match front_of(rest) {
            Front::Part => return Some(Compared {
                sent: at,
                told: gone,
                dones,
            }),
            Front::BadSize => return None,
            Front::Whole(raw, size) => {
                let (_, left) = told.split_at(gone);
                let Some(used) = told_with(&raw, left) else {
                    return None;
                };
                gone += used;
                if raw.opcode == DONE {
                    dones += 1;
                }
                at += size;
            }
        }
    }
}
