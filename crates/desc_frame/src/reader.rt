//! Frames from a source.
ghost use Rattle.std.specs.Prelude.{◌≡◌, ◌≢◌, ℕ, ◌≤◌, ◌⊎◌, List, Some, None, IfSome, OnSome};
ghost use Rattle.wio_core.specs.Io.{Rose, StaysQuiet};
ghost use Rattle.desc_frame.specs.Answers.{Gave, Tells, Begins, HasOneAnswer, HasOneFrame, settled};

use crate::Got;
use crate::parts::read_frame;
use std::marker::Model;
use wio_core::Source;

/// Reads frames, one in a call. Contracts see what it answers from now on, if that is settled.
#[derive(Drop)]
pub struct FrameReader {
    last: Option<Got>,
}

impl Model for FrameReader {
    ghost use Rattle.std.specs.Prelude.{Option};
    ghost use Rattle.desc_frame.specs.declared.Got.{Got};

    ghost Value = { Option Got };

    ghost view = { λ r. r.last };
}

impl FrameReader {
    /// A reader at the beginning of a frame.
    pub fn new() -> FrameReader
        ensures { result ≡ None }
    {
        FrameReader { last: None }
    }

    /// Reads the next frame into the front of the buffers, and no byte behind it. After `End`,
    /// `Torn` or `BadFrame` it answers the same again and reads nothing; after `ReadFault` it may
    /// not be called. The buffers behind what `Bytes` counts, and after another answer all of them,
    /// hold anything. (no memory)
    pub fn next<S: Source>(
        &mut self,
        source: &mut S,
        bytes: &mut [u8; 4096],
        tokens: &mut [u32; 256],
    ) -> Got
        requires { self.old ≢ Some Got.ReadFault }
        ensures took { self.old ≡ None → (taken : List ℕ) ×
            Gave (S.given source.old) (S.given source.new) (S.left source.old) (S.left source.new)
            taken × Tells result taken (S.left source.new) bytes.new tokens.new }
        ensures told { self.old ≡ None → IfSome (S.left source.old)
            (λ all. (result ≡ Got.ReadFault) ⊎ Begins result all) }
        ensures settles { self.old ≡ None → self.new ≡ settled result }

        ensures again { IfSome self.old (λ got. result ≡ got) }
        ensures stays { OnSome self.old (self.new ≡ self.old) }
        ensures reads_nothing { OnSome self.old (source.new ≡ source.old) }

        ensures given_quiet { StaysQuiet (S.given source.old) (S.given source.new) }
        ensures left_quiet { StaysQuiet (S.left source.old) (S.left source.new) }
        ensures never_falls { S.fault_count source.old ≤ S.fault_count source.new }
        ensures cause { result ≡ Got.ReadFault →
            Rose (S.fault_count source.old) (S.fault_count source.new) }
        ensures no_fault { result ≢ Got.ReadFault →
            S.fault_count source.new ≡ S.fault_count source.old }
    {
        if let Some(got) = self.last {
            return got;
        }
        let got = match read_frame(source, bytes, tokens) {
            Ok((n, t)) => Got::Bytes(n, t),
            Err(got) => got,
        };
        self.last = got.settled();
        got
    }
}

/// What stands at the front of bytes is one answer alone, and a frame's spelling is no other
/// frame's, whatever follows it.
pub fn bytes_have_one_answer()
    ensures answer { HasOneAnswer }
    ensures frame { HasOneFrame }
{}
