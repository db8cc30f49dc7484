//! What a command does with the lines of its input, one at a time.
ghost use Rattle.std.specs.Prelude.{◌≡◌, ◌<◌, ◌^◌, ℕ, Bool, List, [], length, IfOk, OnOk};
ghost use Rattle.program_run.specs.Endings.{Answer};
ghost use Rattle.program_run.specs.Scripts.{Played, NamesNext};

use crate::last_line::LastLine;
use wio_core::NoMemory;

/// Plays lines, and gathers their output in one buffer, which its caller writes and clears.
pub trait Script {
    /// The answer for lines, whether or not the input was cut off behind them.
    ghost answer: { Bool → List (List ℕ) → Answer };

    /// These lines were played, and came to this output.
    ghost stands: { Self → List (List ℕ) → List ℕ → Type 0 };

    /// So much output was gathered since the buffer was cleared.
    ghost holds: { Self → List ℕ → Type 0 };

    /// The bytes in the buffer.
    ghost text: { Self → List ℕ };

    /// Plays the next line, which comes without its line feed. Tells how the output ends if the
    /// line decides it.
    fn line(&mut self, raw: &[u8]) -> Result<Option<LastLine>, NoMemory>
        ensures { (done : List (List ℕ)) (output gathered : List ℕ) → length done < 2 ^ 33
            → stands self.old done output → holds self.old gathered
            → IfOk result (Played answer (stands self.new) (holds self.new)
            done raw.now output gathered) };

    /// How the output ends where the next line is outside the grammar, or isn't there.
    fn bad_line(&self) -> LastLine
        ensures { (done : List (List ℕ)) (output : List ℕ) → length done < 2 ^ 33
            → stands self.now done output → NamesNext answer done output result };

    /// Puts all that was gathered into the buffer.
    fn close(&mut self) -> Result<(), NoMemory>
        ensures stays { (done : List (List ℕ)) (output : List ℕ)
            → stands self.old done output → OnOk result (stands self.new done output) }
        ensures all { (gathered : List ℕ) → holds self.old gathered
            → OnOk result (text self.new ≡ gathered) };

    /// The bytes in the buffer.
    fn text(&self) -> &[u8]
        ensures { result.now ≡ text self.now };

    /// Empties the buffer, whose memory it keeps.
    fn clear(&mut self)
        ensures stays { (done : List (List ℕ)) (output : List ℕ)
            → stands self.old done output → stands self.new done output }
        ensures none { holds self.new [] };
}
