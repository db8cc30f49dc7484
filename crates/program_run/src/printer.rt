//! A post that prints what it is told, a line each.
ghost use Rattle.std.specs.Prelude.{◌≡◌, ◌++◌, OnOk, string_bytes};
ghost use Rattle.program_run.specs.Transcript.{told_text};

use lines_transcript::write_told;
use relay_core::Post;
use relay_model::Told;
use std::alloc::Global;
use wio_core::NoMemory;

#[derive(Drop)]
pub struct Printer {
    pub alloc: Global,
    pub text: String,
    /// Where each line is written before it goes behind the text.
    pub line: String,
    /// The number of the act that tells.
    pub number: u32,
    /// It found no memory, and drops what it is told from then on.
    pub failed: bool,
}

impl Post for Printer {
    ghost use Rattle.program_run.specs.Printing.{Prints};

    ghost may_follow = { Prints };

    fn tell(&mut self, told: &Told) {
        if self.failed {
            return;
        }
        let (text, line) = (&mut self.text, &mut self.line);
        if print(self.alloc, text, line, self.number, told).is_err() {
            self.failed = true;
        }
    }
}

#[tactic(auto, using(std::proofs::lemmas::List::append_assoc))]
fn print(
    alloc: Global,
    text: &mut String,
    line: &mut String,
    number: u32,
    told: &Told,
) -> Result<(), NoMemory>
    ensures { OnOk result (string_bytes text.new ≡ string_bytes text.old ++ told_text number
        told.now) }
{
    write_told(alloc, number, told, line)?;
    text.push_str(line.as_str())?;
    text.push_str("\n")?;
    Ok(())
}
