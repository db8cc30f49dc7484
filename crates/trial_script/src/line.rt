//! One line of a script.
ghost use Rattle.std.specs.Prelude.{◌≡◌, ◌==◌, map, IfOk};
ghost use Rattle.std.specs.List.{slice_split};
ghost use Rattle.session_text.specs.Reading.{Reads};
ghost use Rattle.trial_script.specs.Grammar.{IsLine};
ghost use Rattle.trial_script.specs.Laws.{ReadsOnlySpellings, ReadsEachSpelling};
ghost use Rattle.trial_script.specs.Reading.{line_of};

use crate::action::Action;
use crate::keys::KeyList;
use crate::line_words::read_words;
use compose_method::Text;
use session_text::{BadLine, LINE_LIMIT};
use std::alloc::{AllocError, Global};

/// What a line of a script says.
#[derive(Debug, Drop)]
pub enum Line {
    /// The header, which comes first: `trial 1`.
    Header,
    /// A key's own text: 1 to 64 bytes.
    Single(u32, Text),
    /// What 2 to 8 keys pressed one after the other give: 1 to 64 bytes.
    Compose(Text, KeyList),
    /// A word of the dictionary, of 1 to 64 bytes, and the 1 to 16 keys that spell it.
    Word(Text, KeyList),
    /// A key that chooses the candidate with the number, from 1 to 9.
    Choose(u32, u32),
    /// A key that takes the last key of the code back.
    Erase(u32),
    /// How many fields there are: 1 to 16.
    Fields(u32),
    /// What is done.
    Act(Action),
    /// The script ends here.
    End,
}

fn words_of(alloc: Global, line: &[u8]) -> Result<Vec<&[u8]>, AllocError>
    ensures { IfOk result (λ v. map (λ w. w.now) v.items ≡ slice_split (λ b. b == 32) line.now) }
{
    line.split(|b| *b == b' ').collect(alloc)
}

/// Reads a line without its line feed. `Grammar` comes exactly where a script has no such line.
/// Words are separated by one space, and are numbers and texts as in a session. A field's number is
/// from 1 to 16. A key's text has 1 to 64 bytes, a batch's string at most 4,083 and its preedit at
/// most 4,075, an inserted text as many as the line has room for.
#[tactic(auto, unfolding(crate::specs::Reading::line_of))]
pub fn read_line(alloc: Global, line: &[u8]) -> Result<Line, BadLine>
    ensures exact { Reads result (line_of line.now) }
    ensures valid { IfOk result IsLine }
{
    if line.len() > LINE_LIMIT {
        return Err(BadLine::Grammar);
    }
    let words = words_of(alloc, line)?;
    read_words(alloc, &words)
}

/// A law without work: bytes that read as a line are its one spelling, and each line's spelling
/// reads as that line.
pub fn one_spelling()
    ensures only { ReadsOnlySpellings }
    ensures each { ReadsEachSpelling }
{}
