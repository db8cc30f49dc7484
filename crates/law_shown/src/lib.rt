//! What `wlim trial` writes is what the laws of trials speak of, over the definitions alone. The
//! bodies are empty: the laws are the contracts.
#![tactic(auto)]

ghost use Rattle.law_shown.specs.Scripts.{InputsAreScripts};
ghost use Rattle.law_shown.specs.Shown.{TrialsAreAnswered, WrittenTextsAreBatches};

/// Of each input some bytes have the very script that `trial` reads of it: the input itself, or,
/// where it isn't read to its end, the lines that are read of it.
pub fn inputs_are_scripts()
    ensures { InputsAreScripts }
{}

/// So what `trial` writes of an input, and its status, are those of the trial of these bytes.
pub fn trials_are_answered()
    ensures { TrialsAreAnswered }
{}

/// What `trial` writes, whatever the input is: a line for each `show` that the trial comes to, in
/// turn, and a last line, which the status tells. Each but the last has the text of a log of the
/// field that it names, of that field's own edits and of a front of the batches that the one journal
/// relays to it. Unless the journal was full, the method typed by a log of what it was told.
pub fn written_texts_are_batches()
    ensures { WrittenTextsAreBatches }
{}
