//! What is read of a drawn script.
ghost use Rattle.trial_gen.specs.Laws.{ReadsAsDrawn};

/// A law without work: the script of each number is read to its end, as what was drawn.
pub fn reads_as_drawn()
    ensures law { ReadsAsDrawn }
{}
