//! Lines worked out by hand.
ghost use Rattle.lines_transcript.specs.Worked.{WorkedSteps, WorkedEvents};

/// A law without work: what the definitions print of worked steps and of each event is what was
/// worked out by hand.
pub fn worked_printed_lines()
    ensures steps { WorkedSteps }
    ensures events { WorkedEvents }
{}
