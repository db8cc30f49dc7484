//! Laws of generated sessions, over the definitions alone.
ghost use Rattle.program_gen.specs.Laws.{LinesReplay};

/// The lines of a generated session, played one after the other, lead to the journal that is
/// counted, and none of them meets a journal that is full for it.
pub fn lines_replay()
    ensures law { LinesReplay }
{}
