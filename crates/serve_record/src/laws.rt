//! A worked row of the definitions.
ghost use Rattle.serve_record.specs.Recorded.{SessionIsRecorded};

/// The text of a small recorded session is what was worked out by hand.
pub fn recorded_session()
    ensures row { SessionIsRecorded }
{}
