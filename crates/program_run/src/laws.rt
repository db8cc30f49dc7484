//! What a replay writes, over the definitions alone.
ghost use Rattle.program_run.specs.Replayed.{SessionsAreReplayed};

/// The answer of `replay` for a session whose first line is a header is the transcript of the
/// journal that its lines played, in the session's order, up to the first that ends it, is outside
/// the grammar or met a full journal, and behind it the last line. By the session law that journal
/// is the history of its outer steps, so the relay law speaks of what is written.
pub fn replay_law()
    ensures law { SessionsAreReplayed }
{}
