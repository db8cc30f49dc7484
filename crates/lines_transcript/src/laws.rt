//! What holds of what is watched and printed. The bodies are empty: the laws are the contracts.
ghost use Rattle.std.specs.Prelude.{◌≡◌, ◌≤◌, ◌++◌, ℕ, List, length};
ghost use Rattle.broker_model.specs.declared.journal.Entry.{Entry};
ghost use Rattle.broker_core.specs.Watched.{watched_since};
ghost use Rattle.lines_transcript.specs.Transcribed.{journal_text, text_since};

/// The text since the beginning is the transcript of the whole journal.
#[tactic(auto, using(crate::proofs::SinceLaws::text_all))]
pub fn text_from_the_beginning()
    ensures { (capacity : ℕ) (journal : List Entry) →
        text_since capacity 0 journal ≡ journal_text capacity journal }
{}

/// Who watches a journal as it grows, call by call, is told what who watches it at once is told.
#[tactic(auto, using(broker_core::proofs::WatchedSince::since_append))]
pub fn watched_in_parts()
    ensures { (capacity k : ℕ) (more journal : List Entry) → k ≤ length journal →
        watched_since capacity k (more ++ journal) ≡ watched_since capacity k journal ++
        watched_since capacity (length journal) (more ++ journal) }
{}
