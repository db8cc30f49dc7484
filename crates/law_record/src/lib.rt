//! A recorded session replays to its journal, over the definitions alone. The bodies do nothing:
//! the laws are the contracts.
#![tactic(auto)]

ghost use Rattle.law_record.specs.RecordLaws.{RecordedIsRead, RecordedHasStepLines};
ghost use Rattle.law_record.specs.RecordLaws.{RecordedLeadsBack, RecordedReplays};
ghost use Rattle.law_record.specs.GeneratedLaw.{GeneratedReplays};
ghost use Rattle.law_record.specs.HubLaw.{HubReplays, HubIsRead, HubLeadsBack};
ghost use Rattle.law_record.specs.Rows.{FewAreLegal};

/// The recorded session of legal steps is read line by line: its header, a line of each step with
/// the stamp of its entry, and the end. An end that follows from a step has no line.
pub fn recorded_session_is_read()
    ensures law { RecordedIsRead }
    ensures steps { RecordedHasStepLines }
{}

/// Those lines, played one after the other, lead to the journal itself, with the ends that follow,
/// and to its stamps: none meets a full journal, and no byte is left unread.
pub fn recorded_session_leads_back()
    ensures law { RecordedLeadsBack }
{}

/// So `replay` of a recorded session writes the transcript of the journal that was recorded and
/// `end N`, where N is how many entries it has, and its status is Ok. It reads all of it: no limits
/// allow a recorded session that is longer than its input may be.
pub fn recorded_session_replays()
    ensures law { RecordedReplays }
{}

/// So it is with the recorded session of what stands behind a hub's lock, as a server writes it: it
/// is lawful, and so are its steps legal. It replays, it is read, and its lines lead to the journal
/// and its stamps again.
pub fn hub_session_replays()
    ensures law { HubReplays }
    ensures read { HubIsRead }
    ensures leads { HubLeadsBack }
{}

/// `replay` of a generated session, as `gen N text` writes it, writes the transcript of its journal
/// and `end E`, where E is the number of entries that `gen N` tells, and its status is Ok.
pub fn generated_session_replays()
    ensures law { GeneratedReplays }
{
    program_gen::lines_replay();
}

/// A small session is legal: an application joins, tokens come, a key passes, it asks for the
/// registry, takes a part of what it is told, and its link ends.
pub fn few_steps_are_legal()
    ensures row { FewAreLegal }
{}
