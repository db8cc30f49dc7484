//! What holds of every trial, over the definitions alone. The bodies are empty: the laws are the
//! contracts.
//!
//! What holds of the method of every trial, over the definitions alone. The bodies are empty: the
//! laws are the contracts.
#![tactic(auto)]

ghost use Rattle.trial_laws.specs.TrialLaws.{TrialHistory, RoundsEndQuiet};
ghost use Rattle.trial_laws.specs.TrialLaws.{ShownInTurn, TextsAreFolds, TextsAreRelayed};
ghost use Rattle.trial_laws.specs.TrialLaws.{FieldsAreMade};
ghost use Rattle.trial_laws.specs.TrialLaws.{UnpausedHearAll, UnpausedHaveAll, GroupsAreRead};
ghost use Rattle.trial_laws.specs.RelayedAsBatches.{ScriptsAreOfBytes, MessagesAreBytes};
ghost use Rattle.trial_laws.specs.RelayedAsBatches.{TextsAreBatches};
ghost use Rattle.trial_laws.specs.RelayedAsBatches.{FieldsReadAll, UnpausedHaveAllRelayed};
ghost use Rattle.trial_laws.specs.ShownTexts.{ShownTextsAreBatches};
ghost use Rattle.trial_laws.specs.MethodLaws.{MethodSendsItsLog, MethodHearsAFront};
ghost use Rattle.trial_laws.specs.MethodLaws.{MethodHearsAll, ScriptsAreWritten};
ghost use Rattle.trial_laws.specs.MethodLaws.{MethodHearsWhatIsTold, MethodLogsGoOn};
ghost use Rattle.trial_laws.specs.MethodLaws.{TrialsAreTyped};

/// The journal of every trial is the history of its outer steps: each is followed by the ends that
/// follow from it, and by no others. So the relay law speaks of it.
#[tactic(auto, using(crate::proofs::JournalIsHistory::trial_history))]
pub fn trial_history()
    ensures { TrialHistory }
{}

/// After each action of a trial, unless the journal is full, nothing is stored for a client that
/// isn't paused: the rounds never run out.
#[tactic(auto, using(crate::proofs::RoundsEnd::rounds_end_quiet))]
pub fn rounds_end_quiet()
    ensures { RoundsEndQuiet }
{}

/// What a trial shows is a line for each `show` that it comes to, in turn: the text that its field
/// has in the trial that the actions before it play.
#[tactic(auto, using(crate::proofs::ShownLines::shown_in_turn))]
pub fn shown_in_turn()
    ensures { ShownInTurn }
{}

/// In every trial of at most 16 fields that is played to its end, the text of each field is the
/// fold of a log. The log's own edits are those of the script for that field, all and in order. The
/// rest of it is what the events make happen that the one journal tells the field's peer, as far as
/// its client took their bytes.
#[tactic(auto, using(crate::proofs::TextsFolded::texts_folded))]
pub fn texts_are_folds()
    ensures { TextsAreFolds }
{}

/// In every such trial the peer of each field made it, under the id by which its client knows it,
/// unless the peer ended.
#[tactic(auto, using(crate::proofs::FieldsThere::fields_are_made))]
pub fn fields_are_made()
    ensures { FieldsAreMade }
{}

/// So it is, and the batches of the log are a front of those that the one journal relays to the
/// field: what a client reads in the spellings of the relayed groups, in order. They are all but
/// what the client didn't take yet, and but the last where that ended the field's peer.
#[tactic(auto, using(crate::proofs::TextsRelayed::texts_relayed))]
pub fn texts_are_relayed()
    ensures { TextsAreRelayed }
{}

/// After an action, unless the journal is full, a field that isn't paused heard all that was put
/// for its peer, so only a paused field is behind.
#[tactic(auto, using(crate::proofs::UnpausedHearAll::unpaused_hear_all))]
pub fn unpaused_hear_all()
    ensures { UnpausedHearAll }
{}

/// Such a field, where nothing came that its client couldn't read, has all batches that were queued
/// for it: all that are relayed to it, or all but the last, for which its peer was ended.
#[tactic(auto, using(crate::proofs::UnpausedHaveAll::unpaused_have_all))]
pub fn unpaused_have_all()
    ensures { UnpausedHaveAll }
{}

/// What a client reads in the spelling of a whole group is the group's batch, with the serial of
/// its done, where the batch's numbers have 32 bits and its texts are texts of the protocol that
/// fit a message.
#[tactic(auto, using(crate::proofs::GroupsRead::groups_read))]
pub fn groups_are_read()
    ensures { GroupsAreRead }
{}

/// Every script that is read has texts of bytes, those that its method types with them.
pub fn scripts_are_of_bytes()
    ensures { ScriptsAreOfBytes }
{}

/// In a trial of a script whose texts are of bytes each message in the journal has a body of bytes,
/// wherever the trial stops.
pub fn messages_are_bytes()
    ensures { MessagesAreBytes }
{}

/// In such a trial the batches of each field's log are a front of the batches that the one journal
/// relays to the field, each with the count of its done.
pub fn texts_are_batches()
    ensures { TextsAreBatches }
{}

/// To no field's client anything comes there that it can't read.
pub fn fields_read_all()
    ensures { FieldsReadAll }
{}

/// So after an action a field that isn't paused, and whose peer no group that didn't fit has ended,
/// has all batches that are relayed to it.
pub fn unpaused_have_all_relayed()
    ensures { UnpausedHaveAllRelayed }
{}

/// With no premise, of any bytes as a script: what they show is a line for each `show` that the
/// trial comes to, in turn, with the text of a log of the field that it names. The log's own edits
/// are those of the actions before, all and in order; its peer made the field, unless it ended; its
/// batches are a front of those that the one journal relays to the field, and all of them unless the
/// field is paused there, or a group that didn't fit ended its peer.
pub fn shown_texts_are_batches()
    ensures { ShownTextsAreBatches }
{}

/// In every trial that is played to its end the method typed by a log. The log's events are those
/// that the one journal tells the method's peer, as far as its client took their bytes, and its
/// batches are those of the script, all and in order. The steps of the method's peer are the
/// requests that the log asks for, spelled, each once and in order, and no others: all of them
/// while the peer lives, and the first of them where it ended.
#[tactic(auto, using(crate::proofs::MethodLogged::method_sends_its_log))]
pub fn method_sends_its_log()
    ensures { MethodSendsItsLog }
{}

/// And action by action the log goes on with the action's batch, where it is one, and then with the
/// events that came in its rounds: each is the log of the trial that the actions up to there play.
pub fn method_logs_go_on()
    ensures { MethodLogsGoOn }
{}

/// The events of the log are a front of those that the journal puts for the peer, in order and
/// once each.
pub fn method_hears_a_front()
    ensures { MethodHearsAFront }
{}

/// After an action they are all of those, also where the peer ended.
#[tactic(auto, using(crate::proofs::MethodHeardAll::method_hears_all))]
pub fn method_hears_all()
    ensures { MethodHearsAll }
{}

/// Every script that is read has the rules of keys and the actions that these laws ask for.
pub fn scripts_are_written()
    ensures { ScriptsAreWritten }
{}

/// Within lawful limits, and of a script that is read, what is put for the method's peer spells the
/// events that the journal's acts tell the peer, each of them and no others: each key of its grab,
/// each activation and each done. And its client met nothing that it can't read.
pub fn method_hears_what_is_told()
    ensures { MethodHearsWhatIsTold }
{}

/// So it is, with no premise, of every script with a field that is read and played to its end.
pub fn trials_are_typed()
    ensures { TrialsAreTyped }
{}
