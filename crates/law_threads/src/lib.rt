//! The law of a whole trial whose users were jobs side by side, of its script and of what it gives,
//! over the definitions alone. The body does nothing: the law is the contract.
//!
//! What a server's reports say of its one journal, over the definitions alone. The body does
//! nothing: the laws are the contract.
#![tactic(auto)]

ghost use Rattle.law_threads.specs.Told.{WholesAreTold, CutsAreTold, CutsAreFull};
ghost use Rattle.law_threads.specs.OneJournal.{WritersAreOfOneJournal, ReportsAreOfOneJournal};
ghost use Rattle.law_threads.specs.OneJournal.{ServersWriteOneJournal};

/// The logs, the method's log and the journal of a trial where all jobs were done: each field's log
/// has the script's edits and, in order, all that the journal tells the field; the method's has the
/// script's first thousand batches and all keys; the shell's orders are the script's.
pub fn wholes_are_told()
    ensures { WholesAreTold }
{}

/// The same of a trial where the journal was full for a step, with a front in place of each list: of
/// the script's edits, batches and orders, and of what the journal tells the fields and the method.
pub fn cuts_are_told()
    ensures { CutsAreTold }
{}

/// How much the answer says that was kept there: what a front of the session's journal holds, with
/// as many counted entries as there may be, or so heavy that the heaviest step may pass the limit.
pub fn cuts_are_full()
    ensures { CutsAreFull }
{}

/// What a peer's writer took is a front of what the one journal of the whole run puts out for its
/// peer, all of it where it ended as Closed, and what its link gained are the frames of that. The
/// law of a writer says so of the journal that its pass has seen: what others did later took nothing
/// from this peer, put more only behind that, and nothing for a peer that has ended. So it is with
/// each writer's report, and with all those of a server.
pub fn writers_are_of_one_journal()
    ensures law { WritersAreOfOneJournal }
    ensures reports { ReportsAreOfOneJournal }
    ensures server { ServersWriteOneJournal }
{}
