//! What the law of a user's job says of the one journal of its hub, over the definitions alone. The
//! bodies do nothing: the laws are the contracts.
#![tactic(auto)]

ghost use Rattle.trial_job_laws.specs.JobLaws.{FieldsAreTold, FieldsHaveSent, FieldsAreAllTold};
ghost use Rattle.trial_job_laws.specs.JobLaws.{MethodsAreTold, MethodsHaveSent, MethodsHaveKeys};
ghost use Rattle.trial_job_laws.specs.JobLaws.{MethodsFailAtKeymaps};
ghost use Rattle.trial_job_laws.specs.JobLaws.{ShellHasOrdered, OnlyShellOrders};
ghost use Rattle.trial_job_laws.specs.OneTrial.{TrialsAreTold, CutTrialsAreTold};

/// However a field's job ended: the enters, leaves and batches of its log are a front of those that
/// the one journal tells the field, its batches are a front of those that the journal relays to it,
/// and its peer's steps are the first of its set-up and of what the log sends.
pub fn fields_are_told()
    ensures { FieldsAreTold }
{}

/// Where it was done the peer's steps are all of that, unless the peer ended.
pub fn fields_have_sent()
    ensures { FieldsHaveSent }
{}

/// Where it was done, and its writer took all that was put as far as it has seen, and past that are
/// no steps but those of other fields, takes and joins: its log has all that the one journal tells
/// the field, and all batches that the journal relays to it, unless its peer ended.
pub fn fields_are_all_told()
    ensures { FieldsAreAllTold }
{}

/// However the method's job ended: the events of its log are a front of those that the acts of the
/// one journal tell its peer, and the peer's steps are the first of what the log asks for.
pub fn methods_are_told()
    ensures { MethodsAreTold }
{}

/// Where it was done the peer's steps are all of that, unless the peer ended.
pub fn methods_have_sent()
    ensures { MethodsHaveSent }
{}

/// Where it was done, and its writer took all that was put as far as it has seen, and past that no
/// order was given: its log has each key that the one journal tells its peer, and all events that
/// it tells the peer up to the last take.
pub fn methods_have_keys()
    ensures { MethodsHaveKeys }
{}

/// The method's job ends by a bad event only where its writer's pass has seen a journal with a
/// keymap, whatever else the shell said.
pub fn methods_fail_at_keymaps()
    ensures { MethodsFailAtKeymaps }
{}

/// The shell's orders in the one journal are those of its job, in order, and no others: all of them
/// where it was done, else the first of them.
#[tactic(auto, using(crate::proofs::ShellTold::shell_has_ordered))]
pub fn shell_has_ordered()
    ensures { ShellHasOrdered }
{}

/// So it is where no other pass gave an order.
#[tactic(auto, using(crate::proofs::ShellTold::only_shell_orders))]
pub fn only_shell_orders()
    ensures { OnlyShellOrders }
{}

/// In a trial whose jobs were done the shell's orders in the one journal are the script's; the
/// method's log has the events that the journal tells its peer up to the last take, each key among
/// them, a front of these where the peer ended, and its peer's steps are what the log asks for;
/// each field's log has all that the journal tells the field, with all batches that are relayed to
/// it, a front of these where its peer ended, and its peer's steps are its set-up and what its log
/// sends.
pub fn trials_are_told()
    ensures { TrialsAreTold }
{}

/// However its jobs ended, the same holds with a front in place of each list.
pub fn cut_trials_are_told()
    ensures { CutTrialsAreTold }
{}
