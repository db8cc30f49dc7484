//! A step is one that a line can give: its numbers are those of their types. The bodies only read.
ghost use Rattle.std.specs.Prelude.{◌<◌, ◌^◌, All};
ghost use Rattle.broker_steps.specs.Texts.{IsBytes};
ghost use Rattle.broker_steps.specs.Ranges.{IsStep, IsPeerStep, IsShellStep};
ghost use Rattle.broker_steps.specs.declared.step.Step.TheVariants as steps;
ghost use Rattle.broker_core.specs.Broker.{IsSaid, entry_of};
ghost use Rattle.hub_lock.specs.Steps.{IsGiven};

use broker_steps::{PeerStep, ShellStep, Step};
use relay_model::Rect;

fn are_bytes(_bytes: &[u8])
    ensures { IsBytes _bytes.now }
{}

fn are_tokens(_tokens: &[u32])
    ensures { All (λ token. token < 2 ^ 32) _tokens.now }
{}

// What a peer says.
fn is_given_by_peer(peer: u32, step: &PeerStep)
    requires { IsPeerStep step.now }
    ensures { IsGiven (entry_of (steps.Peer peer step.now)) }
{
    match step {
        PeerStep::Message { id, opcode, body } => {
            let _id = *id;
            let _opcode = *opcode;
            are_bytes(body.as_slice());
        }
        PeerStep::BadSize { head } => are_bytes(head),
        PeerStep::Tokens(tokens) => are_tokens(tokens.as_slice()),
        PeerStep::Gone => {}
    }
}

// What the shell says.
fn is_given_by_shell(step: ShellStep)
    requires { IsShellStep step }
    ensures { IsGiven (entry_of (steps.Shell step)) }
{}

/// A step of a peer or of the shell.
pub(crate) fn is_given(step: &Step)
    requires step { IsStep step.now }
    requires said { IsSaid step.now }
    ensures { IsGiven (entry_of step.now) }
{
    match step {
        Step::Peer(peer, step) => is_given_by_peer(*peer, step),
        Step::Shell(step) => is_given_by_shell(*step),
        Step::Join(_) | Step::Take(_, _) => {}
    }
}
