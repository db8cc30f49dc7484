//! What holds of a broker over all of its calls. The body is empty: the law is the contract.
ghost use Rattle.std.specs.Prelude.{◌≡◌, ℕ, List, Result, false};
ghost use Rattle.broker_steps.specs.declared.limits.Limits.{Limits};
ghost use Rattle.broker_steps.specs.declared.stamp.Stamp.{Stamp};
ghost use Rattle.broker_model.specs.declared.journal.Entry.{Entry};
ghost use Rattle.broker_model.specs.Stamps.{follows};
ghost use Rattle.broker_core.specs.declared.answers.Refused.{Refused};
ghost use Rattle.broker_core.specs.Broker.{Broker, begun, with_step};
ghost use Rattle.c_broker.specs.Called.{IsLedTo, IsOfSteps};
ghost use Rattle.c_broker.specs.Seated.{all_gone, Received, steps_of};

/// The journal of a broker is the history of steps, after any calls: of a new one, after a step that
/// was taken (`join`, `gone`, `order`, `take`), and after `receive`, whatever it answered. Any other
/// call, and one that is refused, leaves the broker.
pub fn byte_law()
    ensures new { (limits : Limits) → IsLedTo limits (begun limits) }
    ensures step { (limits : Limits) → (e : Entry) → (given : Stamp) → (b : Broker) →
        follows e ≡ false → IsLedTo limits b →
        IsLedTo limits (all_gone (with_step e given b)) }
    ensures received { (limits : Limits) → (q : ℕ) → (given : Stamp) →
        (waits bytes tokens : List ℕ) → (b after : Broker) → (result : Result (Unit {0}) Refused) →
        Received q given (steps_of q waits bytes tokens) b result after → IsLedTo limits b →
        IsLedTo limits after }
    ensures history { (limits : Limits) → (b : Broker) → IsLedTo limits b → IsOfSteps limits b }
{}
