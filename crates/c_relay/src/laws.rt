//! What holds of a seat over all of its calls. The body is empty: the law is the contract.
ghost use Rattle.std.specs.Prelude.{◌≡◌, ◌++◌, ◌∷◌, [], List, ℕ, Option, Some, None, Ok, Err};
ghost use Rattle.relay_model.specs.declared.act.Act.{Act};
ghost use Rattle.relay_core.specs.Stands.{StandsFor};
ghost use Rattle.c_relay.specs.declared.seat.Refusal.{Refusal};
ghost use Rattle.c_relay.specs.Events.{Heard};
ghost use Rattle.c_relay.specs.Seated.{Seat, Seated, Takes};
ghost use Rattle.c_relay.specs.Served.{Served};

/// What a seat handed out and what waits is all that its acts tell, in order: of a new seat, after an act that was
/// taken, after one that wasn't, and after the event that waits longest was handed out. So it is after any calls.
pub fn served_law()
    ensures new { (seat : Seat) → Seated seat [] [] → Served seat [] [] }
    ensures taken { (old new : Seat) → (log : List Act) → (handed : List Heard) → (act : Act) →
        (number : ℕ) → ((waits : List Heard) → Seated old log waits → Takes new log waits act (Ok
        (Some number))) → Served old log handed → Served new (act ∷ log) handed }
    ensures idle { (old new : Seat) → (log : List Act) → (handed : List Heard) → (act : Act) →
        ((waits : List Heard) → Seated old log waits → Takes new log waits act (Ok None)) →
        Served old log handed → Served new log handed }
    ensures refused { (old new : Seat) → (log : List Act) → (handed : List Heard) → (act : Act) →
        (refusal : Refusal) → ((waits : List Heard) → Seated old log waits → Takes new log waits act
        (Err refusal)) → Served old log handed → Served new log handed }
    ensures handed { (old new : Seat) → (log : List Act) → (handed : List Heard) → (first : Heard) →
        (StandsFor old.relay log → StandsFor new.relay log) → new.popups ≡ old.popups →
        old.heard ≡ first ∷ new.heard → Served old log handed →
        Served new log (handed ++ first ∷ []) }
{}
