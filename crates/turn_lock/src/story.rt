//! The value behind the lock.
ghost use Rattle.std.specs.Prelude.{◌≡◌, ◌⊎◌, ◌++◌, ◌∷◌, [], ℕ, List, length};

/// A value whose calls stand in a history: the list of the pairs that its plays made, each with the
/// number of the seat that asked for it and an entry. A turn lock lets one thread at a time play
/// it. It has three meanings for contracts: its constant, which no play changes; its history; and
/// the rule of a play, `plays`, between the constant, the history and the call before, and the
/// history, the call and the reply after.
pub trait Story {
    /// What no play changes.
    type Constant;

    /// What a play adds to the history, beside the seat's number.
    type Entry;

    /// What is asked of the story. A play may use it up or write into it.
    type Call;

    /// What a play answers.
    type Reply;

    ghost constant: { Self → Self.Constant };

    ghost history: { Self → List (ℕ × Self.Entry) };

    ghost number: { Self.Call → ℕ };

    ghost plays: { Self.Constant → List (ℕ × Self.Entry) → Self.Call →
        List (ℕ × Self.Entry) → Self.Call → Self.Reply → Type 0 };

    /// Plays a call: the history stays, or is longer by one pair with the call's number.
    fn play(&mut self, call: &mut Self::Call) -> Self::Reply
        ensures constant { constant self.new ≡ constant self.old }
        ensures rule { plays (constant self.old) (history self.old) call.old
            (history self.new) call.new result }
        ensures grows { (history self.new ≡ history self.old) ⊎
            ((entry : Self.Entry) ×
            (history self.new ≡ history self.old ++ (number call.old, entry) ∷ [])) };

    /// How many pairs the history has.
    fn length(&self) -> u64
        ensures { result ≡ length (history self.now) };

    /// The number of the seat that the call names.
    fn number(call: &Self::Call) -> u64
        ensures { result ≡ number call.now };
}
