//! What the callers of the shared state take of what is stored for peers.
use crate::answers::Took;
use crate::limits::ENTRY_WEIGHT;
use crate::shared::Shared;
use crate::taking::Standing;
use crate::watch::Watch;
use broker_steps::Stamp;

impl Shared {
    ghost use Rattle.std.specs.Prelude.{◌≡◌, ◌≤◌, ◌∷◌, length, IfSome, IfNone};
    ghost use Rattle.broker_model.specs.declared.journal.Entry.TheVariants as entries;
    ghost use Rattle.broker_core.specs.Broker.{with_step, take_refusal};
    ghost use Rattle.broker_core.specs.Broker.{IfBytes, IfNoBytes, IsBytesUnlessMemory, IsWatched};
    ghost use Rattle.broker_core.specs.Taking.{out_at, IsTaken};

    // Why nothing can be taken of what is stored for the peer, if so.
    fn take_refusal(&self, peer: u32) -> Option<Took>
        ensures { result ≡ take_refusal self.now peer }
    {
        let Some(stored) = self.state.stored(peer) else {
            return Some(Took::NoPeer);
        };
        if stored == 0 {
            return match self.state.standing(peer) {
                Standing::Over(_) => Some(Took::Closed),
                Standing::Alive | Standing::Nobody => Some(Took::Empty),
            };
        }
        let kept = self.full(ENTRY_WEIGHT)?;
        Some(Took::JournalFull(kept))
    }

    /// The first bytes that are stored for the peer, alive or ended, go into the buffer, as many as
    /// fit, and the tokens whose messages begin in them beside. Asks for a buffer of 1 to 4,096
    /// bytes and for 256 places of tokens.
    ///
    /// `NoPeer` comes where no peer has the number. Where nothing is stored, `Closed` comes if the
    /// peer ended, and else `Empty`. Where something is,
    /// `JournalFull` comes if the journal is full for a take, else `NoMemory` may come. After each
    /// of these all is as before, the buffers too.
    pub fn take(&mut self, peer: u32, buf: &mut [u8], tokens: &mut [u32], stamp: Stamp) -> Took
        requires piece { length buf.old ≤ 4096 }
        requires some { 1 ≤ length buf.old }
        requires places { 256 ≤ length tokens.old }
        ensures refused { IfSome (take_refusal self.old peer) (λ why. result ≡ why) }
        ensures accepted { IfNone (take_refusal self.old peer) (IsBytesUnlessMemory result) }
        ensures bytes { IfSome (out_at self.old.limits.store self.old.journal peer)
            (λ out. IfBytes result (λ counts.
            IsTaken out self.old.journal peer buf.old tokens.old counts buf.new tokens.new
            (entries.Took peer counts.0 ∷ self.old.journal))) }
        ensures settled { IfBytes result (λ counts.
            self.new ≡ with_step (entries.Took peer counts.0) stamp self.old) }
        ensures same { IfNoBytes result (self.new ≡ self.old) }
        ensures same_bytes { IfNoBytes result (buf.new ≡ buf.old) }
        ensures same_tokens { IfNoBytes result (tokens.new ≡ tokens.old) }
    {
        self.take_watched(peer, buf, tokens, stamp, &mut ())
    }

    /// As `take`; and `watch` is told of the entries that the call makes, of none where nothing is
    /// taken.
    pub fn take_watched<W: Watch>(
        &mut self,
        peer: u32,
        buf: &mut [u8],
        tokens: &mut [u32],
        stamp: Stamp,
        watch: &mut W,
    ) -> Took
        requires piece { length buf.old ≤ 4096 }
        requires some { 1 ≤ length buf.old }
        requires places { 256 ≤ length tokens.old }
        ensures refused { IfSome (take_refusal self.old peer) (λ why. result ≡ why) }
        ensures accepted { IfNone (take_refusal self.old peer) (IsBytesUnlessMemory result) }
        ensures bytes { IfSome (out_at self.old.limits.store self.old.journal peer)
            (λ out. IfBytes result (λ counts.
            IsTaken out self.old.journal peer buf.old tokens.old counts buf.new tokens.new
            (entries.Took peer counts.0 ∷ self.old.journal))) }
        ensures settled { IfBytes result (λ counts.
            self.new ≡ with_step (entries.Took peer counts.0) stamp self.old) }
        ensures same { IfNoBytes result (self.new ≡ self.old) }
        ensures same_bytes { IfNoBytes result (buf.new ≡ buf.old) }
        ensures same_tokens { IfNoBytes result (tokens.new ≡ tokens.old) }
        ensures watched { IsWatched W.may_follow self.old watch.old self.new watch.new }
    {
        if let Some(why) = self.take_refusal(peer) {
            return why;
        }
        let Ok((bytes, places)) = self.state.take(peer, buf, tokens, stamp, watch) else {
            return Took::NoMemory;
        };
        self.state.settle(watch);
        Took::Bytes(bytes, places)
    }
}
