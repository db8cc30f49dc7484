//! What a peer sent: its tokens, and the messages that its bytes complete.
ghost use Rattle.std.specs.Prelude.{◌≡◌, ◌≤◌, ◌++◌, [], length, IfSome, IfNone, Err};
ghost use Rattle.broker_core.specs.Taking.{standing_of};
ghost use Rattle.broker_cutter.specs.Steps.{steps_in};
ghost use Rattle.c_broker.specs.Steps.{Plays, Hearing, not_done};
ghost use Rattle.c_broker.specs.Seated.{Received, Keeps, WaitsAt, absent, steps_of, token_steps};
ghost use Rattle.c_broker.specs.Seated.{HoldsOn, IfStopped, PlaysOrStops, stopping, waiting};

use crate::seat::ByteSeat;
use crate::steps::{bytes, tokens};
use broker_core::{Refused, Standing};
use broker_cutter::Cutter;
use broker_steps::Stamp;

impl ByteSeat {
    // The tokens of a peer, where there are any.
    fn receive_tokens(&mut self, peer: u32, sent: &[u32], stamp: Stamp) -> Result<(), Refused>
        requires few { length sent.now ≤ 256 }
        ensures plays { Plays peer stamp (token_steps peer sent.now) self.old.broker result
            self.new.broker }
        ensures hears { Hearing self.old.broker self.old.ears self.new.broker self.new.ears }
        ensures held { self.new.held ≡ self.old.held }
    {
        if sent.is_empty() {
            return Ok(());
        }
        tokens(
            self.alloc,
            &mut self.shared,
            &mut self.ears,
            peer,
            sent,
            stamp,
        )
    }

    // The bytes of a peer, behind those that wait.
    fn receive_bytes(&mut self, peer: u32, piece: &[u8], stamp: Stamp) -> Result<(), Refused>
        ensures plays { Plays peer stamp (steps_in peer (waiting self.old.held peer ++ piece.now))
            self.old.broker result self.new.broker }
        ensures hears { Hearing self.old.broker self.old.ears self.new.broker self.new.ears }
        ensures keeps { Keeps self.old.held self.new.held peer
            (waiting self.old.held peer ++ piece.now) result }
    {
        let Ok(()) = self.held.reserve(1) else {
            return Err(Refused::NoMemory);
        };
        let mut cutter = match self.held.remove(&peer) {
            Some(cutter) => cutter,
            None => match Cutter::new(self.alloc) {
                Ok(cutter) => cutter,
                Err(_) => return Err(Refused::NoMemory),
            },
        };
        let answer = bytes(
            &mut self.shared,
            &mut self.ears,
            &mut cutter,
            peer,
            piece,
            stamp,
        );
        let _ = self.held.insert(peer, cutter);
        answer
    }

    // The steps of what a live peer sent.
    fn receive_steps(
        &mut self,
        peer: u32,
        piece: &[u8],
        sent: &[u32],
        stamp: Stamp,
    ) -> Result<(), Refused>
        requires few { length sent.now ≤ 256 }
        ensures plays { Plays peer stamp (steps_of peer (waiting self.old.held peer) piece.now
            sent.now) self.old.broker result self.new.broker }
        ensures hears { Hearing self.old.broker self.old.ears self.new.broker self.new.ears }
        ensures keeps { Keeps self.old.held self.new.held peer
            (waiting self.old.held peer ++ piece.now) result }
    {
        match self.receive_tokens(peer, sent, stamp) {
            Ok(()) => self.receive_bytes(peer, piece, stamp),
            Err(why) => Err(why),
        }
    }

    // Why nothing is received of the peer, if so.
    fn absence(&self, peer: u32) -> Option<Refused>
        ensures { result ≡ absent (standing_of self.now.broker.journal peer) }
    {
        match self.shared.standing(peer) {
            Standing::Nobody => Some(Refused::NoPeer),
            Standing::Over(cause) => Some(Refused::Ended(cause)),
            Standing::Alive => None,
        }
    }

    // A step of a peer wasn't taken. Where that was for want of memory or room, its bytes can't be
    // read on, and it ends.
    fn stop(&mut self, peer: u32, why: Refused, stamp: Stamp) -> Result<(), Refused>
        ensures why { result ≡ not_done why }
        ensures broker { self.new.broker ≡ stopping peer stamp result self.old.broker }
        ensures held { HoldsOn self.old.held self.new.held peer result }
        ensures hears { Hearing self.old.broker self.old.ears self.new.broker self.new.ears }
    {
        match why {
            Refused::NoMemory => {
                let _ = self.end(peer, stamp);
                Err(Refused::NoMemory)
            }
            Refused::JournalFull(kept) => {
                let _ = self.end(peer, stamp);
                Err(Refused::JournalFull(kept))
            }
            Refused::NoPeer => Err(Refused::NoPeer),
            Refused::Ended(cause) => Err(Refused::Ended(cause)),
        }
    }

    // The steps of what a live peer sent, which ends where they can't be read on.
    fn receive_or_stop(
        &mut self,
        peer: u32,
        piece: &[u8],
        sent: &[u32],
        stamp: Stamp,
    ) -> Result<(), Refused>
        requires few { length sent.now ≤ 256 }
        ensures plays { PlaysOrStops peer stamp (steps_of peer (waiting self.old.held peer) piece.now
            sent.now) self.old.broker result self.new.broker }
        ensures hears { Hearing self.old.broker self.old.ears self.new.broker self.new.ears }
        ensures keeps { Keeps self.old.held self.new.held peer
            (waiting self.old.held peer ++ piece.now) result }
        ensures stopped { IfStopped result (WaitsAt self.old.held self.new.held peer []) }
    {
        match self.receive_steps(peer, piece, sent, stamp) {
            Ok(()) => Ok(()),
            Err(why) => self.stop(peer, why, stamp),
        }
    }

    /// Receives what a peer sent: its bytes, however they are cut, and the tokens of the descriptors
    /// that came with them, at most 256. The tokens wait for the messages that take them; then each
    /// message that the bytes complete, and a header with a bad size, is a step. What makes no whole
    /// message waits for more.
    ///
    /// `NoPeer` comes where no peer has the number, and `Ended` where it had ended: all is as before.
    /// Else each step is taken unless the one before ended the peer (`Ended`), the journal is full for
    /// it (`JournalFull`), or there is no memory (`NoMemory`); the steps before stay taken. After
    /// `JournalFull` and `NoMemory` nothing more of the peer is read: it ends as if its link had,
    /// unless a step before ended it, and what was held of its bytes is dropped.
    pub fn receive(
        &mut self,
        peer: u32,
        piece: &[u8],
        sent: &[u32],
        stamp: Stamp,
    ) -> Result<(), Refused>
        requires few { length sent.now ≤ 256 }
        ensures absent { IfSome (absent (standing_of self.old.broker.journal peer)) (λ why.
            result ≡ Err why) }
        ensures same { IfSome (absent (standing_of self.old.broker.journal peer)) (λ why.
            self.new ≡ self.old) }
        ensures received { IfNone (absent (standing_of self.old.broker.journal peer))
            (Received peer stamp (steps_of peer (waiting self.old.held peer) piece.now sent.now)
            self.old.broker result self.new.broker) }
        ensures keeps { IfNone (absent (standing_of self.old.broker.journal peer))
            (Keeps self.old.held self.new.held peer (waiting self.old.held peer ++ piece.now)
            result) }
        ensures stopped { IfStopped result (WaitsAt self.old.held self.new.held peer []) }
        ensures told { Hearing self.old.broker self.old.ears self.new.broker self.new.ears }
    {
        if let Some(why) = self.absence(peer) {
            return Err(why);
        }
        let answer = self.receive_or_stop(peer, piece, sent, stamp);
        self.let_go();
        answer
    }
}
