//! A session, played line by line.
ghost use Rattle.std.specs.Prelude.{[]};

use crate::last_line::LastLine;
use crate::script::Script;
use crate::session_line::{Stage, read_opening};
use crate::watched_line::play_line;
use lines_transcript::Printer;
use seat_set::Player;
use session_text::Form;
use std::alloc::Global;
use wio_core::NoMemory;

/// The lines so far, and the output that they came to. Before the header no player is there.
#[derive(Drop)]
pub struct SessionPlay {
    alloc: Global,
    stage: Stage,
    player: Option<Player>,
    printer: Printer,
    before: u64,
}

impl SessionPlay {
    ghost use Rattle.program_run.specs.SessionScript.{SessionStands, SessionHolds};

    /// No line was played yet.
    pub fn new(alloc: Global) -> SessionPlay
        ensures stands { SessionStands result [] [] }
        ensures holds { SessionHolds result [] }
    {
        SessionPlay {
            alloc,
            stage: Stage::of(Form::Session),
            player: None,
            printer: Printer::new(alloc),
            before: 0,
        }
    }
}

impl Script for SessionPlay {
    ghost use Rattle.program_run.specs.Session.{session_of_lines};
    ghost use Rattle.program_run.specs.SessionScript.{SessionStands, SessionHolds, session_text};

    ghost answer = { session_of_lines };

    ghost stands = { SessionStands };

    ghost holds = { SessionHolds };

    ghost text = { session_text };

    fn line(&mut self, raw: &[u8]) -> Result<Option<LastLine>, NoMemory> {
        let before = self.before;
        self.before = before.saturating_add(1);
        match &mut self.player {
            Some(player) => play_line(
                self.alloc,
                &mut self.stage,
                player,
                &mut self.printer,
                before,
                raw,
            ),
            None => match read_opening(self.alloc, raw)? {
                Some(opening) => {
                    let player = Player::new(self.alloc, opening.limits)?;
                    self.stage = Stage::of(opening.form);
                    self.player = Some(player);
                    Ok(None)
                }
                None => Ok(Some(LastLine::Bad(1))),
            },
        }
    }

    fn bad_line(&self) -> LastLine {
        LastLine::Bad(self.before.saturating_add(1))
    }

    fn close(&mut self) -> Result<(), NoMemory> {
        self.printer.close();
        if self.printer.is_short() {
            return Err(NoMemory);
        }
        Ok(())
    }

    fn text(&self) -> &[u8] {
        self.printer.text().as_bytes()
    }

    fn clear(&mut self) {
        self.printer.clear();
    }
}
