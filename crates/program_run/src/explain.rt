//! A session explained, line by line: the line of each entry says what it was, and what came of it.
ghost use Rattle.std.specs.Prelude.{◌≡◌, ◌<◌, ◌+◌, ◌^◌, ℕ, [], List, length, IfOk};
ghost use Rattle.lines_explained.specs.declared.explainer.Lines.{Lines as Which};
ghost use Rattle.program_run.specs.Scripts.{Played};
ghost use Rattle.program_run.specs.Explain.{explain_of_lines};
ghost use Rattle.program_run.specs.ExplainScript.{ExplainerStands, ExplainerHolds};
ghost use Rattle.program_run.specs.ExplainScript.{ExplainHoldsBy};
ghost use Rattle.lines_explained.specs.Explained.{blank};

use crate::last_line::LastLine;
use crate::script::Script;
use crate::session_line::{Stage, read_opening};
use crate::watched_line::play_line;
use lines_explained::{Explainer, Lines};
use seat_set::Player;
use session_text::Form;
use std::alloc::Global;
use wio_core::NoMemory;

/// Which lines are written.
pub trait Wanted {
    ghost which: { Which };

    /// The same, as a value.
    fn lines(&self) -> Lines
        ensures { result ≡ which };
}

/// The line of each entry.
#[derive(Drop)]
pub struct EachLine;

impl Wanted for EachLine {
    ghost use Rattle.lines_explained.specs.declared.explainer.Lines.TheVariants.{All};

    ghost which = { All };

    fn lines(&self) -> Lines {
        Lines::All
    }
}

/// The lines of batches that reached nobody.
#[derive(Drop)]
pub struct BadLines;

impl Wanted for BadLines {
    ghost use Rattle.lines_explained.specs.declared.explainer.Lines.TheVariants.{BadOnly};

    ghost which = { BadOnly };

    fn lines(&self) -> Lines {
        Lines::BadOnly
    }
}

// Plays the line after so many, and explains what it makes.
fn explain_line(
    alloc: Global,
    stage: &mut Stage,
    player: &mut Player,
    explainer: &mut Explainer,
    before: u64,
    raw: &[u8],
) -> Result<Option<LastLine>, NoMemory>
    ensures { (which : Which) (done : List (List ℕ)) (output gathered : List ℕ)
        → length done < 2 ^ 33 → ExplainerStands which stage.old player.old before done output
        → ExplainerHolds which player.old explainer.old gathered
        → IfOk result (Played (explain_of_lines which)
        (ExplainerStands which stage.new player.new (before + 1))
        (ExplainerHolds which player.new explainer.new) done raw.now output gathered) }
{
    let end = play_line(alloc, stage, player, explainer, before, raw)?;
    explainer.close(player.relay());
    if explainer.is_short() {
        return Err(NoMemory);
    }
    Ok(end)
}

// How many peers joined; before the header none.
fn peers_of(player: &Option<Player>) -> u32
    ensures { (which : Which) →
        ExplainHoldsBy which player.now (record (blank which) { peers = result }) [] }
{
    match player {
        Some(player) => player.peers(),
        None => 0,
    }
}

/// The lines so far, and what was explained of them. Before the header no player is there.
#[derive(Drop)]
pub struct ExplainPlay<W> {
    alloc: Global,
    // Which lines are wanted.
    wanted: W,
    stage: Stage,
    player: Option<Player>,
    explainer: Explainer,
    before: u64,
}

impl<W: Wanted> ExplainPlay<W> {
    ghost use Rattle.program_run.specs.ExplainScript.{ExplainStandsBy, ExplainHoldsBy};

    /// No line was played yet.
    pub fn new(alloc: Global, wanted: W) -> ExplainPlay<W>
        ensures stands { ExplainStandsBy W.which result.stage result.player result.before [] [] }
        ensures holds { ExplainHoldsBy W.which result.player result.explainer [] }
    {
        let lines = wanted.lines();
        ExplainPlay {
            alloc,
            wanted,
            stage: Stage::of(Form::Session),
            player: None,
            explainer: Explainer::new(alloc, lines),
            before: 0,
        }
    }
}

impl<W: Wanted> Script for ExplainPlay<W> {
    ghost use Rattle.program_run.specs.Explain.{explain_of_lines};
    ghost use Rattle.program_run.specs.ExplainScript.{ExplainStandsBy, ExplainHoldsBy};

    ghost answer = { explain_of_lines W.which };

    ghost stands = { λ session done output.
        ExplainStandsBy W.which session.stage session.player session.before done output };

    ghost holds = { λ session gathered.
        ExplainHoldsBy W.which session.player session.explainer gathered };

    ghost text = { λ session. session.explainer.text };

    fn line(&mut self, raw: &[u8]) -> Result<Option<LastLine>, NoMemory> {
        let before = self.before;
        self.before = before.saturating_add(1);
        match &mut self.player {
            Some(player) => explain_line(
                self.alloc,
                &mut self.stage,
                player,
                &mut self.explainer,
                before,
                raw,
            ),
            None => match read_opening(self.alloc, raw)? {
                Some(opening) => {
                    let player = Player::new(self.alloc, opening.limits)?;
                    self.stage = Stage::of(opening.form);
                    self.player = Some(player);
                    Ok(None)
                }
                None => Ok(Some(LastLine::Bad(1))),
            },
        }
    }

    fn bad_line(&self) -> LastLine {
        LastLine::Bad(self.before.saturating_add(1))
    }

    fn close(&mut self) -> Result<(), NoMemory> {
        Ok(())
    }

    fn text(&self) -> &[u8] {
        self.explainer.text().as_bytes()
    }

    fn clear(&mut self) {
        let lines = self.wanted.lines();
        self.explainer.clear(lines, peers_of(&self.player));
    }
}
