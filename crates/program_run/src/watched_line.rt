//! A line of a session is read, and played before who watches it.
ghost use Rattle.std.specs.Prelude.{◌≡◌, ◌<◌, ◌^◌, false, IfOk, OnOk};
ghost use Rattle.session_text.specs.Steps.{IsSessionLine};
ghost use Rattle.session_text.specs.declared.line.SessionLine.TheVariants as lines;
ghost use Rattle.seat_set.specs.Playing.{IsWatched};
ghost use Rattle.program_run.specs.Session.{meaning_of};
ghost use Rattle.program_run.specs.WhereLinesLead.{IsLed, IsLedBy, stage_behind};

use crate::last_line::LastLine;
use crate::session_line::{Meaning, Stage, judge, judge_piece};
use broker_steps::Stamp;
use seat_set::{Player, Stop, Watch};
use session_text::SessionLine;
use std::alloc::Global;
use wio_core::NoMemory;

// As many bytes as most lines of a peer have at most.
const FEW: usize = 64;

// Plays one line. Tells how the output ends where the journal was full for a step of it.
fn play<W: Watch>(
    player: &mut Player,
    line: &SessionLine,
    stamp: Stamp,
    watch: &mut W,
) -> Result<Option<LastLine>, NoMemory>
    requires valid { IsSessionLine line.now }
    ensures led { player.old.is_spent ≡ false
        → IfOk result (IsLed player.old player.new line.now) }
    ensures watched { IsWatched W.may_follow player.old.limits.store player.old.play.journal
        watch.old player.new.play.journal watch.new }
{
    match player.line_watched(line, stamp, watch) {
        Ok(()) => Ok(None),
        Err(Stop::Full(kept)) => Ok(Some(LastLine::Full(kept.entries))),
        Err(Stop::NoMemory) => Err(NoMemory),
    }
}

// Plays the line of a peer's bytes, as `play` does.
fn play_bytes<W: Watch>(
    player: &mut Player,
    number: u32,
    piece: &[u8],
    stamp: Stamp,
    watch: &mut W,
) -> Result<Option<LastLine>, NoMemory>
    ensures led { player.old.is_spent ≡ false
        → IfOk result (IsLed player.old player.new (lines.Bytes number piece.now)) }
    ensures watched { IsWatched W.may_follow player.old.limits.store player.old.play.journal
        watch.old player.new.play.journal watch.new }
{
    match player.bytes_watched(number, piece, stamp, watch) {
        Ok(()) => Ok(None),
        Err(Stop::Full(full)) => Ok(Some(LastLine::Full(full.entries))),
        Err(Stop::NoMemory) => Err(NoMemory),
    }
}

// Plays any line after so many. Stands apart, so that the line of a few bytes makes no room for
// others.
#[inline(never)]
fn play_any<W: Watch>(
    alloc: Global,
    stage: &mut Stage,
    player: &mut Player,
    watch: &mut W,
    before: u64,
    raw: &[u8],
) -> Result<Option<LastLine>, NoMemory>
    ensures stage { OnOk result (stage.new ≡ stage_behind stage.old
        (meaning_of stage.old raw.now)) }
    ensures led { player.old.is_spent ≡ false → before < 2 ^ 33
        → IfOk result (IsLedBy before player.old player.new (meaning_of stage.old raw.now)) }
    ensures watched { IsWatched W.may_follow player.old.limits.store player.old.play.journal
        watch.old player.new.play.journal watch.new }
{
    match judge(alloc, *stage, raw)? {
        Meaning::Play(stamp, line) => {
            *stage = stage.after(stamp);
            play(player, &line, stamp, watch)
        }
        Meaning::End => Ok(Some(LastLine::End(player.entries()))),
        Meaning::Bad => Ok(Some(LastLine::Bad(before.saturating_add(1)))),
    }
}

/// Plays the line after so many. Tells how the output ends if the line decides it, or the journal
/// was full for a step of it.
pub fn play_line<W: Watch>(
    alloc: Global,
    stage: &mut Stage,
    player: &mut Player,
    watch: &mut W,
    before: u64,
    raw: &[u8],
) -> Result<Option<LastLine>, NoMemory>
    ensures stage { OnOk result (stage.new ≡ stage_behind stage.old
        (meaning_of stage.old raw.now)) }
    ensures led { player.old.is_spent ≡ false → before < 2 ^ 33
        → IfOk result (IsLedBy before player.old player.new (meaning_of stage.old raw.now)) }
    ensures watched { IsWatched W.may_follow player.old.limits.store player.old.play.journal
        watch.old player.new.play.journal watch.new }
{
    let mut piece = [0u8; FEW];
    match judge_piece(*stage, raw, &mut piece) {
        Some((stamp, number, length)) => {
            *stage = stage.after(stamp);
            play_bytes(player, number, &piece[..length], stamp, watch)
        }
        None => play_any(alloc, stage, player, watch, before, raw),
    }
}
