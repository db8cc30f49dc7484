//! A step is played, and after it all that is stored is taken.
ghost use Rattle.std.specs.Prelude.{◌≡◌, ◌≤◌, ℕ, List, true, IfOk};
ghost use Rattle.session_text.specs.Steps.{IsSessionLine};
ghost use Rattle.session_text.specs.declared.line.SessionLine.TheVariants as lines;
ghost use Rattle.seat_set.specs.Played.{line_played};
ghost use Rattle.seat_set.specs.Laws.{lines_played};
ghost use Rattle.audit_run.specs.Taking.{audit_limits, step_judged, takes_from, takes_of};
ghost use Rattle.audit_run.specs.Standing.{GoesOn, IsDry, Leads, LeadsOnce};

use audit_fields::Gatherer;
use broker_steps::Stamp;
use seat_set::{Player, Stop};
use session_text::SessionLine;

/// So many bytes are taken at once.
const PIECE: u32 = 4096;

/// So many takes empty any store.
const MOST_TAKES: u32 = 256;

// Plays a line, of which all is gathered.
fn play_gathered(
    player: &mut Player,
    gatherer: &mut Gatherer,
    stamp: Stamp,
    line: &SessionLine,
) -> Result<(), Stop>
    requires { IsSessionLine line.now }
    ensures { (all : ℕ → List ℕ) → GoesOn all player.old gatherer.old →
        Leads (line_played audit_limits line.now player.old.play) all result player.new
        gatherer.new }
{
    player.line_watched(line, stamp, gatherer)?;
    if gatherer.is_short() {
        return Err(Stop::NoMemory);
    }
    Ok(())
}

// One take from the peer with the number. True where nothing was stored for it.
fn take_once(
    player: &mut Player,
    gatherer: &mut Gatherer,
    stamp: Stamp,
    number: u32,
) -> Result<bool, Stop>
    ensures { (all : ℕ → List ℕ) → GoesOn all player.old gatherer.old →
        LeadsOnce number (line_played audit_limits (lines.Take number 4096) player.old.play) all
        result player.new gatherer.new }
{
    let before = player.entries();
    play_gathered(player, gatherer, stamp, &SessionLine::Take(number, PIECE))?;
    Ok(player.entries() == before)
}

// All that is stored for the peer with the number is taken.
fn take_all(
    player: &mut Player,
    gatherer: &mut Gatherer,
    stamp: Stamp,
    number: u32,
) -> Result<(), Stop>
    ensures { (all : ℕ → List ℕ) → GoesOn all player.old gatherer.old →
        Leads (lines_played audit_limits (takes_of number) player.old.play) all result player.new
        gatherer.new }
{
    let mut left = MOST_TAKES;
    'takes: while left > 0 {
        if take_once(player, gatherer, stamp, number)? {
            gatherer.empty(number);
            return Ok(());
        }
        left -= 1;
    }
    Ok(())
}

// All that is stored is taken, by rising number of the peers, of whom there are so many.
fn take_from_all(
    player: &mut Player,
    gatherer: &mut Gatherer,
    stamp: Stamp,
    most: usize,
) -> Result<(), Stop>
    ensures { (all : ℕ → List ℕ) → GoesOn all player.old gatherer.old →
        Leads (lines_played audit_limits (takes_from 1 most) player.old.play) all result player.new
        gatherer.new }
{
    let mut above: u32 = 0;
    'peers: while let Some(number) = gatherer.least_above(above, most) {
        take_all(player, gatherer, stamp, number)?;
        above = number;
    }
    Ok(())
}

/// Plays a step, and takes all that is stored after it.
pub(crate) fn play_step(
    player: &mut Player,
    gatherer: &mut Gatherer,
    stamp: Stamp,
    line: &SessionLine,
) -> Result<(), Stop>
    requires { IsSessionLine line.now }
    ensures { (all : ℕ → List ℕ) → GoesOn all player.old gatherer.old →
        Leads (step_judged line.now player.old.play) all result player.new gatherer.new }
{
    play_gathered(player, gatherer, stamp, line)?;
    let most = gatherer.count();
    take_from_all(player, gatherer, stamp, most)
}
