//! Lists of acts, each made from a number.
ghost use Rattle.std.specs.Prelude.{◌<◌};

use crate::acts::{act_of, acts_of};
use relay_model::{Act, Fault, Role};
use std::alloc::{AllocError, Global};
use std::test::Fail;

// Two fields, a surface of each peer, a method with a popup, the focus.
const OPENING: &str =
    "peer\nsurface 1\nfield 1\npeer\nmethod 4\nsurface 4\npopup 5 6\nfield 1\nfocus 2";

// Acts on fields, methods and surfaces, and on peers. A letter stands for a word that is rolled: F, M, S and P for
// labels, mostly of such an object of the opening, L for any label, N for a small number, B for a bit, T for a text, C
// for a place in one.
#[rattlefmt::skip]
static FIELDS: [&str; 16] = [
    "enable F", "enable F", "enable F", "disable F", "surround F T C C", "cause F B", "content F N B",
    "rect F -40 10 2 20", "rect F 850 560 0 0", "rect F 0 0 -1 20", "rect F 100 200 300 80",
    "commit F", "commit F", "commit F", "commit F", "commit F",
];

#[rattlefmt::skip]
static METHODS: [&str; 13] = [
    "mstring M T", "mstring M T", "mpreedit M T C C", "mdelete M B N", "grab M", "popup M L", "mcommit M N",
    "mcommit M N", "mcommit M N", "mcommit M N", "mcommit M N", "mcommit M N", "mcommit M N",
];

#[rattlefmt::skip]
static SURFACES: [&str; 13] = [
    "focus S", "focus S", "unfocus", "area S 100 200 300 80", "screen 1000 700", "mods N 0 0 B", "keymap 1 N 9",
    "repeat 25 6", "key 7 N B", "key 7 N B", "key 7 N B", "key 7 N B", "key 7 N B",
];

// The last four are in no list of lines, and have a form of their own here.
#[rattlefmt::skip]
static PEERS: [&str; 13] = [
    "peer", "gone L", "surface P", "field P", "method P", "method P", "drop L", "drop L", "drop L",
    "sync P", "registry P", "seat P", "bad P",
];

static TEXTS: [&str; 3] = ["-", "6162", "c3a9"];

static PLACES: [&str; 6] = ["-1", "1", "2", "0", "0", "0"];

// The next number below a bound, by a multiplicative counter.
fn roll(seed: &mut u64, bound: u32) -> u32
    requires { 0 < bound }
    ensures { result < bound }
{
    *seed = seed
        .wrapping_mul(6364136223846793005)
        .wrapping_add(1442695040888963407);
    ((*seed >> 33) % bound as u64) as u32
}

// A label, mostly of an object of its kind in the opening.
fn label(seed: &mut u64, one: u32, other: u32) -> u32 {
    match roll(seed, 8) {
        0..=4 => one,
        5 | 6 => other,
        _ => roll(seed, 40),
    }
}

// The line with a word for each letter, and the last number that was rolled.
fn filled(alloc: Global, seed: &mut u64, line: &str) -> Result<(String, u32), AllocError> {
    let mut text = String::new(alloc);
    let mut number = 0;
    for word in line.split(' ') {
        if !text.is_empty() {
            text.push(' ')?;
        }
        match word {
            "T" => text.push_str(TEXTS[roll(seed, 3) as usize])?,
            "C" => text.push_str(PLACES[roll(seed, 6) as usize])?,
            "F" | "M" | "S" | "P" | "L" | "N" | "B" => {
                number = match word {
                    "F" => label(seed, 3, 8),
                    "M" => label(seed, 5, 11),
                    "S" => label(seed, 2, 6),
                    "P" => label(seed, 1, 4),
                    "L" => roll(seed, 40),
                    "N" => roll(seed, 6),
                    _ => roll(seed, 2),
                };
                text.push_str(number.to_string(alloc)?.as_str())?;
            }
            _ => text.push_str(word)?,
        }
    }
    Ok((text, number))
}

fn random_act(alloc: Global, seed: &mut u64) -> Result<Act, Fail> {
    let line = match roll(seed, 16) {
        0..=6 => FIELDS[roll(seed, 16) as usize],
        7..=11 => METHODS[roll(seed, 13) as usize],
        12..=14 => SURFACES[roll(seed, 13) as usize],
        _ => PEERS[roll(seed, 13) as usize],
    };
    let (text, peer) = filled(alloc, seed, line)?;
    if let Some(act) = act_of(alloc, text.as_str())? {
        return Ok(act);
    }
    Ok(match line {
        "sync P" => Act::Sync { peer },
        "seat P" => Act::Seat { peer },
        "registry P" => Act::Registry {
            peer,
            role: Role::App,
        },
        _ => Act::Bad {
            peer,
            fault: Fault::Opcode,
            object: 2,
        },
    })
}

pub(crate) fn random_acts(alloc: Global, seed: u64, count: u32) -> Result<Vec<Act>, Fail> {
    let mut seed = seed;
    let mut acts = acts_of(alloc, OPENING)?;
    for _ in 0..count {
        acts.push(random_act(alloc, &mut seed)?)?;
    }
    Ok(acts)
}
