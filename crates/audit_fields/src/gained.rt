//! Those for whom something may be stored.
ghost use Rattle.std.specs.Prelude.{◌≡◌, ◌==◌, ◌++◌, ◌∷◌, [], ℕ, List, OnOk, filter, not};
ghost use Rattle.audit_fields.specs.Gathering.{gained_by, is_gained, IsLeast};

use wio_core::NoMemory;

// Whether the peer with the number gained.
fn is_gained(gained: &[u32], number: u32) -> bool
    ensures { result ≡ is_gained number gained.now }
{
    gained.iter().any(|other| *other == number)
}

/// The peer with the number gained, whether or not it had before.
pub(crate) fn gain(gained: &mut Vec<u32>, number: u32) -> Result<(), NoMemory>
    ensures { OnOk result (gained.new.items ≡ gained_by number gained.old.items) }
{
    if !is_gained(gained, number) {
        gained.push(number)?;
    }
    Ok(())
}

/// The peer with the number is none of them any more, and all others stay.
pub(crate) fn lose(gained: &mut Vec<u32>, number: u32)
    ensures { gained.new.items ≡ filter (λ x. not (x == number)) gained.old.items }
{
    gained.retain(|other| *other != number);
}

// The lower of two numbers, where the one is above and not past the most.
fn lesser(least: Option<u32>, number: u32, above: u32, most: usize) -> Option<u32>
    ensures { (gained : List ℕ) → IsLeast gained above most least →
        IsLeast (gained ++ number ∷ []) above most result }
{
    if number <= above || number as usize > most {
        return least;
    }
    match least {
        Some(other) if other <= number => Some(other),
        _ => Some(number),
    }
}

/// The lowest number of one of them, above the one and not past the most.
pub(crate) fn least_above(gained: &[u32], above: u32, most: usize) -> Option<u32>
    ensures { IsLeast gained.now above most result }
{
    let mut least = None;
    for number in gained {
        least = lesser(least, *number, above, most);
    }
    least
}
