//! Scripts of tests.
use rand_core::SeedableRng;
use rand_core::utils::NextWord;
use rand_pcg::Lcg64Xsh32;
use std::alloc::Global;
use std::test::Fail;

/// The parts, each so often, with a line feed in place of each `;`.
pub fn lines(alloc: Global, parts: &[(&str, usize)]) -> Result<String, Fail> {
    let mut text = String::new(alloc);
    for &(part, times) in parts {
        for _ in 0..times {
            for letter in part.chars() {
                text.push(if letter == ';' { '\n' } else { letter })?;
            }
        }
    }
    Ok(text)
}

// The line of an action that a word draws, of so many fields.
fn drawn(alloc: Global, word: u32, fields: u32) -> Result<String, Fail> {
    let field = (word / 256)
        .checked_rem(fields)
        .unwrap_or(0)
        .saturating_add(1);
    let value = (word / 65536) % 26;
    Ok(match word % 4 {
        0 => format!(in alloc; "use {field}\n")?,
        1 => format!(in alloc; "press {}\n", 1 + value)?,
        2 => format!(in alloc; "insert {field} {:02x}\n", 97 + value)?,
        _ => format!(in alloc; "rub {field}\n")?,
    })
}

/// The script of a number: so many actions of so many fields, and a letter for each of 26 keys.
pub fn script_of(alloc: Global, number: u64, fields: u32, actions: u32) -> Result<String, Fail> {
    let mut script = String::from_str(alloc, "trial 1\n")?;
    for key in 1u32..27 {
        let line = format!(in alloc; "single {key} {:02x}\n", 96 + key)?;
        script.push_str(line.as_str())?;
    }
    let line = format!(in alloc; "fields {fields}\n")?;
    script.push_str(line.as_str())?;
    let mut words = Lcg64Xsh32::seed_from_u64(number);
    for _ in 0..actions {
        let line = drawn(alloc, words.next_word(), fields)?;
        script.push_str(line.as_str())?;
    }
    script.push_str("end\n")?;
    Ok(script)
}
