//! Cells as sums of prices: `s+2b` is a scope with two bindings. README.md has the letters.

use anyhow::{Error, bail};
use charged_heap::{
    BINDING_CELLS, ELEMENT_CELLS, ITEM_CELLS, PROPERTY_CELLS, REACTION_CELLS, ROW_CELLS,
    SCOPE_CELLS, TEXT_CELLS, UNITS_PER_CELL,
};
use std::alloc::Global;

/// The cells of a sum.
pub fn sum_of(field: &str) -> Result<u64, Error> {
    let mut sum: u64 = 0;
    for term in field.split('+') {
        sum = sum.saturating_add(cells_of(term)?);
    }
    Ok(sum)
}

/// The cells of several charges with `, ` between two; with a `-` those of one that is given back.
pub fn total_of(field: &str) -> Result<i64, Error> {
    if let Some(given) = field.strip_prefix('-') {
        return Ok(0i64.saturating_sub(i64::try_from(sum_of(given)?)?));
    }
    let mut total: u64 = 0;
    for charge in field.split(", ") {
        total = total.saturating_add(sum_of(charge)?);
    }
    Ok(i64::try_from(total)?)
}

/// A sum as a limit of a heap.
pub fn limit_of(sum: u64) -> Result<u32, Error> {
    Ok(u32::try_from(sum)?)
}

/// An answer, where the numbers of a full heap are sums: `memory charged=2i asked=e limit=2i`.
pub fn answer_of(alloc: Global, field: &str) -> Result<String, Error> {
    let Some(numbers) = field.strip_prefix("memory ") else {
        return Ok(String::from_str(alloc, field)?);
    };
    let mut answer = String::from_str(alloc, "memory")?;
    for number in numbers.split(' ') {
        let Some((name, sum)) = number.split_once('=') else {
            bail!("{field}: a number of a full heap has a name and a sum");
        };
        write!(answer, " {name}={}", sum_of(sum)?)?;
    }
    Ok(answer)
}

/// The cells of a number by itself, or of so many parts of a letter, of a text of so many units.
fn cells_of(term: &str) -> Result<u64, Error> {
    let mut count: u64 = 0;
    let mut letter = None;
    let mut units: u64 = 0;
    for sign in term.chars() {
        match (sign.to_digit(10), letter) {
            (Some(digit), None) => count = with_digit(count, digit),
            (Some(digit), Some(_)) => units = with_digit(units, digit),
            (None, _) => letter = Some(sign),
        }
    }
    match letter {
        Some(letter) => Ok(count.max(1).saturating_mul(price_of(letter, units)?)),
        None => Ok(count),
    }
}

fn with_digit(number: u64, digit: u32) -> u64 {
    number.saturating_mul(10).saturating_add(u64::from(digit))
}

fn price_of(letter: char, units: u64) -> Result<u64, Error> {
    let begun = units.div_ceil(UNITS_PER_CELL);
    Ok(match letter {
        '∅' => 0,
        'i' => ITEM_CELLS,
        'p' => PROPERTY_CELLS.saturating_add(begun),
        'e' => ELEMENT_CELLS,
        't' => TEXT_CELLS.saturating_add(begun),
        's' => SCOPE_CELLS,
        'b' => BINDING_CELLS,
        'r' => REACTION_CELLS,
        'w' => ROW_CELLS,
        'c' => ITEM_CELLS * 2 + SCOPE_CELLS + ROW_CELLS,
        _ => bail!("{letter}: no letter of a price"),
    })
}
