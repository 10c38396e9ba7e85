//! Texts of code units as they are printed.

use anyhow::Error;
use ivm_text::Units;
use std::alloc::Global;

/// The text in UTF-8.
pub fn spelled(alloc: Global, units: &Units) -> Result<String, Error> {
    Ok(String::from_utf8_lossy(alloc, &units.to_utf8(alloc)?)?)
}

/// The units in hexadecimal, with dots between them.
pub fn hexadecimal(alloc: Global, units: &Units) -> Result<String, Error> {
    let mut line = String::new(alloc);
    for place in 0..units.len() {
        if let Some(unit) = units.get(place) {
            let between = if place == 0 { "" } else { "." };
            write!(line, "{between}{unit:x}")?;
        }
    }
    Ok(line)
}
