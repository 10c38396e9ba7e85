//! Code units, numbers and keys.

use crate::spelling::{hexadecimal, spelled};
use anyhow::{Error, bail};
use indexmap::IndexMap;
use ivm_text::{TextFault, Units, places_in_order};
use std::alloc::Global;

/// The units of bytes in UTF-8, and the text that they are written as.
pub fn units_line(alloc: Global, bytes: &[u8]) -> Result<String, Error> {
    match Units::from_utf8(alloc, bytes) {
        Ok(units) if units.len() == 0 => spelled(alloc, &units),
        Ok(units) => {
            Ok(format!(in alloc;
                "{} {}",
                hexadecimal(alloc, &units)?,
                spelled(alloc, &units)?
            )?)
        }
        Err(TextFault::BadUtf8(place)) => Ok(format!(in alloc; "BadUtf8 {place}")?),
        Err(TextFault::NoMemory) => bail!("no memory"),
    }
}

/// Of two texts with a comma between them, how many units they have together, and whether the first stands before the second.
pub fn pair_line(alloc: Global, text: &str) -> Result<String, Error> {
    let Some((first, second)) = text.split_once(',') else {
        bail!("a pair has a comma");
    };
    let first = Units::from_text(alloc, first)?;
    let second = Units::from_text(alloc, second)?;
    let both = first.join(alloc, &second)?;
    let order = if first.less(&second) {
        "less"
    } else {
        "not less"
    };
    Ok(format!(in alloc; "{} {order}", both.len())?)
}

/// The number of which a text is the decimal text, or `none`.
pub fn whole_line(alloc: Global, text: &str) -> Result<String, Error> {
    match Units::from_text(alloc, text)?.read_whole() {
        Some(number) => spelled(alloc, &Units::decimal(alloc, number)?),
        None => Ok(String::from_str(alloc, "none")?),
    }
}

/// Keys with spaces between them, in their order.
pub fn keys_line(alloc: Global, text: &str) -> Result<String, Error> {
    let mut entries = IndexMap::new(alloc);
    for key in text.split(' ') {
        entries.insert(Units::from_text(alloc, key)?, ())?;
    }
    let mut line = String::new(alloc);
    for place in places_in_order(alloc, &entries)?.as_slice() {
        let between = if line.is_empty() { "" } else { " " };
        if let Some((key, _)) = entries.get_index(*place) {
            write!(line, "{between}{}", spelled(alloc, key)?)?;
        }
    }
    Ok(line)
}
