//! Lists, by what is done to them.

use anyhow::Error;
use ivm_text::{CloneWhole, Items};
use std::alloc::Global;

/// The items of a copy of a list at the end, and what its calls told before. `+N` adds an item, `P=N` sets one, `P:N` puts one
/// in the place of another, which is told, `?P` asks for one, and `-` takes the last one off.
pub fn items_line(alloc: Global, text: &str) -> Result<String, Error> {
    let mut list: Items<u8> = Items::new(alloc);
    let mut line = String::new(alloc);
    for word in text.split(' ') {
        line.push_str(&call(alloc, &mut list, word)?)?;
    }
    let items = list.clone_whole(alloc)?.into_vec();
    Ok(format!(in alloc; "{:?} of {}{line}", items.as_slice(), list.len())?)
}

fn call(alloc: Global, list: &mut Items<u8>, word: &str) -> Result<String, Error> {
    if let Some(item) = word.strip_prefix('+') {
        list.push(item.parse::<u8>()?)?;
        return Ok(String::new(alloc));
    }
    if let Some((place, item)) = word.split_once('=') {
        let place = place.parse::<u32>()?;
        let item = item.parse::<u8>()?;
        if place < list.len() {
            list.set(place, item);
        }
        return Ok(String::new(alloc));
    }
    let told = asked(list, word)?;
    match told {
        Some(item) => Ok(format!(in alloc; " {item}")?),
        None => Ok(String::from_str(alloc, " none")?),
    }
}

fn asked(list: &mut Items<u8>, word: &str) -> Result<Option<u8>, Error> {
    if let Some(place) = word.strip_prefix('?') {
        return Ok(list.get(place.parse::<u32>()?).copied());
    }
    let Some((place, item)) = word.split_once(':') else {
        return Ok(list.pop());
    };
    let place = place.parse::<u32>()?;
    let item = item.parse::<u8>()?;
    if place < list.len() {
        return Ok(Some(list.replace(place, item)));
    }
    Ok(None)
}
