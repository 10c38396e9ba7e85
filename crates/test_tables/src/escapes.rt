//! What a field stands for. README.md tells the escapes.

use anyhow::{Error, bail};
use std::alloc::Global;

/// The text that a field stands for.
pub fn text_of(alloc: Global, field: &str) -> Result<String, Error> {
    let bytes = bytes_of(alloc, field)?;
    Ok(String::from_utf8_lossy(alloc, &bytes)?)
}

/// The bytes that a field stands for.
pub fn bytes_of(alloc: Global, field: &str) -> Result<Vec<u8>, Error> {
    let mut bytes = Vec::new(alloc);
    for (number, piece) in field.split('‹').enumerate() {
        if number == 0 {
            push_signs(&mut bytes, piece)?;
        } else {
            push_escaped(&mut bytes, piece)?;
        }
    }
    Ok(bytes)
}

/// A piece behind a `‹`: a number up to its `›`, and signs.
fn push_escaped(bytes: &mut Vec<u8>, piece: &str) -> Result<(), Error> {
    let Some((number, signs)) = piece.split_once('›') else {
        bail!("a ‹ has no › behind it: {piece}");
    };
    match number.strip_prefix('x') {
        Some(byte) => bytes.push(u8::from_str_radix(byte, 16)?)?,
        None => push_code(bytes, u32::from_str_radix(number, 16)?)?,
    }
    push_signs(bytes, signs)
}

fn push_code(bytes: &mut Vec<u8>, code: u32) -> Result<(), Error> {
    match char::from_u32(code) {
        Some(letter) => push_char(bytes, letter),
        None => bail!("no character has the number {code}"),
    }
}

fn push_signs(bytes: &mut Vec<u8>, signs: &str) -> Result<(), Error> {
    for sign in signs.chars() {
        match sign {
            '∅' => {}
            '␊' => bytes.push(b'\n')?,
            '␍' => bytes.push(b'\r')?,
            '␉' => bytes.push(b'\t')?,
            '␠' => bytes.push(b' ')?,
            _ => push_char(bytes, sign)?,
        }
    }
    Ok(())
}

fn push_char(bytes: &mut Vec<u8>, letter: char) -> Result<(), Error> {
    let mut buffer = [0u8; 4];
    let written = letter.encode_utf8(&mut buffer);
    bytes.extend_from_slice(written.as_bytes())?;
    Ok(())
}
