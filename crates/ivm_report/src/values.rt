//! Values as they are printed.
ghost use Rattle.std.specs.Prelude.{◌≡◌, ◌++◌, ◌∷◌, [], ◌<◌, OnOk};
ghost use Rattle.std.specs.Option.{option_copied};
ghost use Rattle.ivm_text.specs.Text.{utf8_of};
ghost use Rattle.ivm_report.specs.Values.{byte_text, error_name, escaped, hex_digit, node_text, string_text, value_text};

use crate::numbers::push_signed;
use ivm_text::{Copy, CopyNode, ErrorKind, Leaf, NoMemory, Units};
use std::alloc::Global;

/// Appends a value.
pub(crate) fn push_value(alloc: Global, text: &mut Vec<u8>, copy: &Copy) -> Result<(), NoMemory>
    ensures { OnOk result (text.new.items ≡ text.old.items ++ value_text copy.now) }
{
    match copy.root {
        Leaf::Undefined => text.extend_from_slice(b"undefined")?,
        Leaf::Null => text.extend_from_slice(b"null")?,
        Leaf::Bool(true) => text.extend_from_slice(b"true")?,
        Leaf::Bool(false) => text.extend_from_slice(b"false")?,
        Leaf::Num(n) => push_signed(alloc, text, n)?,
        Leaf::Node(k) => push_node(alloc, text, copy.nodes.get(k))?,
    }
    Ok(())
}

fn push_node(alloc: Global, text: &mut Vec<u8>, node: Option<&CopyNode>) -> Result<(), NoMemory>
    ensures { OnOk result (text.new.items ≡ text.old.items ++ node_text (option_copied node.entry)) }
{
    match node {
        Some(CopyNode::Text(units)) => push_string(alloc, text, units)?,
        Some(CopyNode::Error(kind, message)) => {
            text.extend_from_slice(error_name(*kind).as_bytes())?;
            text.push(b'(')?;
            push_string(alloc, text, message)?;
            text.push(b')')?;
        }
        Some(CopyNode::Plain(_)) => text.extend_from_slice(b"object")?,
        Some(CopyNode::Array(_)) => text.extend_from_slice(b"array")?,
        None => text.extend_from_slice(b"no value")?,
    }
    Ok(())
}

fn error_name(kind: ErrorKind) -> &'static str
    ensures { result.now ≡ error_name kind }
{
    match kind {
        ErrorKind::Error => "Error",
        ErrorKind::TypeError => "TypeError",
        ErrorKind::RangeError => "RangeError",
        ErrorKind::ReferenceError => "ReferenceError",
        ErrorKind::SyntaxError => "SyntaxError",
    }
}

/// Appends a string between quotes.
pub(crate) fn push_string(alloc: Global, text: &mut Vec<u8>, units: &Units) -> Result<(), NoMemory>
    ensures { OnOk result (text.new.items ≡ text.old.items ++ string_text units.now) }
{
    let bytes = units.to_utf8(alloc)?;
    text.push(b'"')?;
    for byte in &bytes {
        push_byte(text, *byte)?;
    }
    text.push(b'"')?;
    Ok(())
}

// A byte of a string's text, escaped where it has to be.
fn push_byte(text: &mut Vec<u8>, byte: u8) -> Result<(), NoMemory>
    ensures { OnOk result (text.new.items ≡ text.old.items ++ byte_text byte) }
{
    match byte {
        b'"' => text.extend_from_slice(b"\\\"")?,
        b'\\' => text.extend_from_slice(b"\\\\")?,
        b'\n' => text.extend_from_slice(b"\\n")?,
        b'\r' => text.extend_from_slice(b"\\r")?,
        b'\t' => text.extend_from_slice(b"\\t")?,
        _ if byte < 32 || byte == 127 => push_escaped(text, byte)?,
        _ => text.push(byte)?,
    }
    Ok(())
}

fn push_escaped(text: &mut Vec<u8>, byte: u8) -> Result<(), NoMemory>
    ensures { OnOk result (text.new.items ≡ text.old.items ++ escaped byte) }
{
    text.extend_from_slice(b"\\u00")?;
    text.push(hex_digit(byte / 16))?;
    text.push(hex_digit(byte % 16))?;
    Ok(())
}

fn hex_digit(n: u8) -> u8
    requires { n < 16 }
    ensures { result ≡ hex_digit n }
{
    if n < 10 { 48 + n } else { 87 + n }
}
