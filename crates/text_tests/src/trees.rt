//! A script as forms inside one another.
//!
//! `(Kind@BYTE ..)` is a node: its own name as `:NAME@BYTE`, its names as `/NAME@BYTE`, then its kids. A node without any of
//! these has no parentheses. A Name is `NAME@BYTE`, a number `VALUE@BYTE`, a string `"TEXT"@BYTE`, an Absent `-`. A script is
//! its statements in a row.

use crate::spelling::spelled;
use anyhow::Error;
use js_syntax::{Kind, Node, Script};
use std::alloc::Global;

/// Each node is written from what was written of its kids.
pub fn trees_line(alloc: Global, script: &Script) -> Result<String, Error> {
    let mut written = Vec::new(alloc);
    for number in 0..script.len() {
        let line = tree(alloc, script.node(number), &written)?;
        written.push(line)?;
    }
    match written.pop() {
        Some(last) => Ok(last),
        None => Ok(String::new(alloc)),
    }
}

fn tree(alloc: Global, node: &Node, written: &[String]) -> Result<String, Error> {
    let place = node.place;
    let own = match &node.name {
        Some(name) => spelled(alloc, name)?,
        None => String::new(alloc),
    };
    match node.kind {
        Kind::Script if place == 0 => {
            let kids = kids(alloc, node, written)?;
            Ok(String::from_str(alloc, kids.trim_start())?)
        }
        Kind::Absent if place == 0 => Ok(String::from_str(alloc, "-")?),
        Kind::Num => Ok(format!(in alloc; "{}@{place}", node.number)?),
        Kind::Name if node.name_place == place => Ok(format!(in alloc; "{own}@{place}")?),
        Kind::Text if node.name_place == place => Ok(format!(in alloc; "\"{own}\"@{place}")?),
        _ => form(alloc, node, &kids(alloc, node, written)?),
    }
}

/// A node with its names over what was written of its kids.
fn form(alloc: Global, node: &Node, kids: &str) -> Result<String, Error> {
    let head = format!(in alloc; "{:?}@{}", node.kind, node.place)?;
    let mut names = String::new(alloc);
    if let Some(name) = &node.name {
        write!(names, " :{}@{}", spelled(alloc, name)?, node.name_place)?;
    }
    for (name, place) in node.names.as_slice().iter().zip(node.places.as_slice()) {
        write!(names, " /{}@{place}", spelled(alloc, name)?)?;
    }
    if names.is_empty() && kids.is_empty() {
        return Ok(head);
    }
    Ok(format!(in alloc; "({head}{names}{kids})")?)
}

/// What was written of the kids, a space before each.
fn kids(alloc: Global, node: &Node, written: &[String]) -> Result<String, Error> {
    let mut line = String::new(alloc);
    for kid in node.kids.as_slice() {
        if let Some(part) = written.get(*kid as usize) {
            write!(line, " {part}")?;
        }
    }
    Ok(line)
}
