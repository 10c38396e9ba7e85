//! Scripts from the lists of their nodes: trees that no text has.
//!
//! A node is `Kind@BYTE`, its own name as `:NAME@BYTE`, its names as `/NAME@BYTE`, and in brackets the numbers of its kids;
//! `-1` is the node just before it.

use anyhow::{Error, bail};
use ivm_text::{Items, Units};
use js_syntax::{Kind, Node, Script};
use std::alloc::Global;

/// The script of nodes with spaces between them; none where one of them can't be added.
pub fn built(alloc: Global, text: &str) -> Result<Option<Script>, Error> {
    let mut script = Script::new(alloc);
    for word in text.split(' ') {
        if !word.is_empty() {
            let node = node_of(alloc, word, script.len())?;
            if !script.may_add(&node) {
                return Ok(None);
            }
            script.add(node)?;
        }
    }
    Ok(Some(script))
}

/// The node that a word writes, with this number.
fn node_of(alloc: Global, word: &str, number: u32) -> Result<Node, Error> {
    let (head, kids) = word.split_once('[').unwrap_or((word, ""));
    let (form, names) = head.split_once('/').unwrap_or((head, ""));
    let (kind, own) = form.split_once(':').unwrap_or((form, ""));
    let (kind, place) = placed(kind)?;
    let mut node = Node {
        kind: kind_named(kind)?,
        name: None,
        name_place: 0,
        names: Items::new(alloc),
        places: Items::new(alloc),
        number: 0,
        kids: Items::new(alloc),
        place,
    };
    if !own.is_empty() {
        let (name, place) = placed(own)?;
        node.name = Some(Units::from_text(alloc, name)?);
        node.name_place = place;
    }
    push_names(alloc, &mut node, names)?;
    push_kids(&mut node, kids, number)?;
    Ok(node)
}

fn push_names(alloc: Global, node: &mut Node, names: &str) -> Result<(), Error> {
    for name in names.split('/') {
        if !name.is_empty() {
            let (name, place) = placed(name)?;
            node.names.push(Units::from_text(alloc, name)?)?;
            node.places.push(place)?;
        }
    }
    Ok(())
}

fn push_kids(node: &mut Node, kids: &str, number: u32) -> Result<(), Error> {
    for kid in kids.split(',') {
        let kid = kid.trim_end_matches(']');
        if kid == "-1" {
            node.kids.push(number.saturating_sub(1))?;
        } else if !kid.is_empty() {
            node.kids.push(kid.parse::<u32>()?)?;
        }
    }
    Ok(())
}

/// A word and its byte.
fn placed(word: &str) -> Result<(&str, u32), Error> {
    match word.split_once('@') {
        Some((word, place)) => Ok((word, place.parse::<u32>()?)),
        None => bail!("{word} has no byte"),
    }
}

fn kind_named(word: &str) -> Result<Kind, Error> {
    match word {
        "Absent" => Ok(Kind::Absent),
        "Assign" => Ok(Kind::Assign),
        "Block" => Ok(Kind::Block),
        "Body" => Ok(Kind::Body),
        "Break" => Ok(Kind::Break),
        "Continue" => Ok(Kind::Continue),
        "Empty" => Ok(Kind::Empty),
        "ExprStmt" => Ok(Kind::ExprStmt),
        "FunctionDecl" => Ok(Kind::FunctionDecl),
        "Let" => Ok(Kind::Let),
        "Num" => Ok(Kind::Num),
        "PreInc" => Ok(Kind::PreInc),
        "Return" => Ok(Kind::Return),
        "Script" => Ok(Kind::Script),
        "Try" => Ok(Kind::Try),
        "While" => Ok(Kind::While),
        _ => bail!("{word} is no kind that a row has"),
    }
}
