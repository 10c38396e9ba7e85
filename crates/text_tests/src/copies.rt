//! What literals and arguments stand for.
//!
//! A copy is its root and then its nodes in order: `#1` is the node with the number 1, a string stands in quotes, an array
//! in brackets, and an object in braces, each key with `:` and its leaf. Arguments have `; ` between them, and a form is its
//! word and its name.

use crate::spelling::spelled;
use anyhow::Error;
use ivm_text::{Copy, CopyNode, Items, Leaf};
use js_literals::{Argument, FormKind};
use std::alloc::Global;

/// That a copy may go to another thread is proved where this is called.
fn sends<T: Send>(_value: &T) {}

/// A copy, printed from a clone of it.
pub fn copy_line(alloc: Global, copy: &Copy) -> Result<String, Error> {
    sends(copy);
    let clone = copy.clone_copy(alloc)?;
    let mut line = leaf_text(alloc, clone.root)?;
    for node in clone.nodes.as_slice() {
        write!(line, " {}", node_text(alloc, node)?)?;
    }
    Ok(line)
}

pub fn arguments_line(alloc: Global, told: &Items<Argument>) -> Result<String, Error> {
    let mut line = String::new(alloc);
    for argument in told.as_slice() {
        let between = if line.is_empty() { "" } else { "; " };
        let shown = match argument {
            Argument::Literal(copy) => copy_line(alloc, copy)?,
            Argument::Form(form, name) => {
                format!(in alloc; "{} {}", word_of(*form), spelled(alloc, name)?)?
            }
        };
        write!(line, "{between}{shown}")?;
    }
    Ok(line)
}

fn word_of(form: FormKind) -> &'static str {
    match form {
        FormKind::Ref => "ref",
        FormKind::Deref => "deref",
        FormKind::Copy => "copy",
        FormKind::Into => "into",
        FormKind::Callback => "callback",
    }
}

fn node_text(alloc: Global, node: &CopyNode) -> Result<String, Error> {
    let mut line = String::new(alloc);
    let mut between = "";
    match node {
        CopyNode::Text(units) => write!(line, "{:?}", spelled(alloc, units)?)?,
        CopyNode::Array(leaves) => {
            for leaf in leaves.as_slice() {
                write!(line, "{between}{}", leaf_text(alloc, *leaf)?)?;
                between = " ";
            }
            line = format!(in alloc; "[{line}]")?;
        }
        CopyNode::Plain(pairs) => {
            for (key, leaf) in pairs.as_slice() {
                write!(
                    line,
                    "{between}{}:{}",
                    spelled(alloc, key)?,
                    leaf_text(alloc, *leaf)?
                )?;
                between = " ";
            }
            line = format!(in alloc; "{{{line}}}")?;
        }
        CopyNode::Error(kind, message) => {
            write!(line, "{kind:?}({:?})", spelled(alloc, message)?)?;
        }
    }
    Ok(line)
}

fn leaf_text(alloc: Global, leaf: Leaf) -> Result<String, Error> {
    match leaf {
        Leaf::Undefined => Ok(String::from_str(alloc, "undefined")?),
        Leaf::Null => Ok(String::from_str(alloc, "null")?),
        Leaf::Bool(value) => Ok(format!(in alloc; "{value}")?),
        Leaf::Num(number) => Ok(format!(in alloc; "{number}")?),
        Leaf::Node(number) => Ok(format!(in alloc; "#{number}")?),
    }
}
