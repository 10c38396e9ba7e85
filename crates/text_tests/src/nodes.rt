//! A script as the list of its nodes, and what its lists declare.

use crate::spelling::{hexadecimal, spelled};
use anyhow::Error;
use ivm_text::Units;
use js_syntax::{Kind, Script};
use js_trees::{Declaration, declarations, kind, name, names, node_place, number};
use std::alloc::Global;

/// A node is `Kind@BYTE`, a number's `=VALUE`, its own name as `:NAME`, its names as `/NAME`, and the numbers of its kids.
/// Where it has to be exact, a name is its units in hexadecimal.
pub fn nodes_line(alloc: Global, script: &Script, exact: bool) -> Result<String, Error> {
    let mut line = String::new(alloc);
    for n in 0..script.len() {
        let between = if n == 0 { "" } else { " " };
        write!(
            line,
            "{between}{:?}@{}",
            kind(script, n),
            node_place(script, n)
        )?;
        if kind(script, n) == Kind::Num {
            write!(line, "={}", number(script, n))?;
        }
        if let Some(name) = name(script, n) {
            write!(line, ":{}", written(alloc, name, exact)?)?;
        }
        for name in names(script, n).as_slice() {
            write!(line, "/{}", written(alloc, name, exact)?)?;
        }
        if script.node(n).kids.len() > 0 {
            write!(line, "{:?}", script.node(n).kids.as_slice())?;
        }
    }
    Ok(line)
}

fn written(alloc: Global, name: &Units, exact: bool) -> Result<String, Error> {
    if exact {
        hexadecimal(alloc, name)
    } else {
        spelled(alloc, name)
    }
}

/// How many nodes stand for a form, of how many there are.
pub fn forms_line(alloc: Global, script: &Script) -> Result<String, Error> {
    let mut forms = 0u32;
    for n in 0..script.len() {
        if script.node(n).kind != Kind::Absent {
            forms = forms.saturating_add(1);
        }
    }
    Ok(format!(in alloc; "{forms} of {}", script.len())?)
}

/// Each node that declares something, with what it declares.
pub fn declared_line(alloc: Global, script: &Script) -> Result<String, Error> {
    let mut line = String::new(alloc);
    for n in 0..script.len() {
        let mut between = if line.is_empty() { "" } else { "; " };
        let mut node = format!(in alloc; "{n}: ")?;
        for declaration in declarations(alloc, script, n)?.as_slice() {
            write!(line, "{between}{node}{}", declared(alloc, declaration)?)?;
            between = ", ";
            node.clear();
        }
    }
    Ok(line)
}

fn declared(alloc: Global, declaration: &Declaration) -> Result<String, Error> {
    match declaration {
        Declaration::Variable(name) => Ok(format!(in alloc; "let {}", spelled(alloc, name)?)?),
        Declaration::Constant(name) => Ok(format!(in alloc; "const {}", spelled(alloc, name)?)?),
        Declaration::Function(name, node) => {
            Ok(format!(in alloc; "function {} at {node}", spelled(alloc, name)?)?)
        }
    }
}
