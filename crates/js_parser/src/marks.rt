//! The nodes that the last one reaches.

ghost use Rattle.std.specs.Prelude.{◌≡◌, ◌<◌, false, length, replicate, IfOk, OnOk};
ghost use Rattle.js_syntax.specs.Shape.{AreBelow};
ghost use Rattle.js_parser.specs.Marks.{is_marked as is_mark, with_marks, passed_on, marks_of as marks_in, AreDescending};

use crate::nodes::Nodes;
use ivm_text::{Items, NoMemory};
use js_syntax::Node;
use std::alloc::Global;

/// A mark on each node that the root reaches, by the nodes' numbers.
pub(crate) type Marks = Items<bool>;

/// Whether a number is marked.
pub(crate) fn is_marked(marks: &Marks, n: u32) -> bool
    ensures { result ≡ is_mark marks.now n }
{
    marks.get(n).copied().unwrap_or(false)
}

// No mark for so many nodes.
fn unmarked(alloc: Global, count: u32) -> Result<Marks, NoMemory>
    ensures { IfOk result (λ marks. marks ≡ replicate count false) }
{
    let mut marks = Items::new(alloc);
    for _n in 0..count {
        marks.push(false)?;
    }
    Ok(marks)
}

// Marks these numbers.
fn mark_all(numbers: &[u32], marks: &mut Marks)
    requires { AreBelow numbers.now (length marks.old) }
    ensures { marks.new ≡ with_marks numbers.now marks.old }
{
    let mut left = numbers;
    while let [number, rest @ ..] = left {
        marks.set(*number, true);
        left = rest;
    }
}

// A node that is marked passes its mark on to its kids.
fn pass_on(node: &Node, n: u32, marks: &mut Marks)
    requires { AreBelow node.now.kids (length marks.old) }
    ensures { marks.new ≡ passed_on (is_mark marks.old n) node.now marks.old }
{
    if is_marked(marks, n) {
        mark_all(node.kids.as_slice(), marks);
    }
}

/// The nodes that the root, which is the last one, reaches. Each kid stands below its parent, so one
/// pass from the root down finds them all.
pub(crate) fn marks_of(alloc: Global, nodes: &Nodes) -> Result<Marks, NoMemory>
    requires { 0 < length nodes.now }

    ensures marks { IfOk result (λ marks. marks ≡ marks_in nodes.now) }
    ensures below { IfOk result (λ _. AreDescending nodes.now) }
{
    let mut marks = unmarked(alloc, nodes.len())?;
    marks.set(nodes.len() - 1, true);
    let mut left = nodes.len();
    while left > 0 {
        left -= 1;
        pass_on(nodes.node(left), left, &mut marks);
    }
    Ok(marks)
}
