//! The early faults of a form and its parts, wherever it stands.
ghost use Rattle.std.specs.Prelude.{◌≡◌, slice_get, IfOk};
ghost use Rattle.js_syntax.specs.Faults.{has_target, is_target};
ghost use Rattle.js_syntax.specs.Noted.{target_at, fault_in, noted_fault, parts_fault, fault_over, around_of, AreWorkedOut, least};

use crate::fault::earlier_of;
use crate::listing::{may_share, must_differ};
use crate::twice::first_twice;
use crate::{Around, Fault, FaultKind, Kind, Node};
use ivm_text::NoMemory;
use std::alloc::Global;

/// The fault that is told of a form and its parts, in each of the places where it may stand.
#[derive(Debug, Clone, Copy)]
pub struct Faults {
    /// Neither in a function nor in a loop.
    pub outside: Option<Fault>,
    /// In a loop, and in no function.
    pub in_loop: Option<Fault>,
    /// In a function, and in no loop of it.
    pub in_function: Option<Fault>,
    /// In a loop of a function.
    pub in_both: Option<Fault>,
}

impl Faults {
    /// The fault that is told where the form stands in such a place.
    pub(crate) fn told(self, around: Around) -> Option<Fault>
        ensures { result ≡ fault_in self around }
    {
        match (around.in_function, around.in_loop) {
            (true, true) => self.in_both,
            (true, false) => self.in_function,
            (false, true) => self.in_loop,
            (false, false) => self.outside,
        }
    }
}

// Whether the first part of such a form is a target.
fn has_target(kind: Kind) -> bool
    ensures { result ≡ has_target kind }
{
    matches!(
        kind,
        Kind::Assign
            | Kind::AssignAdd
            | Kind::AssignSub
            | Kind::AssignMul
            | Kind::AssignDiv
            | Kind::AssignRem
            | Kind::PreInc
            | Kind::PreDec
            | Kind::PostInc
            | Kind::PostDec
    )
}

// Whether such a form can be assigned to.
fn is_target(kind: Kind) -> bool
    ensures { result ≡ is_target kind }
{
    matches!(kind, Kind::Name | Kind::Member | Kind::Index)
}

// The fault of a target that can't be assigned to.
fn bad_target(nodes: &[Node], kind: Kind, kids: &[u32]) -> Option<Fault>
    ensures { result ≡ least (target_at kind nodes.now kids.now) }
{
    let [first, ..] = kids else {
        return None;
    };
    let target = nodes.get(*first as usize)?;
    if has_target(kind) && !is_target(target.kind) {
        return Some(Fault {
            kind: FaultKind::BadTarget,
            place: target.place,
        });
    }
    None
}

// The fault that is told of the part with this number.
fn part_fault(noted: &[Faults], around: Around, kid: u32) -> Option<Fault>
    ensures { result ≡ noted_fault (slice_get noted.now kid) around }
{
    noted.get(kid as usize)?.told(around)
}

// The fault that is told of the parts with these numbers.
fn parts_fault(noted: &[Faults], around: Around, kids: &[u32]) -> Option<Fault>
    ensures { result ≡ parts_fault noted.now around kids.now }
{
    let mut told = None;
    let mut left = kids;
    while let [kid, rest @ ..] = left {
        told = earlier_of(told, part_fault(noted, around, *kid));
        left = rest;
    }
    told
}

// The fault that is told of a node and its parts in such a place, where `own` is that of its own
// names and targets.
fn fault_with(
    noted: &[Faults],
    node: &Node,
    own: Option<Fault>,
    in_function: bool,
    in_loop: bool,
) -> Option<Fault>
    ensures { result ≡ fault_over noted.now node.now own (around_of in_function in_loop) }
{
    let around = Around {
        in_function,
        in_loop,
    };
    let parts = parts_fault(noted, around.within(node.kind), node.kids.as_slice());
    earlier_of(around.stray(node.kind, node.place), earlier_of(own, parts))
}

/// The faults of a node over those that are noted of the nodes below it.
pub(crate) fn faults_with(
    alloc: Global,
    nodes: &[Node],
    noted: &[Faults],
    node: &Node,
) -> Result<Faults, NoMemory>
    ensures { IfOk result (AreWorkedOut nodes.now noted.now node.now) }
{
    let names = must_differ(alloc, nodes, node)?;
    let twice = first_twice(alloc, may_share(node.kind), names.as_slice())?;
    let own = earlier_of(bad_target(nodes, node.kind, node.kids.as_slice()), twice);
    Ok(Faults {
        outside: fault_with(noted, node, own, false, false),
        in_loop: fault_with(noted, node, own, false, true),
        in_function: fault_with(noted, node, own, true, false),
        in_both: fault_with(noted, node, own, true, true),
    })
}
