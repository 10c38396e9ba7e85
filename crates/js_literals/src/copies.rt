//! The copy that a literal stands for.

ghost use Rattle.std.specs.Prelude.{◌≡◌, ◌<◌, [], ◌∷◌, length, IfOk, unwrap_or, neg_ℤ};
ghost use Rattle.std.specs.Map.{values_of};
ghost use Rattle.ivm_text.specs.Keys.{HasDistinctKeys};
ghost use Rattle.ivm_text.specs.KeyOrder.{key_order};
ghost use Rattle.js_literals.specs.Copies.{IsCopyOf, AreNodesOf, parts, is_node_kind, is_array, is_object, primitive, constant, is_minus, value_of_first, leaf_at, leaves_from, pairs_from, node_at, members};
ghost use Rattle.js_literals.specs.View.{tree_at, trees_at, Mentions, IsNatural, HasNaturals, AreNumbers, HaveNumbers, pairs_at};

use crate::objects::{entries_of, entry_at};
use indexmap::IndexMap;
use ivm_text::{
    CloneWhole, Copy, CopyNode, CopyNodes, Items, Leaf, Leaves, NoMemory, Pairs, Units,
    places_in_order,
};
use js_syntax::{Kind, Node, Script};
use std::alloc::Global;

/// The copy of the literal at a node.
pub(crate) fn copy_of(alloc: Global, script: &Script, number: u32) -> Result<Copy, NoMemory>
    requires within { number < length script.now }
    requires naturals { HasNaturals (tree_at script.now number) }
    ensures { IfOk result (λ copy. IsCopyOf (tree_at script.now number) copy) }
{
    if is_node(script.node(number).kind) {
        let nodes = nodes_of(alloc, script, number)?;
        Ok(Copy {
            nodes,
            root: Leaf::Node(0),
        })
    } else {
        let root = primitive(script, number);
        Ok(Copy {
            nodes: Items::new(alloc),
            root,
        })
    }
}

/// The nodes of a copy in the order in which they are first mentioned.
fn nodes_of(alloc: Global, script: &Script, root: u32) -> Result<CopyNodes, NoMemory>
    requires within { root < length script.now }
    requires naturals { HasNaturals (tree_at script.now root) }
    ensures { IfOk result (AreNodesOf (tree_at script.now root)) }
{
    let mut mentioned = Items::new(alloc);
    mentioned.push(root)?;
    let mut nodes = Items::new(alloc);
    while nodes.len() < mentioned.len() {
        let number = mentioned.as_slice()[nodes.len() as usize];
        let node = node_of(alloc, script, &mut mentioned, number)?;
        nodes.push(node)?;
    }
    Ok(nodes)
}

/// One node of a copy. Those that it holds are mentioned.
fn node_of(
    alloc: Global,
    script: &Script,
    mentioned: &mut Items<u32>,
    number: u32,
) -> Result<CopyNode, NoMemory>
    requires within { number < length script.now }
    requires naturals { HasNaturals (tree_at script.now number) }
    ensures node { IfOk result (λ node. node ≡ node_at (length mentioned.old) (tree_at script.now number)) }
    ensures mentioned { IfOk result (λ _. Mentions script.now (members (tree_at script.now number)) mentioned.old mentioned.new) }
{
    let node = script.node(number);
    if is_array(node.kind) {
        let elements = leaves_of(alloc, script, mentioned, node.kids.as_slice())?;
        Ok(CopyNode::Array(elements))
    } else if is_object(node.kind) {
        let entries = entries_of(alloc, node)?;
        let properties = leaves_by_key(alloc, script, mentioned, &entries)?;
        Ok(CopyNode::Plain(properties))
    } else {
        let text = text_of(alloc, &node.name)?;
        Ok(CopyNode::Text(text))
    }
}

/// The units of a string.
fn text_of(alloc: Global, name: &Option<Units>) -> Result<Units, NoMemory>
    ensures { IfOk result (λ text. text ≡ unwrap_or name.now []) }
{
    match name {
        Some(units) => Ok(units.clone_whole(alloc)?),
        None => Ok(Units::new(alloc)),
    }
}

/// The leaves of an array's elements.
fn leaves_of(
    alloc: Global,
    script: &Script,
    mentioned: &mut Items<u32>,
    kids: &[u32],
) -> Result<Leaves, NoMemory>
    requires { AreNumbers script.now kids.now }
    ensures leaves { IfOk result (λ leaves. leaves ≡ leaves_from (length mentioned.old) (trees_at script.now kids.now)) }
    ensures mentioned { IfOk result (λ _. Mentions script.now (trees_at script.now kids.now) mentioned.old mentioned.new) }
{
    let mut leaves = Items::new(alloc);
    for kid in kids {
        let leaf = leaf_of(script, mentioned, *kid)?;
        leaves.push(leaf)?;
    }
    Ok(leaves)
}

/// The keys of an object in key order, each with the leaf of its value.
fn leaves_by_key(
    alloc: Global,
    script: &Script,
    mentioned: &mut Items<u32>,
    entries: &IndexMap<Units, u32>,
) -> Result<Pairs, NoMemory>
    requires numbers { HaveNumbers script.now entries.now.entries }
    requires distinct { HasDistinctKeys entries.now.entries }
    ensures pairs { IfOk result (λ pairs. pairs ≡ pairs_from (length mentioned.old) (pairs_at script.now (key_order entries.now.entries))) }
    ensures mentioned { IfOk result (λ _. Mentions script.now (values_of (pairs_at script.now (key_order entries.now.entries))) mentioned.old mentioned.new) }
{
    let places = places_in_order(alloc, entries)?;
    let mut pairs = Items::new(alloc);
    for place in &places {
        let (key, kid) = entry_at(entries, *place);
        let leaf = leaf_of(script, mentioned, kid)?;
        let own_key = key.clone_whole(alloc)?;
        pairs.push((own_key, leaf))?;
    }
    Ok(Pairs::from_items(pairs))
}

/// The leaf of a literal. Where it is a node, it is mentioned.
fn leaf_of(script: &Script, mentioned: &mut Items<u32>, number: u32) -> Result<Leaf, NoMemory>
    requires within { number < length script.now }
    requires naturals { HasNaturals (tree_at script.now number) }
    ensures leaf { IfOk result (λ leaf. leaf ≡ leaf_at (length mentioned.old) (tree_at script.now number)) }
    ensures mentioned { IfOk result (λ _. Mentions script.now (tree_at script.now number ∷ []) mentioned.old mentioned.new) }
{
    if is_node(script.node(number).kind) {
        let node = mentioned.len();
        mentioned.push(number)?;
        Ok(Leaf::Node(node))
    } else {
        Ok(primitive(script, number))
    }
}

/// What a literal that is no node stands for.
fn primitive(script: &Script, number: u32) -> Leaf
    requires within { number < length script.now }
    requires naturals { HasNaturals (tree_at script.now number) }
    ensures { result ≡ primitive (tree_at script.now number) }
{
    let node = script.node(number);
    if is_minus(node.kind) {
        negative(script, number)
    } else {
        constant(node)
    }
}

/// The negative of a literal's first part, which is a number.
fn negative(script: &Script, number: u32) -> Leaf
    requires within { number < length script.now }
    requires naturals { HasNaturals (tree_at script.now number) }
    ensures { result ≡ Leaf.Num (neg_ℤ (value_of_first (parts (tree_at script.now number)))) }
{
    match script.node(number).kids.as_slice() {
        [kid, ..] => negated(script.node(*kid)),
        [] => Leaf::Num(0),
    }
}

/// The negative of a node's number.
fn negated(node: &Node) -> Leaf
    requires { IsNatural node.now.number }
    ensures { result ≡ Leaf.Num (neg_ℤ node.now.number) }
{
    Leaf::Num(-node.number)
}

/// What a literal of one token stands for.
fn constant(node: &Node) -> Leaf
    ensures { result ≡ constant node.now.kind node.now.number }
{
    match node.kind {
        Kind::Null => Leaf::Null,
        Kind::True => Leaf::Bool(true),
        Kind::False => Leaf::Bool(false),
        Kind::Num => Leaf::Num(node.number),
        _ => Leaf::Undefined,
    }
}

fn is_minus(kind: Kind) -> bool
    ensures { result ≡ is_minus kind }
{
    match kind {
        Kind::Minus => true,
        _ => false,
    }
}

/// Whether a literal is a node of its copy.
fn is_node(kind: Kind) -> bool
    ensures { result ≡ is_node_kind kind }
{
    match kind {
        Kind::Text | Kind::Array | Kind::Object => true,
        _ => false,
    }
}

fn is_array(kind: Kind) -> bool
    ensures { result ≡ is_array kind }
{
    match kind {
        Kind::Array => true,
        _ => false,
    }
}

fn is_object(kind: Kind) -> bool
    ensures { result ≡ is_object kind }
{
    match kind {
        Kind::Object => true,
        _ => false,
    }
}
