//! What stands at a node of a script by numbers; nothing where there is no such node.
ghost use Rattle.std.specs.Prelude.{◌≡◌, ◌<◌, [], length, IfOk, MatchOption};
ghost use Rattle.std.specs.Option.{option_copied};
ghost use Rattle.js_trees.specs.Tree.{tree_of, absent, kid, kid_count};
ghost use Rattle.js_trees.specs.Declarations.{declarations};
ghost use Rattle.script_meaning.specs.Places.{form_at, script_at};
ghost use Rattle.script_steps.specs.Sound.{IsThere};

use ivm_text::{Items, NoMemory, Units};
use js_syntax::{Kind, Script, Scripts};
use js_trees::Declarations;
use std::alloc::Global;

/// The nodes of a script; none where there is no such script.
#[tactic(auto, using(crate::proofs::FormLemmas::no_script, crate::proofs::FormLemmas::a_script))]
fn script_at(scripts: &Scripts, script: u32) -> Option<&Script>
    ensures { MatchOption result (script_at scripts.now script ≡ []) (λ found. script_at scripts.now script ≡ found.now) }
{
    match scripts.get(script) {
        Some(checked) => Some(checked.script()),
        None => None,
    }
}

/// The script with this number, where it has the node.
#[tactic(auto, using(crate::proofs::FormLemmas::form_there, crate::proofs::FormLemmas::form_missing))]
fn script_with(scripts: &Scripts, script: u32, node: u32) -> Option<&Script>
    ensures there { MatchOption result (form_at scripts.now script node ≡ absent) (λ found. (script_at scripts.now script ≡ found.now) × (node < length found.now)) }
    ensures form { MatchOption result (form_at scripts.now script node ≡ absent) (λ found. form_at scripts.now script node ≡ tree_of found.now node) }
{
    match script_at(scripts, script) {
        Some(found) => {
            if node < found.len() {
                Some(found)
            } else {
                None
            }
        }
        None => None,
    }
}

/// The kind of the form, which knows its number where it is there.
pub(crate) fn kind_at(scripts: &Scripts, script: u32, node: u32) -> Kind
    ensures kind { result ≡ ((form_at scripts.now script node).head).kind }
    ensures itself { IsThere result → ((form_at scripts.now script node).head).number_of_node ≡ node }
{
    match script_with(scripts, script, node) {
        Some(found) => js_trees::kind(found, node),
        None => Kind::Absent,
    }
}

/// The number of a part, counted from 0; one of no node where there is no such part.
#[tactic(auto, using(crate::proofs::FormLemmas::form_there, crate::proofs::FormLemmas::form_missing, crate::proofs::FormLemmas::kid_missing))]
pub(crate) fn kid_at(scripts: &Scripts, script: u32, node: u32, place: u32) -> u32
    ensures { form_at scripts.now script result ≡ kid place ((form_at scripts.now script node).kids) }
{
    match script_with(scripts, script, node) {
        Some(found) => {
            if place < js_trees::kid_count(found, node) {
                js_trees::kid(found, node, place)
            } else {
                found.len()
            }
        }
        None => node,
    }
}

/// How many parts the form has.
pub(crate) fn kid_count_at(scripts: &Scripts, script: u32, node: u32) -> u32
    ensures { result ≡ kid_count ((form_at scripts.now script node).kids) }
{
    match script_with(scripts, script, node) {
        Some(found) => js_trees::kid_count(found, node),
        None => 0,
    }
}

/// The form's own name, where it has one.
pub(crate) fn name_at(scripts: &Scripts, script: u32, node: u32) -> Option<&Units>
    ensures { option_copied result ≡ ((form_at scripts.now script node).head).name }
{
    match script_with(scripts, script, node) {
        Some(found) => js_trees::name(found, node),
        None => None,
    }
}

/// The names of the form.
pub(crate) fn names_at(scripts: &Scripts, script: u32, node: u32) -> &[Units]
    ensures { result.now ≡ ((form_at scripts.now script node).head).names }
{
    match script_with(scripts, script, node) {
        Some(found) => js_trees::names(found, node).as_slice(),
        None => &[],
    }
}

/// The value of a number; 0 for all other forms.
pub(crate) fn number_at(scripts: &Scripts, script: u32, node: u32) -> i64
    ensures { result ≡ ((form_at scripts.now script node).head).value }
{
    match script_with(scripts, script, node) {
        Some(found) => js_trees::number(found, node),
        None => 0,
    }
}

/// What the statements among the form's parts declare.
pub fn declarations_at(
    alloc: Global,
    scripts: &Scripts,
    script: u32,
    node: u32,
) -> Result<Declarations, NoMemory>
    ensures { IfOk result (λ list. list ≡ declarations ((form_at scripts.now script node).kids)) }
{
    match script_with(scripts, script, node) {
        Some(found) => js_trees::declarations(alloc, found, node),
        None => Ok(Items::new(alloc)),
    }
}
