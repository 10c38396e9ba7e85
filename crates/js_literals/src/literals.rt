//! Literals and arguments from their bytes.

ghost use Rattle.std.specs.Prelude.{◌≡◌, ℕ, ◌<◌, ◌^◌, List, length, IfOk, IfErr, Some, true};
ghost use Rattle.js_parser.specs.Parsed.{IsLiteralFault, IsArgumentsFault};
ghost use Rattle.js_parser.specs.View.{tree_of};
ghost use Rattle.js_literals.specs.Told.{IsLiteral, AreArguments, IsArgument, AreEach, is_call, form_named, form_of_name, parts_of_text};
ghost use Rattle.js_literals.specs.View.{tree_at, trees_at, HaveNaturals, HasNaturals, AreNumbers, IsFit, AreFit};

use crate::argument::{Argument, FormKind};
use crate::copies::copy_of;
use ivm_text::{CloneWhole, Copy, Items, NoMemory, Units};
use js_parser::{SyntaxFault, parse_arguments, parse_literal, spells};
use js_syntax::{Kind, Script};
use std::alloc::Global;

/// The value of a text of one literal, of fewer than 2^32 bytes.
///
/// The text is refused as `js_parser::parse_literal` refuses it. A token's level is the number of
/// literals that are open at it, and may be at most 200.
pub fn literal(alloc: Global, text: &[u8]) -> Result<Copy, SyntaxFault>
    requires { length text.now < 2 ^ 32 }

    ensures ok { IfOk result (IsLiteral text.now) }
    ensures err { IfErr result (IsLiteralFault text.now) }
{
    let script = parse_literal(alloc, text)?;
    let part = parts_of(&script)[0];
    Ok(copy_of(alloc, &script, part)?)
}

/// The arguments in a text of fewer than 2^32 bytes, maybe none.
///
/// The text is refused as `js_parser::parse_arguments` refuses it. Levels are those of `literal`.
pub fn arguments(alloc: Global, text: &[u8]) -> Result<Items<Argument>, SyntaxFault>
    requires { length text.now < 2 ^ 32 }

    ensures ok { IfOk result (AreArguments text.now) }
    ensures err { IfErr result (IsArgumentsFault text.now) }
{
    let script = parse_arguments(alloc, text)?;
    Ok(arguments_of(alloc, &script, parts_of(&script))?)
}

/// The numbers of the parts of a text.
fn parts_of(script: &Script) -> &[u32]
    requires { HaveNaturals (tree_of script.now) }
    ensures parts { parts_of_text (tree_of script.now) ≡ trees_at script.now result.now }
    ensures numbers { AreNumbers script.now result.now }
{
    if script.len() == 0 {
        return &[];
    }
    script.node(script.root()).kids.as_slice()
}

fn arguments_of(alloc: Global, script: &Script, parts: &[u32]) -> Result<Items<Argument>, NoMemory>
    requires numbers { AreNumbers script.now parts.now }
    requires fit { AreFit (trees_at script.now parts.now) }
    ensures { IfOk result (AreEach (trees_at script.now parts.now)) }
{
    let mut told = Items::new(alloc);
    for part in parts {
        let one = argument(alloc, script, *part)?;
        told.push(one)?;
    }
    Ok(told)
}

fn argument(alloc: Global, script: &Script, number: u32) -> Result<Argument, NoMemory>
    requires within { number < length script.now }
    requires naturals { HasNaturals (tree_at script.now number) }
    requires fit { IsFit (tree_at script.now number) }
    ensures { IfOk result (λ argument. IsArgument (tree_at script.now number) argument) }
{
    if is_call(script.node(number).kind) {
        form_of(alloc, script, number)
    } else {
        let copy = copy_of(alloc, script, number)?;
        Ok(Argument::Literal(copy))
    }
}

fn is_call(kind: Kind) -> bool
    ensures { result ≡ is_call kind }
{
    match kind {
        Kind::Call => true,
        _ => false,
    }
}

/// An argument `W(N)`.
fn form_of(alloc: Global, script: &Script, number: u32) -> Result<Argument, NoMemory>
    requires within { number < length script.now }
    requires call { is_call (tree_at script.now number).head.kind ≡ true }
    requires fit { IsFit (tree_at script.now number) }
    ensures { IfOk result (λ argument. IsArgument (tree_at script.now number) argument) }
{
    let kids = script.node(number).kids.as_slice();
    let form = form_at(script, kids[0]);
    let name = name_at(alloc, script, kids[1])?;
    Ok(Argument::Form(form, name))
}

/// What the word at a node says is passed.
fn form_at(script: &Script, number: u32) -> FormKind
    requires within { number < length script.now }
    requires passes { (form : FormKind) × (form_of_name (tree_at script.now number).head.name ≡ Some form) }
    ensures { form_of_name (tree_at script.now number).head.name ≡ Some result }
{
    let word = script.node(number).name.as_ref().unwrap();
    form_named(word).unwrap()
}

/// The name at a node.
fn name_at(alloc: Global, script: &Script, number: u32) -> Result<Units, NoMemory>
    requires within { number < length script.now }
    requires named { (name : List ℕ) × ((tree_at script.now number).head.name ≡ Some name) }
    ensures { IfOk result (λ name. (tree_at script.now number).head.name ≡ Some name) }
{
    let name = script.node(number).name.as_ref().unwrap();
    Ok(name.clone_whole(alloc)?)
}

/// What a word says is passed.
fn form_named(word: &Units) -> Option<FormKind>
    ensures { result ≡ form_named word.now }
{
    if spells(word, b"ref") {
        Some(FormKind::Ref)
    } else if spells(word, b"deref") {
        Some(FormKind::Deref)
    } else if spells(word, b"copy") {
        Some(FormKind::Copy)
    } else if spells(word, b"into") {
        Some(FormKind::Into)
    } else if spells(word, b"callback") {
        Some(FormKind::Callback)
    } else {
        None
    }
}
