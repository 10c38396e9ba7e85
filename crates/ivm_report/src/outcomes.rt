//! The outcomes of calls as they are printed.
ghost use Rattle.std.specs.Prelude.{◌≡◌, ◌++◌, OnOk, false};
ghost use Rattle.std.specs.Option.{option_copied};
ghost use Rattle.ivm_text.specs.Text.{utf8_of};
ghost use Rattle.ivm_report.specs.Outcomes.{disposed_text, outcome_text, own_text, passed_text, refusal_name, syntax_text, type_name, uncopyable_name, want_name, word_text};

use crate::numbers::push_decimal;
use crate::values::push_value;
use ivm_text::{NoMemory, Overrun, Passed, Refusal, RefusalKind, TypeOf, Uncopyable, Units, Want};
use std::alloc::Global;
use task_history::{Outcome, Own};

/// Appends what an entry of so many ticks says of its call; `first` tells whether it is its journal's first disposal.
pub(crate) fn push_outcome(
    alloc: Global,
    text: &mut Vec<u8>,
    want: Want,
    first: bool,
    ticks: u32,
    outcome: &Outcome,
) -> Result<(), NoMemory>
    ensures { OnOk result (text.new.items ≡ text.old.items ++ outcome_text want first ticks outcome.now) }
{
    match outcome {
        Outcome::Context { .. } => text.extend_from_slice(b"context")?,
        Outcome::Script(_) => text.extend_from_slice(b"script")?,
        Outcome::Passed(passed) => push_passed(alloc, text, want, passed)?,
        Outcome::Done => text.extend_from_slice(b"done")?,
        Outcome::Throw(copy) => {
            text.extend_from_slice(b"throw ")?;
            push_value(alloc, text, copy)?;
        }
        Outcome::Syntax(refusal) => push_syntax(alloc, text, refusal)?,
        Outcome::Timeout(ticks) => {
            text.extend_from_slice(b"timeout ")?;
            push_decimal(alloc, text, *ticks)?;
        }
        Outcome::MemoryLimit(overrun) => push_memory(alloc, text, *overrun)?,
        Outcome::Disposed(_) => push_disposed(alloc, text, first, ticks)?,
        Outcome::WrongIsolate => text.extend_from_slice(b"wrong isolate")?,
        Outcome::NotTransferable => text.extend_from_slice(b"not transferable")?,
        Outcome::NotCopyable(kind) => push_uncopyable(text, *kind)?,
    }
    Ok(())
}

fn push_uncopyable(text: &mut Vec<u8>, kind: Uncopyable) -> Result<(), NoMemory>
    ensures { OnOk result (text.new.items ≡ text.old.items ++ outcome_text Want.Value false 0 (Outcome.NotCopyable kind)) }
{
    text.extend_from_slice(b"not copyable ")?;
    text.extend_from_slice(uncopyable_name(kind).as_bytes())?;
    Ok(())
}

fn push_memory(alloc: Global, text: &mut Vec<u8>, overrun: Overrun) -> Result<(), NoMemory>
    ensures { OnOk result (text.new.items ≡ text.old.items ++ outcome_text Want.Value false 0 (Outcome.MemoryLimit overrun)) }
{
    text.extend_from_slice(b"memory charged=")?;
    push_decimal(alloc, text, overrun.charged)?;
    text.extend_from_slice(b" asked=")?;
    push_decimal(alloc, text, overrun.asked)?;
    text.extend_from_slice(b" limit=")?;
    push_decimal(alloc, text, overrun.limit)
}

fn push_disposed(alloc: Global, text: &mut Vec<u8>, first: bool, ticks: u32) -> Result<(), NoMemory>
    ensures { OnOk result (text.new.items ≡ text.old.items ++ disposed_text first ticks) }
{
    text.extend_from_slice(b"disposed")?;
    if first {
        text.extend_from_slice(b" ticks=")?;
        push_decimal(alloc, text, ticks)?;
    }
    Ok(())
}

fn push_passed(
    alloc: Global,
    text: &mut Vec<u8>,
    want: Want,
    passed: &Passed,
) -> Result<(), NoMemory>
    ensures { OnOk result (text.new.items ≡ text.old.items ++ passed_text want passed.now) }
{
    match passed {
        Passed::Copy(copy) => {
            text.extend_from_slice(want_name(want).as_bytes())?;
            push_value(alloc, text, copy)?;
        }
        Passed::External(copy) => {
            text.extend_from_slice(b"external ")?;
            push_value(alloc, text, copy)?;
        }
        Passed::Ref(handle) | Passed::Deref(handle) => {
            text.extend_from_slice(b"reference ")?;
            text.extend_from_slice(type_name(handle.kind).as_bytes())?;
        }
        Passed::Callback(number) => {
            text.extend_from_slice(b"callback ")?;
            push_decimal(alloc, text, *number)?;
        }
    }
    Ok(())
}

fn push_syntax(alloc: Global, text: &mut Vec<u8>, refusal: &Refusal) -> Result<(), NoMemory>
    ensures { OnOk result (text.new.items ≡ text.old.items ++ syntax_text refusal.now) }
{
    text.extend_from_slice(b"syntax ")?;
    text.extend_from_slice(refusal_name(refusal.kind).as_bytes())?;
    text.extend_from_slice(b" ")?;
    push_decimal(alloc, text, refusal.place)?;
    if let Some(word) = &refusal.word {
        text.push(b' ')?;
        push_units(alloc, text, word)?;
    }
    Ok(())
}

/// Appends a text in UTF-8.
pub(crate) fn push_units(alloc: Global, text: &mut Vec<u8>, units: &Units) -> Result<(), NoMemory>
    ensures { OnOk result (text.new.items ≡ text.old.items ++ utf8_of units.now) }
{
    let bytes = units.to_utf8(alloc)?;
    text.extend_from_slice(&bytes)?;
    Ok(())
}

/// What is said of a call that the host settled itself.
pub(crate) fn own_text(own: Own) -> &'static str
    ensures { result.now ≡ own_text own }
{
    match own {
        Own::TooManyCalls => "too many calls",
        Own::NotReference => "not a reference",
        Own::NotScript => "not a script",
        Own::NotCopy => "not a copy",
        Own::Released => "released",
        Own::Disposed => "disposed",
    }
}

fn want_name(want: Want) -> &'static str
    ensures { result.now ≡ want_name want }
{
    match want {
        Want::Value | Want::Reference => "value ",
        Want::Copy => "copy ",
        Want::External => "external ",
    }
}

fn type_name(kind: TypeOf) -> &'static str
    ensures { result.now ≡ type_name kind }
{
    match kind {
        TypeOf::Undefined => "undefined",
        TypeOf::Null => "null",
        TypeOf::Object => "object",
        TypeOf::Boolean => "boolean",
        TypeOf::Number => "number",
        TypeOf::Text => "string",
        TypeOf::Function => "function",
    }
}

fn uncopyable_name(kind: Uncopyable) -> &'static str
    ensures { result.now ≡ uncopyable_name kind }
{
    match kind {
        Uncopyable::Function => "function",
        Uncopyable::Promise => "promise",
        Uncopyable::Reference => "reference",
        Uncopyable::Copy => "copy",
        Uncopyable::Callback => "callback",
    }
}

fn refusal_name(kind: RefusalKind) -> &'static str
    ensures { result.now ≡ refusal_name kind }
{
    match kind {
        RefusalKind::BadUtf8 => "BadUtf8",
        RefusalKind::BadCharacter => "BadCharacter",
        RefusalKind::OpenComment => "OpenComment",
        RefusalKind::OpenString => "OpenString",
        RefusalKind::BadEscape => "BadEscape",
        RefusalKind::NumberOutOfProfile => "NumberOutOfProfile",
        RefusalKind::Unexpected => "Unexpected",
        RefusalKind::TooDeep => "TooDeep",
        RefusalKind::OutOfProfile => "OutOfProfile",
        RefusalKind::TwiceDeclared => "TwiceDeclared",
        RefusalKind::BadTarget => "BadTarget",
        RefusalKind::StrayBreak => "StrayBreak",
        RefusalKind::StrayReturn => "StrayReturn",
    }
}
