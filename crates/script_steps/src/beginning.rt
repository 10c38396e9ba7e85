//! The first step of each form.
ghost use Rattle.std.specs.Prelude.{◌≡◌, Some};
ghost use Rattle.charged_heap.specs.Closed.{IsClosed};
ghost use Rattle.charged_heap.specs.Growth.{Grows};
ghost use Rattle.charged_heap.specs.Store.{Store};
ghost use Rattle.script_meaning.specs.Evaluates.{operation, value_by, callee_by, statement_by, node_by};
ghost use Rattle.script_meaning.specs.Places.{form_at};
ghost use Rattle.script_steps.specs.After.{Steps, Turns, Waits};
ghost use Rattle.script_steps.specs.Fits.{Is, IsForm, IsOperator, StepFits};
ghost use Rattle.script_steps.specs.Groups.{BeginsInside};
ghost use Rattle.script_steps.specs.Sound.{IsThere, IsSoundSite, IsSoundStep};

use crate::assignments::{begin_assign, begin_step, begin_update};
use crate::calls::begin_call;
use crate::forms::{kid_at, kind_at};
use crate::functions::{arrow, function};
use crate::handlers::{begin_throw, begin_try};
use crate::leaves::leaf;
use crate::literals::{begin_array, begin_object};
use crate::loops::{begin_for, begin_while};
use crate::members::{begin_index, begin_member};
use crate::operators::{
    begin_binary, begin_comma, begin_condition, begin_logical, begin_typeof, begin_unary,
    begin_void,
};
use crate::statements::{begin_block, begin_if, begin_return, declare_from, list_from};
use crate::targets::begin_target;
use crate::{Frame, Inner, Step};
use charged_heap::Heap;
use js_ops::{Operator, UnaryOperator};
use js_syntax::{Kind, Scripts};
use script_meaning::{Abrupt, Ended, Role, Site};
use std::alloc::Global;

// ---- expressions

/// Begins an operator by how it takes its operands.
#[inline(always)]
fn begin_operator(scripts: &Scripts, operator: Operator, node: u32, site: Site) -> Step
    requires form { IsForm (IsOperator operator) scripts.now site.script node }
    ensures step { Waits scripts.now result (λ at s. operation (Some operator) scripts.now at ((form_at scripts.now site.script node).kids) site s) }
    ensures sound { (s : Store) → IsSoundSite s site → IsSoundStep s result }
    ensures fits { StepFits scripts.now result }
{
    match operator {
        Operator::Binary(operator) => begin_binary(scripts, operator, node, site),
        Operator::Unary(UnaryOperator::TypeOf) => begin_typeof(scripts, node, site),
        Operator::Unary(operator) => begin_unary(scripts, operator, node, site),
        Operator::Update(operator) => begin_update(scripts, operator, node, site),
        Operator::Step(operator, before) => begin_step(scripts, operator, before, node, site),
    }
}

/// Begins an expression by an expression inside it; a form that is none is empty.
#[tactic(auto, using(crate::proofs::FitLemmas::kinds_known))]
#[inline(always)]
fn begin_inside(scripts: &Scripts, kind: Kind, node: u32, site: Site) -> Step
    requires kind { BeginsInside kind }
    requires itself { IsThere kind → ((form_at scripts.now site.script node).head).number_of_node ≡ node }
    requires form { IsForm (Is kind) scripts.now site.script node }
    ensures step { Waits scripts.now result (λ at s. value_by kind scripts.now at (form_at scripts.now site.script node) site s) }
    ensures sound { (s : Store) → IsSoundSite s site → IsSoundStep s result }
    ensures fits { StepFits scripts.now result }
{
    if let Some(operator) = Operator::of_kind(kind) {
        return begin_operator(scripts, operator, node, site);
    }
    match kind {
        Kind::Comma => begin_comma(scripts, node, site),
        Kind::Assign => begin_assign(scripts, node, site),
        Kind::Cond => begin_condition(scripts, node, site),
        Kind::Coalesce | Kind::Or | Kind::And => begin_logical(scripts, kind, node, site),
        Kind::Void => begin_void(scripts, node, site),
        Kind::Member => begin_member(scripts, Role::Value, node, site),
        Kind::Index => begin_index(scripts, Role::Value, node, site),
        Kind::Call => begin_call(scripts, node, site),
        _ => Step::Ended(Ok(Ended::Empty)),
    }
}

/// Begins an expression for its value; a form that is none is empty.
#[inline(always)]
fn begin_value(
    alloc: Global,
    scripts: &Scripts,
    heap: &mut Heap,
    kind: Kind,
    node: u32,
    site: Site,
) -> Step
    requires closed { IsClosed heap.old }
    requires site { IsSoundSite heap.old site }
    requires itself { IsThere kind → ((form_at scripts.now site.script node).head).number_of_node ≡ node }
    requires form { IsForm (Is kind) scripts.now site.script node }

    ensures step { Steps scripts.now result heap.old heap.new (λ at s. value_by kind scripts.now at (form_at scripts.now site.script node) site s) }

    ensures grown { Grows heap.old heap.new }
    ensures closed { IsClosed heap.new }
    ensures sound { IsSoundStep heap.new result }
    ensures fits { StepFits scripts.now result }
{
    match kind {
        Kind::Num
        | Kind::Text
        | Kind::Undefined
        | Kind::Null
        | Kind::True
        | Kind::False
        | Kind::This
        | Kind::Name => leaf(alloc, scripts, heap, kind, node, site),
        Kind::Arrow => arrow(scripts, heap, node, site),
        Kind::FunctionExpr => function(alloc, scripts, heap, node, site),
        Kind::Array => begin_array(alloc, scripts, heap, node, site),
        Kind::Object => begin_object(alloc, scripts, heap, node, site),
        _ => begin_inside(scripts, kind, node, site),
    }
}

/// Begins a callee for its function, and for what it is a member of.
#[inline(always)]
fn begin_callee(
    alloc: Global,
    scripts: &Scripts,
    heap: &mut Heap,
    kind: Kind,
    node: u32,
    site: Site,
) -> Step
    requires closed { IsClosed heap.old }
    requires site { IsSoundSite heap.old site }
    requires itself { IsThere kind → ((form_at scripts.now site.script node).head).number_of_node ≡ node }
    requires form { IsForm (Is kind) scripts.now site.script node }

    ensures step { Steps scripts.now result heap.old heap.new (λ at s. callee_by kind scripts.now at (form_at scripts.now site.script node) site s) }

    ensures grown { Grows heap.old heap.new }
    ensures closed { IsClosed heap.new }
    ensures sound { IsSoundStep heap.new result }
    ensures fits { StepFits scripts.now result }
{
    match kind {
        Kind::Member => begin_member(scripts, Role::Callee, node, site),
        Kind::Index => begin_index(scripts, Role::Callee, node, site),
        _ => begin_value(alloc, scripts, heap, kind, node, site),
    }
}

// ---- statements

/// Begins the expression of an expression statement.
#[tactic(auto, unfolding(crate::specs::After::after))]
#[inline(always)]
fn begin_expression(scripts: &Scripts, node: u32, site: Site) -> Step
    ensures step { Waits scripts.now result (λ at s. statement_by Kind.ExprStmt at (form_at scripts.now site.script node) site s) }
    ensures sound { (s : Store) → IsSoundSite s site → IsSoundStep s result }
    ensures fits { StepFits scripts.now result }
{
    let expression = kid_at(scripts, site.script, node, 0);
    Step::value(Frame::Pass, expression, site)
}

/// Begins a statement; a form that is none is empty.
#[tactic(auto, using(crate::proofs::FitLemmas::kinds_known))]
#[inline(always)]
fn begin_statement(
    alloc: Global,
    scripts: &Scripts,
    heap: &mut Heap,
    kind: Kind,
    node: u32,
    site: Site,
) -> Step
    requires closed { IsClosed heap.old }
    requires site { IsSoundSite heap.old site }
    requires form { IsForm (Is kind) scripts.now site.script node }

    ensures step { Turns scripts.now result heap.old heap.new (λ at s. statement_by kind at (form_at scripts.now site.script node) site s) }

    ensures grown { Grows heap.old heap.new }
    ensures closed { IsClosed heap.new }
    ensures sound { IsSoundStep heap.new result }
    ensures fits { StepFits scripts.now result }
{
    match kind {
        Kind::Script | Kind::Body => list_from(scripts, node, 0, None, site),
        Kind::Block => begin_block(alloc, scripts, heap, node, site),
        Kind::Let | Kind::Const => declare_from(scripts, heap, node, 0, site),
        Kind::ExprStmt => begin_expression(scripts, node, site),
        Kind::If => begin_if(scripts, node, site),
        Kind::Return => begin_return(scripts, node, site),
        Kind::While => begin_while(scripts, node, site),
        Kind::For => begin_for(alloc, scripts, heap, node, site),
        Kind::Break => Step::Ended(Err(Abrupt::Break(None))),
        Kind::Continue => Step::Ended(Err(Abrupt::Continue(None))),
        Kind::Throw => begin_throw(scripts, node, site),
        Kind::Try => begin_try(scripts, node, site),
        _ => Step::Ended(Ok(Ended::Empty)),
    }
}

// ---- nodes

/// The first step of a node whose tick was taken, for what it is evaluated and where
/// (ECMA-262, Runtime Semantics: Evaluation).
///
/// The step ends the form, waits for a node inside it, or calls a built-in function. Want of memory ends the form
/// with `Abrupt::NoMemory`; the heap keeps what was made until then.
#[inline(always)]
pub fn begin(alloc: Global, scripts: &Scripts, heap: &mut Heap, inner: Inner) -> Step
    requires closed { IsClosed heap.old }
    requires site { IsSoundSite heap.old inner.site }

    ensures step { Turns scripts.now result heap.old heap.new (λ at s. node_by inner.role scripts.now at (form_at scripts.now inner.site.script inner.node) inner.site s) }

    ensures grown { Grows heap.old heap.new }
    ensures closed { IsClosed heap.new }
    ensures sound { IsSoundStep heap.new result }
    ensures fits { StepFits scripts.now result }
{
    let Inner { role, node, site } = inner;
    let kind = kind_at(scripts, site.script, node);
    match role {
        Role::Value => begin_value(alloc, scripts, heap, kind, node, site),
        Role::Target => begin_target(scripts, kind, node, site),
        Role::Callee => begin_callee(alloc, scripts, heap, kind, node, site),
        Role::Statement => begin_statement(alloc, scripts, heap, kind, node, site),
    }
}
