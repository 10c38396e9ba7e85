//! Uses of names in a scope: reads, types, assignments, and declarations that clash.

use crate::printed::given_text;
use crate::scopes::GLOBAL;
use crate::values::needs;
use anyhow::{Error, bail};
use charged_heap::{Fail, Heap, Item, Value};
use ivm_text::Units;
use js_scopes::{assign_name, is_clash, read_name, refuse_clash, type_of_name};
use std::alloc::Global;
use test_tables::Row;

pub fn told_of_use(alloc: Global, heap: &mut Heap, scope: u32, row: &Row) -> Result<String, Error> {
    let name = Units::from_text(alloc, name_in(row.field(2)?))?;
    needs(heap.is_scope(scope))?;
    match row.field(0)? {
        "clash" => {
            let clash = is_clash(heap, scope, &name, row.field(3)? == "function");
            Ok(format!(in alloc; "{clash}")?)
        }
        "node" => {
            let given = used(alloc, heap, scope, "read", &name)?;
            node_text(alloc, heap, given)
        }
        action => {
            let given = used(alloc, heap, scope, action, &name)?;
            given_text(alloc, heap, given)
        }
    }
}

fn name_in(field: &str) -> &str {
    if field == "∅" { "" } else { field }
}

/// Reads a name, tells its type, assigns the number 7 to it, or refuses its declaration.
fn used(
    alloc: Global,
    heap: &mut Heap,
    scope: u32,
    action: &str,
    name: &Units,
) -> Result<Result<Value, Fail>, Error> {
    needs(heap.is_closed())?;
    needs(heap.is_plain(GLOBAL))?;
    needs(heap.is_scope(scope))?;
    match action {
        "read" => Ok(read_name(alloc, heap, name, scope, GLOBAL)),
        "typeof" => Ok(type_of_name(alloc, heap, name, scope, GLOBAL)),
        "assign" => Ok(assign_name(alloc, heap, name, scope, GLOBAL, Value::Num(7))),
        "refuse" => Ok(refuse_clash(alloc, heap, name)),
        _ => bail!("{action}: no use of a name"),
    }
}

/// The node of a function that was read.
fn node_text(alloc: Global, heap: &Heap, given: Result<Value, Fail>) -> Result<String, Error> {
    if let Ok(Value::Item(n)) = given {
        if n < heap.len() {
            if let Item::Closure { node, .. } = heap.get(n) {
                return Ok(format!(in alloc; "node {node}")?);
            }
        }
    }
    given_text(alloc, heap, given)
}
