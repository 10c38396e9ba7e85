//! Tests by rows, from the heap up to host scripts: what calls and scripts give, for which cost.
//!
//! Contracts see nothing here: it is a program that reads tables and prints which rows fail.
//! Rely on: each answer was worked out by hand from docs/, or comes from outside.
//! Over `test_tables`, `ivm_cli` and all under them; under no crate.
//! Begin with README.md, then `run_table` and `src/trials.rt`.
#![tactic(auto)]

mod cells;
mod changes;
mod contexts;
mod eval;
mod facts;
mod fronts;
mod hosts;
mod made;
mod measures;
mod members;
mod named;
mod operators;
mod outcomes;
mod printed;
mod reports;
mod scope_uses;
mod scopes;
mod scripts;
mod sums;
mod told;
mod trials;
mod values;
mod walks;

use anyhow::{Error, bail};
use charged_heap::Heap;
use std::env;
use test_tables::{Table, Tally, read_tables};

/// The files of data/.
static FILES: [&str; 18] = [
    "heap.rows",
    "operators.rows",
    "pairs.rows",
    "members.rows",
    "scopes.rows",
    "scripts.rows",
    "loops.rows",
    "rounds.rows",
    "throws.rows",
    "finals.rows",
    "stops.rows",
    "cells.rows",
    "walks.rows",
    "hosts.rows",
    "outcomes.rows",
    "values.rows",
    "reports.rows",
    "limits.rows",
];

/// Without a word it tries the rows; with `eval` it runs texts, with `heap` it measures heaps.
fn main(rt: HostRuntime) -> Result<(), Error> {
    let mut words = env::args(&rt)?.skip(1);
    let Some(word) = words.next() else {
        return run_rows(&rt);
    };
    match word.as_str() {
        "eval" => {
            let how = words.next();
            eval::run(&rt, how.as_deref())
        }
        "heap" => {
            let what = words.next();
            let count = words.next();
            measures::run(&rt, what, count, words.next().is_some())
        }
        _ => bail!("{word}: the words are eval and heap"),
    }
}

/// A line for each table, a line for each row that fails, and at last whether all held.
fn run_rows(rt: &HostRuntime) -> Result<(), Error> {
    sends(&Heap::new(rt.alloc(), 0));
    let mut tally = Tally::new();
    for file in &FILES {
        let tables = read_tables(rt, file)?;
        for table in tables.as_slice() {
            tally.begin_table(rt, table)?;
            run_table(rt, &mut tally, table)?;
        }
    }
    tally.end(rt)
}

// That a heap may go to another thread is proved where this is called.
fn sends<T: Send>(_value: &T) {}

/// Tries the rows of a table, each as its kind says.
fn run_table(rt: &HostRuntime, tally: &mut Tally, table: &Table) -> Result<(), Error> {
    match table.kind.as_str() {
        "price" | "index" | "size" | "value" | "node" => facts::run(rt, tally, table),
        "heap" | "operator" | "member" => trials::run(rt, tally, table),
        "large" => measures::run_table(rt, tally, table),
        "pairs" => operators::run_pairs(rt, tally, table),
        "array" => members::run_array(rt, tally, table),
        "name" | "scope" => scopes::run(rt, tally, table),
        "script" => scripts::run(rt, tally, table),
        "cell" => cells::run(rt, tally, table),
        "walk" => walks::run(rt, tally, table),
        "host" => hosts::run(rt, tally, table),
        "outcome" => outcomes::run(rt, tally, table),
        "report" => reports::run(rt, tally, table),
        _ => bail!("{}: no such kind of rows: {}", table.place, table.kind),
    }
}
