//! Tests of what texts are read as, by rows: from bytes to code units, tokens, trees, early faults, scripts and copies.
//!
//! Contracts see nothing here: it is a program that reads the tables of data/, and tells which rows fail.
//! Rely on: each answer was worked out from the rules in docs/SCRIPTS.md or from a public table, never by this program.
//! Over `js_scripts`, `js_literals`, `js_trees` and all below them, and `test_tables`; under no crate.
//! Begin with `data/faults.rows` and `src/rows.rt`; README.md tells the kinds of rows.
#![tactic(auto)]

mod built;
mod copies;
mod lists;
mod next_tokens;
mod nodes;
mod places;
mod refusals;
mod rows;
mod spelling;
mod stream;
mod texts;
mod tokens;
mod trees;

use anyhow::Error;
use std::env;
use test_tables::{Table, Tally, read_tables};

/// The files of data/.
const FILES: [&str; 23] = [
    "texts.rows",
    "faults.rows",
    "gaps.rows",
    "numbers.rows",
    "strings.rows",
    "punctuators.rows",
    "bytes.rows",
    "scripts.rows",
    "declared.rows",
    "statements.rows",
    "expressions.rows",
    "arrows.rows",
    "ends.rows",
    "refusals.rows",
    "levels.rows",
    "early.rows",
    "rules.rows",
    "built.rows",
    "read.rows",
    "literals.rows",
    "arguments.rows",
    "next_tokens.rows",
    "places.rows",
];

/// Without a word the rows of data/ are run. With a word the texts of standard input are answered.
fn main(rt: HostRuntime) -> Result<(), Error> {
    let mut words = env::args(&rt)?.skip(1);
    match words.next() {
        Some(word) => stream::run(&rt, word.as_str(), words.next().is_some()),
        None => run_files(&rt),
    }
}

fn run_files(rt: &HostRuntime) -> Result<(), Error> {
    let mut tally = Tally::new();
    for file in &FILES {
        let tables = read_tables(rt, file)?;
        for table in tables.as_slice() {
            tally.begin_table(rt, table)?;
            run_table(rt, &mut tally, tables.as_slice(), table)?;
        }
    }
    tally.end(rt)
}

/// A table goes by its kind; a list is read by the tables that name it.
fn run_table(
    rt: &HostRuntime,
    tally: &mut Tally,
    tables: &[Table],
    table: &Table,
) -> Result<(), Error> {
    match table.kind.as_str() {
        "list" => Ok(()),
        "next" => next_tokens::run(rt, tally, tables, table),
        "places" => places::run(rt, tally, tables, table),
        _ => rows::run(rt, tally, table),
    }
}
