//! Tables of rows with their answers, for the programs that test by them: how files of them are read, and which rows fail.
//!
//! Contracts see nothing here: its callers are programs without a clause.
//! Rely on: a line that is no row, a file that is missing and a table with another number of rows than its head says are
//! told; so is each row that fails.
//! Over `anyhow`; under `text_tests` and `run_tests`.
//! Begin with `src/tables.rt`; README.md tells the form of a file.
#![tactic(auto)]

mod escapes;
mod tables;
mod tally;

pub use escapes::{bytes_of, text_of};
pub use tables::{Row, Table, read_tables};
pub use tally::Tally;
