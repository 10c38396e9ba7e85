//! Which rows failed: each is printed, and at last whether all held.

use crate::tables::{Row, Table};
use anyhow::Error;

#[derive(Drop)]
pub struct Tally {
    failed: u64,
}

impl Tally {
    pub fn new() -> Tally {
        Tally { failed: 0 }
    }

    /// One line with the kind and the name of a table, and one more where the number of its rows isn't that of its head.
    pub fn begin_table<R: Print>(&mut self, rt: &R, table: &Table) -> Result<(), Error> {
        println!(rt; "{} {}", table.kind, table.name)?;
        if table.rows.len() != table.count {
            self.failed = self.failed.saturating_add(1);
            println!(rt;
                "{}: {} rows, not {}",
                table.place,
                table.rows.len(),
                table.count
            )?;
        }
        Ok(())
    }

    /// A row holds where its answer is what was wanted; else it fails.
    pub fn check<R: Print>(
        &mut self,
        rt: &R,
        row: &Row,
        wanted: &str,
        answer: &str,
    ) -> Result<(), Error> {
        if answer == wanted {
            return Ok(());
        }
        self.fail(rt, row, wanted, answer)
    }

    /// One line with the place of the row, what it asks, what was wanted, and the answer.
    pub fn fail<R: Print>(
        &mut self,
        rt: &R,
        row: &Row,
        wanted: &str,
        answer: &str,
    ) -> Result<(), Error> {
        self.failed = self.failed.saturating_add(1);
        let asked = match row.fields.first() {
            Some(field) => field.as_str(),
            None => "",
        };
        println!(rt; "{}: {asked:?} is {answer:?}, not {wanted:?}", row.place)?;
        Ok(())
    }

    /// The last line.
    pub fn end<R: Print>(&self, rt: &R) -> Result<(), Error> {
        if self.failed == 0 {
            println!(rt; "all rows hold")?;
        } else {
            println!(rt; "{} failed", self.failed)?;
        }
        Ok(())
    }
}
