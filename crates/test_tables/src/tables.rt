//! Files of tables: tables with rows, and rows with fields. README.md tells their form.

use anyhow::{Error, bail};
use std::alloc::Global;
use std::fs;
use std::rt::Files;

/// A row, and where it stands.
#[derive(Drop)]
pub struct Row {
    /// Its file and its line.
    pub place: String,
    /// As they are written.
    pub fields: Vec<String>,
}

impl Row {
    /// The field of this number, from 0, as it is written.
    pub fn field(&self, number: usize) -> Result<&str, Error> {
        match self.fields.get(number) {
            Some(field) => Ok(field.as_str()),
            None => bail!("{}: too few fields", self.place),
        }
    }
}

/// A table: its head says what kind of rows it has, its name, and how many rows there are.
#[derive(Drop)]
pub struct Table {
    /// Its file and the line of its head.
    pub place: String,
    pub kind: String,
    pub name: String,
    /// How many rows the head says that there are.
    pub count: usize,
    pub rows: Vec<Row>,
}

/// The tables of a file.
pub fn read_tables<R: Files + AllocGlobal>(rt: &R, file: &str) -> Result<Vec<Table>, Error> {
    let text = match fs::read_to_string(rt, file) {
        Ok(text) => text,
        Err(error) => bail!("{file}: {error}"),
    };
    let mut tables = Vec::new(rt.alloc());
    for (number, line) in text.lines().enumerate() {
        let place = format!(in rt.alloc(); "{file}:{}", number.saturating_add(1))?;
        take_line(rt.alloc(), &mut tables, place, line)?;
    }
    Ok(tables)
}

/// A line is empty, a remark, the head of a table, or a row of the last table.
fn take_line(
    alloc: Global,
    tables: &mut Vec<Table>,
    place: String,
    line: &str,
) -> Result<(), Error> {
    if line.is_empty() || line.starts_with('¶') {
        return Ok(());
    }
    if let Some(head) = line.strip_prefix("§ ") {
        tables.push(table_of(alloc, place, head)?)?;
        return Ok(());
    }
    let row = row_of(alloc, place, line)?;
    match tables.last_mut() {
        Some(table) => table.rows.push(row)?,
        None => bail!("{}: a row stands in a table", row.place),
    }
    Ok(())
}

/// A table without rows. Its head is `KIND NAME (COUNT): ` and what its rows show.
fn table_of(alloc: Global, place: String, head: &str) -> Result<Table, Error> {
    let Some((title, _)) = head.split_once("): ") else {
        bail!("{place}: a head is KIND NAME (COUNT): and what the rows show");
    };
    let Some((names, count)) = title.rsplit_once(" (") else {
        bail!("{place}: a head has the number of its rows in parentheses");
    };
    let Some((kind, name)) = names.split_once(' ') else {
        bail!("{place}: a head has a kind and a name");
    };
    let count = match count.parse::<usize>() {
        Ok(count) => count,
        Err(_) => bail!("{place}: {count} is no number of rows"),
    };
    Ok(Table {
        kind: String::from_str(alloc, kind)?,
        name: String::from_str(alloc, name)?,
        count,
        rows: Vec::new(alloc),
        place,
    })
}

fn row_of(alloc: Global, place: String, line: &str) -> Result<Row, Error> {
    let mut fields = Vec::new(alloc);
    for field in line.split(" → ") {
        fields.push(String::from_str(alloc, field)?)?;
    }
    Ok(Row { place, fields })
}
