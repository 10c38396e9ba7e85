//! Whole host scripts through the top call: how it ends, what is written, and what the record keeps.

use crate::fronts::{common, expanded, is_common, priced, script_at};
use anyhow::Error;
use ivm_cli::{Status, ivm};
use ivm_io::{MemorySink, MemorySource, OpenGate};
use std::alloc::Global;
use task_history::Record;
use test_tables::{Row, Table, Tally};

/// Carries out the script of each row.
pub fn run(rt: &HostRuntime, tally: &mut Tally, table: &Table) -> Result<(), Error> {
    let alloc = rt.alloc();
    for (place, row) in table.rows.as_slice().iter().enumerate() {
        if !is_common(row)? {
            let script = script_at(alloc, table, place, row)?;
            run_script(rt, tally, table, place, row, script)?;
        }
    }
    Ok(())
}

/// A row has a script, what is written and, where there is a third field, what the record keeps.
fn run_script(
    rt: &HostRuntime,
    tally: &mut Tally,
    table: &Table,
    place: usize,
    row: &Row,
    script: Vec<u8>,
) -> Result<(), Error> {
    let alloc = rt.alloc();
    let told = common(table, place, "told")?;
    let wanted = expanded(alloc, &format!(in alloc; "{told}{}", row.field(1)?)?)?;
    let words = words_of(alloc, common(table, place, "words")?)?;
    let mut source = MemorySource::new(script, numbers_of(alloc, common(table, place, "reads")?)?);
    let mut sink = MemorySink::new(alloc, numbers_of(alloc, common(table, place, "writes")?)?);
    let mut kept = Record::empty(alloc);
    let status = ivm(
        rt,
        alloc,
        &words,
        &mut source,
        &mut sink,
        &OpenGate,
        &mut kept,
    );
    let text = String::from_utf8_lossy(alloc, sink.bytes())?;
    tally.check(rt, row, &String::from_utf8_lossy(alloc, &wanted)?, &text)?;
    let ending = common(table, place, "status")?;
    tally.check(
        rt,
        row,
        if ending == "∅" { "Done" } else { ending },
        named(status),
    )?;
    if row.fields.len() > 2 {
        let kept = told_of_record(alloc, &kept)?;
        tally.check(rt, row, &priced(alloc, row.field(2)?)?, &kept)?;
    }
    Ok(())
}

fn named(status: Status) -> &'static str {
    match status {
        Status::Done => "Done",
        Status::Usage => "Usage",
        Status::BadHost => "BadHost",
        Status::ReadFault => "ReadFault",
        Status::WriteFault => "WriteFault",
        Status::NoMemory => "NoMemory",
    }
}

/// The words of the program: `run` where no row says others, and none where one says `none`.
fn words_of(alloc: Global, text: &str) -> Result<Vec<String>, Error> {
    let mut words = Vec::new(alloc);
    for word in text.split(' ') {
        match word {
            "none" => {}
            "∅" => words.push(String::from_str(alloc, "run")?)?,
            _ => words.push(String::from_str(alloc, word)?)?,
        }
    }
    Ok(words)
}

/// The numbers of the calls that fail.
fn numbers_of(alloc: Global, text: &str) -> Result<Vec<u64>, Error> {
    let mut numbers = Vec::new(alloc);
    for word in text.split(' ') {
        if word != "∅" {
            numbers.push(word.parse::<u64>()?)?;
        }
    }
    Ok(numbers)
}

/// `6 events; a journal, 0 ticks 8 cells, 7 ticks 13 cells`: the entries of each isolate.
fn told_of_record(alloc: Global, kept: &Record) -> Result<String, Error> {
    let mut told = format!(in alloc; "{} events", kept.host.len())?;
    for journal in kept.isolates.as_slice() {
        told.push_str("; a journal")?;
        for entry in journal.as_slice() {
            let (ticks, cells) = (entry.ticks, entry.cells);
            told.push_str(&format!(in alloc; ", {ticks} ticks {cells} cells")?)?;
        }
    }
    Ok(told)
}
