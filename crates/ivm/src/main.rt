//! The program: the words of the command line, standard input and output, and the exit status.
//!
//! Contracts see nothing here: `main` hands the words and the streams to the top call.
//! Rely on: it is safe and returns; what it writes is said by the clauses of `ivm_cli::ivm`.
//! Over `ivm_cli`, `ivm_io` and `task_history`; under no crate.
//! Begin with `main`, then `src/call.rt` of `ivm_cli`.
#![tactic(auto)]

use ivm_cli::{Status, ivm};
use ivm_io::{OpenGate, ReaderSource, WriterSink};
use std::alloc::AllocError;
use std::process::ExitCode;
use std::{env, io};
use task_history::Record;

// The words after the program's name, and none where they aren't text.
fn words(rt: &HostRuntime) -> Result<Vec<String>, AllocError> {
    match env::args(rt) {
        Ok(args) => args.skip(1).collect(rt.alloc()),
        Err(error) if error.kind() == io::ErrorKind::OutOfMemory => Err(AllocError),
        Err(_) => Ok(Vec::new(rt.alloc())),
    }
}

fn status(rt: &HostRuntime) -> Result<Status, AllocError> {
    let words = words(rt)?;
    let mut source = ReaderSource::new(rt.reader());
    let mut sink = WriterSink::new(io::writer(rt));
    let mut kept = Record::empty(rt.alloc());
    Ok(ivm(
        rt,
        rt.alloc(),
        &words,
        &mut source,
        &mut sink,
        &OpenGate,
        &mut kept,
    ))
}

fn main(rt: HostRuntime) -> ExitCode {
    let status = status(&rt).unwrap_or(Status::NoMemory);
    ExitCode::from(status.code())
}
