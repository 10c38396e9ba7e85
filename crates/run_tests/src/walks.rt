//! A walk: a host script, what is done with its host one after another, and the history at its end.

use crate::fronts::{expanded, numbered};
use crate::told::{spelled, told_of_call, told_of_leaf, told_of_outcome};
use anyhow::{Error, bail};
use host_machine::Host;
use host_meaning::Move;
use host_script::read_host;
use ivm_text::{Copy, Overrun, Passed};
use std::alloc::Global;
use task_history::{Act, By, Event, History, Out, Outcome, Settlement, Shared, Task, TaskKind};
use test_tables::{Row, Table, Tally};

/// Makes the host of the lines of a table, takes its turns, and then tries its history.
pub fn run(rt: &HostRuntime, tally: &mut Tally, table: &Table) -> Result<(), Error> {
    let alloc = rt.alloc();
    let mut script = Vec::new(alloc);
    for row in table.rows.as_slice() {
        if row.field(0)? == "line" {
            script.extend_from_slice(&expanded(alloc, row.field(1)?)?)?;
            script.push(b'\n')?;
        }
    }
    let mut host = Host::new(alloc, read_host(alloc, &script)?)?;
    for row in table.rows.as_slice() {
        take_turn(rt, tally, &mut host, row)?;
    }
    let (_, history) = host.into_parts();
    run_history(rt, tally, table, &history)
}

// ---- turns

/// Does what a row says with the host, if it says anything of it.
fn take_turn(rt: &HostRuntime, tally: &mut Tally, host: &mut Host, row: &Row) -> Result<(), Error> {
    match row.field(0)? {
        "step" => take_steps(rt, tally, host, row, 1, 1),
        "steps" => {
            let rounds = row.field(1)?.parse::<u32>()?;
            take_steps(rt, tally, host, row, rounds, 2)
        }
        "reply" => receive(rt, tally, host, row),
        "finished" => {
            let told = if host.finished() { "yes" } else { "no" };
            tally.check(rt, row, row.field(1)?, told)
        }
        "line" | "event" | "events" | "last" => Ok(()),
        _ => bail!("{}: no such row", row.place),
    }
}

/// Rounds of the steps that stand behind so many fields. It fails at the first that tells something else.
fn take_steps(
    rt: &HostRuntime,
    tally: &mut Tally,
    host: &mut Host,
    row: &Row,
    rounds: u32,
    skipped: usize,
) -> Result<(), Error> {
    let alloc = rt.alloc();
    for round in 0..rounds {
        for field in row.fields.as_slice().iter().skip(skipped) {
            let wanted = numbered(alloc, field, round)?;
            let told = told_of_move(alloc, &host.step()?)?;
            if told != wanted {
                return tally.fail(rt, row, &wanted, &told);
            }
        }
    }
    Ok(())
}

/// The host receives the reply of a row, from which no task follows.
fn receive(rt: &HostRuntime, tally: &mut Tally, host: &mut Host, row: &Row) -> Result<(), Error> {
    let isolate = row.field(1)?.parse::<u32>()?;
    let call = match row.field(2)? {
        "no call" => None,
        number => Some(number.parse::<u32>()?),
    };
    let outcome = Shared::new(rt.alloc(), outcome_of(row)?)?;
    if isolate >= host.script().isolates.len() {
        bail!("{}: no isolate {isolate}", row.place);
    }
    let reply = Out::Reply { call, outcome };
    let told = match host.receive(isolate, reply)? {
        Some(_posting) => "a task",
        None => "no task",
    };
    tally.check(rt, row, "no task", told)
}

/// The outcome of a row's reply.
fn outcome_of(row: &Row) -> Result<Outcome, Error> {
    match row.field(3)? {
        "context" => Ok(Outcome::Context {
            context: row.field(4)?.parse::<u32>()?,
            row: row.field(5)?.parse::<u32>()?,
        }),
        "done" => Ok(Outcome::Done),
        "out of cells" => Ok(Outcome::MemoryLimit(Overrun {
            charged: 1,
            asked: 2,
            limit: 2,
        })),
        "disposed by Host" => Ok(Outcome::Disposed(By::Host)),
        _ => bail!("{}: no such outcome", row.place),
    }
}

// ---- the history

/// Tries each event in order, and then how many there are and the last.
fn run_history(
    rt: &HostRuntime,
    tally: &mut Tally,
    table: &Table,
    history: &History,
) -> Result<(), Error> {
    let alloc = rt.alloc();
    let mut place = 0;
    for row in table.rows.as_slice() {
        match row.field(0)? {
            "event" => {
                let told = told_at(alloc, history, place)?;
                tally.check(rt, row, row.field(1)?, &told)?;
                place = u32::saturating_add(place, 1);
            }
            "events" => {
                let told = format!(in alloc; "{}", history.len())?;
                tally.check(rt, row, row.field(1)?, &told)?;
            }
            "last" => {
                let told = told_at(alloc, history, history.len().saturating_sub(1))?;
                tally.check(rt, row, row.field(1)?, &told)?;
            }
            _ => {}
        }
    }
    Ok(())
}

/// The event at a place of the history.
fn told_at(alloc: Global, history: &History, place: u32) -> Result<String, Error> {
    match history.get(place) {
        Some(Event::Post { isolate, task }) => told_of_post(alloc, *isolate, task),
        Some(Event::Recv { isolate, out }) => told_of_out(alloc, *isolate, out),
        Some(Event::Ask { isolate }) => Ok(format!(in alloc; "ask {isolate}")?),
        Some(Event::Release { call }) => Ok(format!(in alloc; "release {call}")?),
        Some(Event::Settle { call, how }) => match how {
            Settlement::Entry { isolate, place } => {
                Ok(format!(in alloc; "settle {call}: entry {place} of {isolate}")?)
            }
            Settlement::Own(own) => Ok(format!(in alloc; "settle {call}: {own:?}")?),
        },
        None => Ok(String::from_str(alloc, "no event")?),
    }
}

// ---- moves, tasks and outs

/// `post 0: call 1 context in 1000000`, `ask 0`, `own`, `blocked` or `no target`.
fn told_of_move(alloc: Global, told: &Move) -> Result<String, Error> {
    match told {
        Move::Post { isolate, task } => told_of_post(alloc, *isolate, task),
        Move::Ask { isolate } => Ok(format!(in alloc; "ask {isolate}")?),
        Move::Own => Ok(String::from_str(alloc, "own")?),
        Move::Blocked => Ok(String::from_str(alloc, "blocked")?),
        Move::NoTarget => Ok(String::from_str(alloc, "no target")?),
    }
}

fn told_of_post(alloc: Global, isolate: u32, task: &Task) -> Result<String, Error> {
    let call = told_of_call(alloc, task.call)?;
    let kind = told_of_kind(alloc, &task.kind)?;
    let budget = task.budget;
    Ok(format!(in alloc; "post {isolate}: {call} {kind} in {budget}")?)
}

/// `context`, `eval 4 [1 + 1]`, `row 7 get x`, `row 7 set x -5`.
fn told_of_kind(alloc: Global, kind: &TaskKind) -> Result<String, Error> {
    match kind {
        TaskKind::Context => Ok(String::from_str(alloc, "context")?),
        TaskKind::Eval { context, text, .. } => {
            let text = String::from_utf8_lossy(alloc, text.as_slice())?;
            Ok(format!(in alloc; "eval {context} [{text}]")?)
        }
        TaskKind::Act {
            row,
            act: Act::Get(key, _),
        } => {
            let key = spelled(alloc, key)?;
            Ok(format!(in alloc; "row {row} get {key}")?)
        }
        TaskKind::Act {
            row,
            act: Act::Set(key, Passed::Copy(Copy { root, .. })),
        } => {
            let key = spelled(alloc, key)?;
            let value = told_of_leaf(alloc, *root)?;
            Ok(format!(in alloc; "row {row} set {key} {value}")?)
        }
        _ => Ok(String::from_str(alloc, "another task")?),
    }
}

/// `recv 0: call 1 context 2 row 3`.
fn told_of_out(alloc: Global, isolate: u32, out: &Out) -> Result<String, Error> {
    match out {
        Out::Reply { call, outcome } => {
            let call = told_of_call(alloc, *call)?;
            let outcome = told_of_outcome(alloc, outcome)?;
            Ok(format!(in alloc; "recv {isolate}: {call} {outcome}")?)
        }
        _ => Ok(format!(in alloc; "recv {isolate}: another out")?),
    }
}
