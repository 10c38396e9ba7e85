//! Outcomes that no host script brings about yet, as the report tells them.

use anyhow::{Error, bail};
use host_syntax::{Command, HostScript, What};
use ivm_report::report;
use ivm_text::{
    Copy, CopyNode, Handle, Items, Leaf, Pairs, Passed, TypeOf, Uncopyable, Units, Want,
};
use std::alloc::Global;
use task_history::{By, Entry, Event, Outcome, Own, Record, Settlement, Shared};
use test_tables::{Row, Table, Tally};

/// Reports the outcome of each row, whose fields are what was wanted, the outcome, and what is told of it.
pub fn run(rt: &HostRuntime, tally: &mut Tally, table: &Table) -> Result<(), Error> {
    let alloc = rt.alloc();
    for row in table.rows.as_slice() {
        let text = report(alloc, &asked(alloc, row)?, &record_of(alloc, row)?)?;
        let text = String::from_utf8_lossy(alloc, &text)?;
        tally.check(rt, row, row.field(2)?, text.trim_end())?;
    }
    Ok(())
}

/// A host script of one call, with what it wants.
fn asked(alloc: Global, row: &Row) -> Result<HostScript, Error> {
    let want = match row.field(0)? {
        "value" => Want::Value,
        "copy" => Want::Copy,
        "external" => Want::External,
        "reference" => Want::Reference,
        _ => bail!("{}: nothing that is wanted", row.place),
    };
    let mut commands = Items::new(alloc);
    commands.push(Command {
        label: Some(Units::from_text(alloc, "x")?),
        what: What::Get {
            target: 0,
            key: Units::new(alloc),
            want,
        },
    })?;
    Ok(HostScript {
        isolates: Items::new(alloc),
        commands,
    })
}

/// A record of which the call is settled by an entry with the row's outcome, or by the host itself.
fn record_of(alloc: Global, row: &Row) -> Result<Record, Error> {
    let mut kept = Record::empty(alloc);
    let how = match row.field(1)? {
        "nothing" => return Ok(kept),
        "not a reference" => Settlement::Own(Own::NotReference),
        "an entry that is not there" => Settlement::Entry {
            isolate: 0,
            place: 0,
        },
        _ => {
            let mut journal = Items::new(alloc);
            journal.push(Entry {
                task: None,
                outcome: Shared::new(alloc, outcome_of(alloc, row)?)?,
                ticks: 9,
                cells: 8,
                outs: Items::new(alloc),
            })?;
            kept.isolates.push(journal)?;
            Settlement::Entry {
                isolate: 0,
                place: 0,
            }
        }
    };
    kept.host.push(Event::Settle { call: 0, how })?;
    Ok(kept)
}

/// A copy passed, whose root is this node.
fn copy_of(alloc: Global, node: Option<CopyNode>) -> Result<Outcome, Error> {
    let mut nodes = Items::new(alloc);
    if let Some(node) = node {
        nodes.push(node)?;
    }
    let root = Leaf::Node(0);
    Ok(Outcome::Passed(Passed::Copy(Copy { nodes, root })))
}

fn outcome_of(alloc: Global, row: &Row) -> Result<Outcome, Error> {
    Ok(match row.field(1)? {
        "text x" => copy_of(alloc, Some(CopyNode::Text(Units::from_text(alloc, "x")?)))?,
        "an object" => copy_of(alloc, Some(CopyNode::Plain(Pairs::new(alloc))))?,
        "an array" => copy_of(alloc, Some(CopyNode::Array(Items::new(alloc))))?,
        "a node that is not there" => copy_of(alloc, None)?,
        "callback 3" => Outcome::Passed(Passed::Callback(3)),
        "external copy of false" => {
            let (nodes, root) = (Items::new(alloc), Leaf::Bool(false));
            Outcome::Passed(Passed::External(Copy { nodes, root }))
        }
        "function 2 of isolate 1" => Outcome::Passed(Passed::Ref(Handle {
            isolate: 1,
            row: 2,
            kind: TypeOf::Function,
        })),
        "script 3" => Outcome::Script(3),
        "wrong isolate" => Outcome::WrongIsolate,
        "not copyable promise" => Outcome::NotCopyable(Uncopyable::Promise),
        "end of its run after 9 ticks" => Outcome::Disposed(By::Host),
        _ => bail!("{}: no such outcome", row.place),
    })
}
