//! A host script carried out on one thread: each task as soon as it is posted, each stop as soon as it is asked for.
ghost use Rattle.std.specs.Prelude.{◌≡◌, ◌<◌, ◌≤◌, length, map, IfOk, OnOk};
ghost use Rattle.isolate_meaning.specs.Replay.{Kept, MayPerform, Performs, stopped};
ghost use Rattle.host_syntax.specs.Whole.{IsWhole};
ghost use Rattle.host_meaning.specs.Lawful.{IsLawful};
ghost use Rattle.host_meaning.specs.Machine.{MayReceive, received, received_all};
ghost use Rattle.host_laws.specs.Driving.{AreReplies, fresh_cells, outs_at};

use host_machine::Host;
use host_meaning::Move;
use host_syntax::{HostScript, IsolateDecl};
use isolate_core::Cell;
use ivm_text::{CloneWhole, Items, NoMemory};
use std::alloc::Global;
use task_history::{Journals, Out, Record, Task};

/// The script again, and the record of a whole run of it.
pub fn carry_out(alloc: Global, script: HostScript) -> Result<(HostScript, Record), NoMemory>
    requires { IsWhole script }
    ensures script { IfOk result (λ ran. ran.0 ≡ script) }
    ensures lawful { IfOk result (λ ran. IsLawful script ran.1) }
{
    let mut cells = fresh_cells(alloc, script.isolates.as_slice())?;
    let mut host = Host::new(alloc, script)?;
    'commands: loop {
        match host.step()? {
            Move::Blocked => break,
            // Beside isolates that do what was posted to them, each call has its target.
            Move::NoTarget => unreachable!(),
            Move::Own => {}
            Move::Post { isolate, task } => {
                perform(
                    alloc,
                    &mut host,
                    &mut cells[isolate as usize],
                    isolate,
                    task,
                )?
            }
            Move::Ask { isolate } => {
                stop(alloc, &mut host, &mut cells[isolate as usize], isolate)?
            }
        }
    }
    let isolates = journals(alloc, cells)?;
    let (script, host) = host.into_parts();
    Ok((script, Record { host, isolates }))
}

// A fresh cell for each isolate, in the order of their numbers.
fn fresh_cells(alloc: Global, decls: &[IsolateDecl]) -> Result<Vec<Cell>, NoMemory>
    requires { length decls.now ≤ 64 }
    ensures { IfOk result (λ cells. cells.items ≡ fresh_cells 0 decls.now) }
{
    let mut cells = Vec::new(alloc);
    for (number, decl) in decls.iter().enumerate() {
        cells.push(Cell::new(alloc, number as u32, decl.limit)?)?;
    }
    Ok(cells)
}

// Performs a task, and has the host receive all that it sent out.
fn perform(
    alloc: Global,
    host: &mut Host,
    cell: &mut Cell,
    isolate: u32,
    task: Task,
) -> Result<(), NoMemory>
    requires fits { MayPerform cell.old task }
    requires within { isolate < length host.old.script.isolates }
    ensures cell { OnOk result (Performs task cell.old cell.new) }
    ensures host { OnOk result (host.new ≡ received_all host.old isolate (outs_at cell.new.journal (length cell.old.journal))) }
{
    let place = cell.journal().len();
    cell.perform(task)?;
    receive_from(alloc, host, cell, isolate, place)
}

// Stops an isolate, and has the host receive all that it sent out.
fn stop(alloc: Global, host: &mut Host, cell: &mut Cell, isolate: u32) -> Result<(), NoMemory>
    requires within { isolate < length host.old.script.isolates }
    ensures cell { cell.new ≡ stopped cell.old }
    ensures host { OnOk result (host.new ≡ received_all host.old isolate (outs_at cell.new.journal (length cell.old.journal))) }
{
    let place = cell.journal().len();
    cell.dispose();
    receive_from(alloc, host, cell, isolate, place)
}

// Has the host receive the outs of the entry at a place, if there is one.
fn receive_from(
    alloc: Global,
    host: &mut Host,
    cell: &Cell,
    isolate: u32,
    place: usize,
) -> Result<(), NoMemory>
    requires within { isolate < length host.old.script.isolates }
    requires replies { AreReplies (outs_at cell.now.journal place) }
    ensures { OnOk result (host.new ≡ received_all host.old isolate (outs_at cell.now.journal place)) }
{
    match cell.journal().get(place) {
        Some(entry) => receive_all(alloc, host, isolate, entry.outs.as_slice()),
        None => Ok(()),
    }
}

// Has the host receive these outs of an isolate, in their order.
fn receive_all(alloc: Global, host: &mut Host, isolate: u32, outs: &[Out]) -> Result<(), NoMemory>
    requires within { isolate < length host.old.script.isolates }
    requires replies { AreReplies outs.now }
    ensures { OnOk result (host.new ≡ received_all host.old isolate outs.now) }
{
    for out in outs {
        receive(alloc, host, isolate, out)?;
    }
    Ok(())
}

// Has the host receive one out of an isolate, whose journal keeps it too. No task follows from a reply.
fn receive(alloc: Global, host: &mut Host, isolate: u32, out: &Out) -> Result<(), NoMemory>
    requires { MayReceive host.old.script isolate out.now }
    ensures { OnOk result (host.new ≡ received host.old isolate out.now) }
{
    let heard = out.clone_whole(alloc)?;
    let _follows = host.receive(isolate, heard)?;
    Ok(())
}

// The journals of cells that are done with.
fn journals(alloc: Global, cells: Vec<Cell>) -> Result<Journals, NoMemory>
    ensures { IfOk result (λ journals. journals ≡ map (λ (cell : Kept). cell.journal) cells.items) }
{
    let mut journals = Items::new(alloc);
    for cell in cells {
        journals.push(cell.into_journal())?;
    }
    Ok(journals)
}
