//! The word `heap`: items, properties or elements are made, read and changed. Large heaps as rows.
ghost use Rattle.std.specs.Prelude.{◌<◌, length, IsTrue};
ghost use Rattle.charged_heap.specs.Store.{item_at, place_count};

use crate::members::check_step;
use crate::sums::{limit_of, sum_of};
use anyhow::{Error, bail};
use charged_heap::{Heap, HeapFault, Item, PromiseState, Props, Value};
use ivm_text::{Items, Units};
use std::alloc::Global;
use std::fs;
use std::time::{Duration, Instant};
use test_tables::{Table, Tally};

/// How long it took to make, to read and to change all of them; the charge in the end, and how many
/// of them were found when they were read.
#[derive(Debug, Drop)]
struct Measures {
    made: Duration,
    read: Duration,
    changed: Duration,
    charged: u32,
    found: u32,
}

const LIMIT: u32 = 4_294_967_295;

/// A row says what is made, how many, the limit, how many are found, and the charge.
pub fn run_table(rt: &HostRuntime, tally: &mut Tally, table: &Table) -> Result<(), Error> {
    for row in table.rows.as_slice() {
        let what = row.field(0)?;
        let count = row.field(1)?.parse::<u32>()?;
        let keys = keys(rt.alloc(), what, count)?;
        let limit = limit_of(sum_of(row.field(2)?)?)?;
        let measures = measure(rt, what, count, &keys, limit)?;
        let answer = format!(in rt.alloc(); "{} found", measures.found)?;
        check_step(rt, tally, row, &answer, 0, measures.charged)?;
    }
    Ok(())
}

/// Prints the charge and how many were found, and with a further word times and memory.
pub fn run(
    rt: &HostRuntime,
    what: Option<String>,
    count: Option<String>,
    timed: bool,
) -> Result<(), Error> {
    let (Some(what), Some(count)) = (what, count) else {
        bail!("what is to be made, and how many?");
    };
    let number = count.parse::<u32>()?;
    let keys = keys(rt.alloc(), &what, number)?;
    if timed {
        tell_memory(rt)?;
    }
    let measures = measure(rt, &what, number, &keys, LIMIT)?;
    let Measures { charged, found, .. } = &measures;
    println!(rt; "{what} {number}: {charged} cells, {found} found")?;
    if timed {
        println!(rt; "made {:?}", measures.made)?;
        println!(rt; "read {:?}", measures.read)?;
        println!(rt; "changed {:?}", measures.changed)?;
        tell_memory(rt)?;
    }
    Ok(())
}

/// The most memory that the program has taken so far, where the system tells it.
fn tell_memory(rt: &HostRuntime) -> Result<(), Error> {
    let Ok(status) = fs::read_to_string(rt, "/proc/self/status") else {
        return Ok(());
    };
    for line in status.lines() {
        if line.starts_with("VmHWM") {
            println!(rt; "{line}")?;
        }
    }
    Ok(())
}

/// The keys `0`, `1` and so on, so many of them, where properties are made.
fn keys(alloc: Global, what: &str, count: u32) -> Result<Vec<Units>, Error> {
    let mut keys = Vec::new(alloc);
    if what == "properties" {
        for n in 0..count {
            keys.push(Units::decimal(alloc, n as i64)?)?;
        }
    }
    Ok(keys)
}

/// Promises, the properties of one object or the elements of one array, each read and then changed.
fn measure(
    rt: &HostRuntime,
    what: &str,
    count: u32,
    keys: &[Units],
    limit: u32,
) -> Result<Measures, Error> {
    let mut heap = Heap::new(rt.alloc(), limit);
    begin(rt.alloc(), &mut heap, what)?;
    let start = Instant::now(rt)?;
    make(rt.alloc(), &mut heap, what, count, keys)?;
    let made = start.elapsed(rt)?;
    let start = Instant::now(rt)?;
    let found = find(&heap, what, count, keys);
    let read = start.elapsed(rt)?;
    let start = Instant::now(rt)?;
    change(&mut heap, what, count, keys)?;
    let changed = start.elapsed(rt)?;
    Ok(Measures {
        made,
        read,
        changed,
        charged: heap.charged(),
        found,
    })
}

fn begin(alloc: Global, heap: &mut Heap, what: &str) -> Result<(), Error> {
    match what {
        "items" => {}
        "properties" => {
            heap.add(Item::Plain(Props::new(alloc)?))?;
        }
        "elements" => {
            heap.add(Item::Array(Items::new(alloc)))?;
        }
        _ => bail!("items, properties or elements?"),
    }
    Ok(())
}

fn make(
    alloc: Global,
    heap: &mut Heap,
    what: &str,
    count: u32,
    keys: &[Units],
) -> Result<(), HeapFault> {
    match what {
        "items" => make_items(alloc, heap, count),
        "properties" => set_all(heap, keys),
        _ => push_all(heap, count),
    }
}

fn find(heap: &Heap, what: &str, count: u32, keys: &[Units]) -> u32 {
    match what {
        "items" => find_items(heap),
        "properties" => find_all(heap, keys),
        _ => find_elements(heap, count),
    }
}

fn change(heap: &mut Heap, what: &str, count: u32, keys: &[Units]) -> Result<(), HeapFault> {
    match what {
        "items" => fulfil_items(heap),
        "properties" => set_all(heap, keys)?,
        _ => put_all(heap, count),
    }
    Ok(())
}

// ---- items

fn make_items(alloc: Global, heap: &mut Heap, count: u32) -> Result<(), HeapFault> {
    for _ in 0..count {
        heap.add(Item::Promise {
            state: PromiseState::Pending,
            reactions: Items::new(alloc),
        })?;
    }
    Ok(())
}

fn find_items(heap: &Heap) -> u32 {
    let mut found: u32 = 0;
    for n in 0..heap.len() {
        if let Item::Promise { .. } = heap.get(n) {
            found = found.saturating_add(1);
        }
    }
    found
}

fn fulfil_items(heap: &mut Heap) {
    for n in 0..heap.len() {
        if heap.is_promise(n) {
            heap.resolve(n, PromiseState::Fulfilled(Value::Num(1)));
        }
    }
}

// ---- properties

/// Gives each key its number as the value.
fn set_all(heap: &mut Heap, keys: &[Units]) -> Result<(), HeapFault> {
    let mut number: u32 = 0;
    for key in keys {
        if heap.is_plain(0) {
            heap.set(0, key, Value::Num(number as i64))?;
        }
        number = number.saturating_add(1);
    }
    Ok(())
}

fn find_all(heap: &Heap, keys: &[Units]) -> u32 {
    let mut found: u32 = 0;
    for key in keys {
        if heap.is_plain(0) && heap.property(0, key) == Some(Value::Num(found as i64)) {
            found = found.saturating_add(1);
        }
    }
    found
}

// ---- elements

fn push_all(heap: &mut Heap, count: u32) -> Result<(), HeapFault> {
    for n in 0..count {
        if heap.is_array(0) {
            heap.push(0, Value::Num(n as i64))?;
        }
    }
    Ok(())
}

fn find_elements(heap: &Heap, count: u32) -> u32 {
    let mut found: u32 = 0;
    for place in 0..count {
        if has_element(heap, place) {
            found = found.saturating_add(1);
        }
    }
    found
}

/// Whether the first item is an array with an element at this place.
fn has_element(heap: &Heap, place: u32) -> bool
    ensures there { IsTrue result → 0 < length heap.now.items }
    ensures within { IsTrue result → place < place_count (item_at heap.now 0) }
{
    if heap.len() == 0 {
        return false;
    }
    match heap.get(0) {
        Item::Array(values) => place < values.len(),
        _ => false,
    }
}

fn put_all(heap: &mut Heap, count: u32) {
    for place in 0..count {
        if has_element(heap, place) {
            heap.put(0, place, Value::Null);
        }
    }
}
