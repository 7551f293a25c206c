//! Worlds: the changes that they take and refuse, and what they tell.

use crate::changes::changes_of;
use crate::told::Told;
use std::alloc::Global;
use std::mem;
use wc_graph::NodeKind;
use wc_report::{state_text, tree_lines, value_text};
use wc_state::{Part, ProcessRecord};
use wc_trees::tree_of;
use wc_value::{List, Text, Value, Values, Words, let_go, put};
use wc_world::{Change, Changes, World, WorldError};

/// Tells whether a world takes changes, or why not.
fn put_judged(told: &mut Told, judged: Result<(), WorldError>) {
    match judged {
        Ok(()) => told.put("fits\n"),
        Err(error) => told.put_line(&error),
    }
}

/// Whether a world takes changes. This says nothing of the call, so that no row carries what it promises.
fn judge(alloc: Global, world: &World, changes: &Changes) -> Result<(), WorldError> {
    world.accepts(alloc, changes)
}

/// Tells whether a world takes the changes that bytes spell, or why not.
pub fn fits(alloc: Global, world: &World, bytes: &[u8], told: &mut Told) {
    match changes_of(alloc, bytes) {
        Ok(changes) => {
            put_judged(told, judge(alloc, world, &changes));
            let_go(changes);
        }
        Err(error) => told.put_line(&error),
    }
}

/// Names of a library end in one that stands before the others.
fn worsen_names(alloc: Global, names: &mut Words) {
    if let Ok(least) = Text::of_str(alloc, "") {
        let _pushed = names.push(least);
    }
}

/// A value stands in one list more.
fn worsen_value(alloc: Global, value: &mut Value) {
    let mut outside = Values::new(alloc);
    let _pushed = outside.push(mem::replace(value, Value::Int(0)));
    put(value, Value::List(outside));
}

/// A job has failed six times.
fn worsen_part(part: &mut Part) {
    if let Part::Job(job) = part {
        job.fails = 6;
    }
}

/// Makes a change one that no bytes spell, if there is such a one.
fn worsen(alloc: Global, change: &mut Change) {
    match change {
        Change::Library(_, names) => worsen_names(alloc, names),
        Change::Data(value) => worsen_value(alloc, value),
        Change::Set(set) => worsen_part(&mut set.part),
        _ => {}
    }
}

/// A list of an item, if there is one. Where memory runs out the list is empty.
fn listed<T: Drop>(alloc: Global, item: Option<T>) -> List<T> {
    let mut list = List::new(alloc);
    if let Some(item) = item {
        let _pushed = list.push(item);
    }
    list
}

/// The last change alone, made one that no bytes spell.
fn worst(alloc: Global, changes: Changes) -> Changes {
    let mut last = changes.into_vec().pop();
    if let Some(change) = &mut last {
        worsen(alloc, change);
    }
    listed(alloc, last)
}

/// Tells whether a world takes the last change that bytes spell once it is spoiled, so that no bytes spell it, or why not.
pub fn worse(alloc: Global, world: &World, bytes: &[u8], told: &mut Told) {
    match changes_of(alloc, bytes) {
        Ok(changes) => {
            let worst = worst(alloc, changes);
            put_judged(told, judge(alloc, world, &worst));
            let_go(worst);
        }
        Err(error) => told.put_line(&error),
    }
}

/// The world with changes that it takes.
fn add(alloc: Global, world: &mut World, changes: Changes) -> Result<(), WorldError> {
    world.accepts(alloc, &changes)?;
    world.reserve(alloc, &changes)?;
    world.apply(changes);
    Ok(())
}

/// A world takes the changes that bytes spell, or it is told why it doesn't.
pub fn take(alloc: Global, world: &mut World, bytes: &[u8], told: &mut Told) {
    match changes_of(alloc, bytes) {
        Ok(changes) => told.put_done(add(alloc, world, changes)),
        Err(error) => told.put_line(&error),
    }
}

/// Tells how many batches, nodes, links, processes and libraries there are.
pub fn put_counts(world: &World, told: &mut Told) {
    let batches = world.batches();
    let nodes = world.graph().nodes().len();
    let links = world.graph().links().len();
    let processes = world.records().as_slice().len();
    let libraries = world.libraries().len();
    told.put_numbers(&[
        ("batches ", batches as u64),
        (" nodes ", nodes as u64),
        (" links ", links as u64),
        (" processes ", processes as u64),
        (" libraries ", libraries as u64),
    ]);
}

/// Tells the value of a node, if it is data.
fn put_data(alloc: Global, node: Option<&NodeKind>, told: &mut Told) {
    match node {
        Some(NodeKind::Data(value)) => {
            told.put_text(value_text(alloc, value));
            told.put("\n");
        }
        _ => told.put("no data\n"),
    }
}

/// Tells the value of a data node.
pub fn put_value(alloc: Global, world: &World, node: u32, told: &mut Told) {
    match node.checked_sub(1) {
        Some(at) => put_data(alloc, world.graph().nodes().get(at as usize), told),
        None => told.refuse(),
    }
}

/// Tells what is kept of a process: what it runs, its state, its fuel, and in which batches it started and ended.
fn put_kept(alloc: Global, record: &ProcessRecord, told: &mut Told) {
    told.put(record.definition.as_str());
    told.put(" ");
    told.put_text(state_text(alloc, record.state));
    let (started, ended) = (record.started as u64, record.ended as u64);
    told.put_numbers(&[
        (" fuel ", record.fuel),
        (" started ", started),
        (" ended ", ended),
    ]);
}

/// Tells what is kept of a process, if there is such a one.
pub fn put_record(alloc: Global, world: &World, pid: u32, told: &mut Told) {
    match world.record_of(pid) {
        Some(record) => put_kept(alloc, record, told),
        None => told.put("no process\n"),
    }
}

/// Tells the tree that a world records of a process.
pub fn put_tree(alloc: Global, world: &World, pid: u32, told: &mut Told) {
    match tree_of(alloc, world, pid) {
        Ok(tree) => {
            told.put_text(tree_lines(alloc, &tree));
            let_go(tree);
        }
        Err(error) => told.put_line(&error),
    }
}
