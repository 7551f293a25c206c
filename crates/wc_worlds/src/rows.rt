//! Rows: a word, and what stands behind it.

use crate::changes::{put_read, put_snapshot, read_changed};
use crate::environments::put_environment;
use crate::graphs::{add_chain, add_links, add_node, add_nodes, fill, make_room, put_sizes};
use crate::items::put_items;
use crate::parts::Parts;
use crate::stage::{Stage, add_name};
use crate::told::Told;
use crate::walks::{Way, put_order, put_walk};
use crate::worlds::{fits, put_counts, put_record, put_tree, put_value, take, worse};
use std::alloc::Global;

/// The bytes of items get a name.
fn name_items(alloc: Global, stage: &mut Stage, rest: &str, told: &mut Told) {
    let Some((name, items)) = rest.split_once(' ') else {
        told.refuse();
        return;
    };
    let mut parts = Parts::new(alloc);
    put_items(alloc, &stage.names, &mut parts, items);
    if parts.is_right(told) {
        add_name(alloc, &mut stage.names, name, parts.bytes(), told);
    }
}

/// A walk over links of the types that items say.
fn walk(alloc: Global, stage: &Stage, way: Way, rest: &str, told: &mut Told) {
    let (node, items) = rest.split_once(' ').unwrap_or(("", ""));
    let mut types = Parts::new(alloc);
    put_items(alloc, &stage.names, &mut types, items);
    if types.is_right(told) {
        put_walk(alloc, &stage.graph, way, node, types.bytes(), told);
    }
}

/// A row with a number, of what the graph gets or the world is asked.
fn play_number(alloc: Global, stage: &mut Stage, word: &str, number: u32, told: &mut Told) {
    match word {
        "fill" => fill(&mut stage.graph, number, told),
        "room" => make_room(&mut stage.graph, number, told),
        "chain" => add_chain(alloc, &mut stage.graph, number, told),
        "value" => put_value(alloc, &stage.world, number, told),
        "record" => put_record(alloc, &stage.world, number, told),
        "tree" => put_tree(alloc, &stage.world, number, told),
        "environment" => put_environment(alloc, &stage.world, number, told),
        _ => told.refuse(),
    }
}

/// A row of what the graph gets and is asked, or of what the world is asked.
fn play_other(alloc: Global, stage: &mut Stage, word: &str, rest: &str, told: &mut Told) {
    match word {
        "nodes" => add_nodes(&mut stage.graph, rest, told),
        "node" => add_node(&mut stage.graph, rest, told),
        "sizes" => put_sizes(&stage.graph, told),
        "ancestors" => walk(alloc, stage, Way::Up, rest, told),
        "descendants" => walk(alloc, stage, Way::Down, rest, told),
        "order" => put_order(alloc, &stage.graph, told),
        "counts" => put_counts(&stage.world, told),
        _ => match rest.parse() {
            Ok(number) => play_number(alloc, stage, word, number, told),
            Err(_) => told.refuse(),
        },
    }
}

/// A row of what the bytes are read as. Where items stand behind its word, the bytes are those of the items from now on.
fn play_bytes(alloc: Global, stage: &mut Stage, word: &str, rest: &str, told: &mut Told) {
    if !rest.is_empty() && !stage.set_bytes(alloc, rest, told) {
        return;
    }
    let bytes = stage.bytes.bytes();
    match word {
        "read" => put_read(alloc, bytes, told),
        "worse" => worse(alloc, &stage.world, bytes, told),
        "take" => take(alloc, &mut stage.world, bytes, told),
        "snapshot" => put_snapshot(alloc, &stage.world, bytes, told),
        "links" => add_links(alloc, &mut stage.graph, bytes, told),
        "fits" => fits(alloc, &stage.world, bytes, told),
        _ => told.refuse(),
    }
}

/// Plays a row, and puts what it answers.
pub fn play_row(alloc: Global, stage: &mut Stage, row: &str, told: &mut Told) {
    if let Some(line) = row.strip_prefix("  ") {
        stage.put_line(line, told);
        return;
    }
    let (word, rest) = row.split_once(' ').unwrap_or((row, ""));
    match word {
        "name" => name_items(alloc, stage, rest, told),
        "text" => add_name(alloc, &mut stage.names, rest, stage.bytes.bytes(), told),
        "bytes" => {
            let _ = stage.set_bytes(alloc, rest, told);
        }
        "+" => {
            let _ = stage.put_bytes(alloc, rest, told);
        }
        "byte" => read_changed(alloc, stage.bytes.bytes(), rest, told),
        "read" | "links" | "fits" | "worse" | "take" | "snapshot" => {
            play_bytes(alloc, stage, word, rest, told);
        }
        _ => play_other(alloc, stage, word, rest, told),
    }
}
