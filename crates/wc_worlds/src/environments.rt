//! The environments of processes.

use crate::told::Told;
use std::alloc::Global;
use wc_report::{state_text, value_text};
use wc_state::{Child, Env, Item, Named};
use wc_trees::env_of;
use wc_value::{Duplicate, let_go};
use wc_world::World;

/// Tells labels with their nodes.
fn put_named(named: &Named, told: &mut Told) {
    for (label, value) in named.as_slice() {
        told.put(" ");
        told.put(label.as_str());
        told.put(" ");
        told.put_item(&value.node);
    }
}

/// Tells the number of a called process, its state, and its outputs.
fn put_child(alloc: Global, child: &Child, told: &mut Told) {
    told.put(" ");
    told.put_item(&child.node);
    told.put(" ");
    told.put_text(state_text(alloc, child.state));
    put_named(&child.outputs, told);
}

/// Tells what a key holds.
fn put_item(alloc: Global, item: &Item, told: &mut Told) {
    match item {
        Item::Plain(value) => {
            told.put(" ");
            told.put_text(value_text(alloc, value));
        }
        Item::One(child) => put_child(alloc, child, told),
        Item::Many(children) => {
            for child in children.as_slice() {
                put_child(alloc, child, told);
            }
        }
    }
}

/// Tells the inputs, and what each key of the context holds.
fn put_parts(alloc: Global, env: &Env, told: &mut Told) {
    told.put("inputs");
    put_named(&env.inputs, told);
    told.put("\n");
    for at in 0..env.ctx.len() {
        if let Some((key, item)) = env.ctx.get(at) {
            told.put(key.as_str());
            put_item(alloc, item, told);
            told.put("\n");
        }
    }
}

/// Tells the same of a copy.
fn put_copied(alloc: Global, env: &Env, told: &mut Told) {
    match env.copy() {
        Ok(copied) => {
            put_parts(alloc, &copied, told);
            let_go(copied);
        }
        Err(_) => told.lose(),
    }
}

/// Tells the environment of a process, by a copy of it.
pub fn put_environment(alloc: Global, world: &World, pid: u32, told: &mut Told) {
    match env_of(alloc, world, pid) {
        Ok(env) => {
            put_copied(alloc, &env, told);
            let_go(env);
        }
        Err(error) => told.put_line(&error),
    }
}
