//! Copies of trees, states and plain values.

use crate::lists::put_facts;
use crate::shown::Shown;
use std::alloc::{AllocError, Global};
use wc_value::{
    Branches, Duplicate, Fields, Kind, ProcessState, Reason, Text, Tree, both, filled, let_go,
    same_state, same_tree,
};

/// A copy, through the bound alone.
fn copied<T: Duplicate>(item: &T) -> Result<T, AllocError> {
    item.copy()
}

/// Something that has ended without outputs.
fn ended(alloc: Global, definition: Text, state: ProcessState, calls: Branches) -> Tree {
    Tree {
        definition,
        state,
        outputs: Fields::new(alloc),
        calls,
    }
}

/// A function that has ended.
fn leaf(alloc: Global) -> Result<Tree, AllocError> {
    let name = Text::of_str(alloc, "add")?;
    let state = ProcessState::Finished(0);
    Ok(ended(alloc, name, state, Branches::new(alloc)))
}

/// A list of one called process, which is labelled.
fn called(alloc: Global, tree: Tree) -> Result<Branches, AllocError> {
    let (tree, label) = both(tree, Text::of_str(alloc, "parts_1"))?;
    let mut calls = Branches::new(alloc);
    let put = calls.push((label, tree));
    filled(calls, put)
}

/// A chain that called the function.
fn chain(alloc: Global) -> Result<Tree, AllocError> {
    let name = Text::of_str(alloc, "chain")?;
    let calls = called(alloc, leaf(alloc)?)?;
    let state = ProcessState::Excepted(Reason::Overflow);
    Ok(ended(alloc, name, state, calls))
}

/// Whether the copy of a tree is the same tree.
fn is_copied(tree: &Tree) -> bool {
    match copied(tree) {
        Ok(copy) => {
            let is_same = same_tree(&copy, tree);
            let_go(copy);
            is_same
        }
        Err(_) => false,
    }
}

/// Whether the copy of a state is the same state.
fn is_state_copied(state: &ProcessState) -> bool {
    match copied(state) {
        Ok(copy) => same_state(&copy, state),
        Err(_) => false,
    }
}

/// Puts whether a tree is copied, with its state, and lets it go.
fn put_tree(shown: &mut Shown, tree: Result<Tree, AllocError>) {
    match tree {
        Ok(tree) => {
            put_facts(
                shown,
                &[
                    ("a tree copied", is_copied(&tree)),
                    ("its state copied", is_state_copied(&tree.state)),
                ],
            );
            let_go(tree);
        }
        Err(_) => shown.lose(),
    }
}

/// Puts whether trees, states and plain values are copied.
pub fn put_copies(alloc: Global, shown: &mut Shown) {
    let pair = copied(&Some((3u32, true)));
    let kind = copied(&(4u64, Kind::Text));
    put_facts(
        shown,
        &[
            ("a pair copied", matches!(pair, Ok(Some((3, true))))),
            ("a kind copied", matches!(kind, Ok((4, Kind::Text)))),
        ],
    );
    put_tree(shown, leaf(alloc));
    put_tree(shown, chain(alloc));
}
