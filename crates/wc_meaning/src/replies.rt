//! `replay` and `dry`.

ghost use Rattle.std.specs.Prelude.{◌≡◌, ◌≤◌, ◌-◌, []};
ghost use Rattle.wc_meaning.specs.Replies.{Replies, DryReplies, tree_alone, reply_of};
ghost use Rattle.wc_meaning.specs.declared.replies.DryError.TheVariants.{OutOfMemory};

use crate::inputs::find_bad_input;
use crate::run::mean;
use std::alloc::{AllocError, AllocFailed, Global};
use thiserror::Error;
use wc_semantics::{Answer, Kills, Replayed};
use wc_syntax::{Checked, Library, find_definition, head};
use wc_value::{Duplicate, Fields, Request, Table, Text, Tree};

/// The greatest depth of a process.
const DEEPEST: u32 = 16;

/// Why a definition has no tree.
#[derive(Debug, Drop, Error)]
pub enum DryError {
    /// Memory ran out.
    #[error("out of memory")]
    OutOfMemory,
    /// The first request, in order of evaluation, that the table lacks.
    #[error("no answer to {0:?}")]
    NoAnswer(Request),
    /// The library has no definition of the name.
    #[error("unknown name")]
    UnknownName,
    /// The least port with a bad input.
    #[error("bad input {0:?}")]
    BadInputs(Text),
}

impl From<AllocError> for DryError {
    ghost from_gives = { λ _ e. e ≡ OutOfMemory };

    fn from(_error: AllocError) -> DryError {
        DryError::OutOfMemory
    }
}

impl<T: Drop> From<AllocFailed<T>> for DryError {
    ghost from_gives = { λ _ e. e ≡ OutOfMemory };

    fn from(_error: AllocFailed<T>) -> DryError {
        DryError::OutOfMemory
    }
}

/// What a definition gives for its inputs, if those are good.
pub fn reply(
    alloc: Global,
    library: &Library,
    name: &Text,
    inputs: &Fields,
    levels: u32,
    table: &Table,
    kills: &Kills,
    fuel: u64,
) -> Result<Option<Replayed>, DryError>
    ensures { Replies result (reply_of library.now name.now inputs.now levels table.now kills.now fuel) }
{
    let definition = match find_definition(library, name) {
        Some(definition) => definition,
        None => return Err(DryError::UnknownName),
    };
    if let Some(port) = find_bad_input(head(definition).inputs.as_slice(), inputs) {
        return Err(DryError::BadInputs(port.copy()?));
    }
    match mean(alloc, library, levels, table, kills, fuel, name, inputs)? {
        Answer::Gave(replayed, _) => Ok(Some(replayed)),
        Answer::TooLittle => Ok(None),
        Answer::Without(request) => Err(DryError::NoAnswer(request)),
        Answer::Astray => Ok(None),
    }
}

/// The tree that a definition has for its inputs at a depth, under these kills and with this fuel, and what was asked for it.
/// None where the fuel doesn't suffice, or a kill is missed: its process isn't there, or makes fewer calls.
pub fn replay(
    alloc: Global,
    library: &Checked,
    name: &Text,
    inputs: &Fields,
    depth: u32,
    table: &Table,
    kills: &Kills,
    fuel: u64,
) -> Result<Option<Replayed>, DryError>
    requires root { 1 ≤ depth }
    requires deepest { depth ≤ 16 }
    ensures { Replies result (reply_of library.now name.now inputs.now (16 - depth) table.now kills.now fuel) }
{
    reply(
        alloc,
        library.library(),
        name,
        inputs,
        DEEPEST - depth,
        table,
        kills,
        fuel,
    )
}

/// A reply with the tree alone.
fn tree_alone(reply: Result<Option<Replayed>, DryError>) -> Result<Option<Tree>, DryError>
    ensures { result ≡ tree_alone reply }
{
    match reply {
        Ok(Some(replayed)) => Ok(Some(replayed.tree)),
        Ok(None) => Ok(None),
        Err(error) => Err(error),
    }
}

/// The tree that a definition has for its inputs as a root that isn't killed. None where the fuel doesn't suffice.
pub fn dry(
    alloc: Global,
    library: &Checked,
    name: &Text,
    inputs: &Fields,
    table: &Table,
    fuel: u64,
) -> Result<Option<Tree>, DryError>
    ensures { DryReplies result (reply_of library.now name.now inputs.now 15 table.now [] fuel) }
{
    let kills = Kills::new(alloc);
    tree_alone(replay(alloc, library, name, inputs, 1, table, &kills, fuel))
}
