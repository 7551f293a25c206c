//! Submissions of generated chains.

ghost use Rattle.std.specs.Prelude.{◌≡◌, true, IsTrue, IfOk, IfErr, OnOk, OnErr};
ghost use Rattle.wc_state.specs.Ranges.{AreLimits};
ghost use Rattle.wc_store.specs.Stepped.{IsAsBefore, Stepped};
ghost use Rattle.wc_store.specs.Stores.{StandsFor};
ghost use Rattle.wc_ends.specs.Runner.Refusals.{is_live_after};
ghost use Rattle.wc_ends.specs.Runner.Turns.{IsRoomOrMemory, of_turn};
ghost use Rattle.wc_drill.specs.Library.{library};
ghost use Rattle.wc_drill.specs.Drilled.{IsSubmitted, Submitted, usual_limits};
ghost use Rattle.wc_drill.specs.Refusals.{RefusesChains};
ghost use Rattle.wc_drill.specs.Submissions.{IsCrowded, IsStorable, RefusesChain, SubmitsOne, SubmitsSome};

use crate::{chain_inputs, chain_name, next_numbers};
use std::alloc::Global;
use wc_disk::Disk;
use wc_ends::{RunError, commit_changes, submit_changes};
use wc_machine::TurnError;
use wc_state::Limits;
use wc_store::Store;
use wc_syntax::Checked;
use wc_value::{Generator, Words};
use wc_world::{Changes, World};

/// The limits where none are set.
pub(crate) fn usual_limits() -> Limits
    ensures value { result ≡ usual_limits }
    ensures ranges { AreLimits result }
{
    Limits {
        max_nodes: 1_000_000,
        max_bytes: 268_435_456,
        poll_ms: 1_000,
    }
}

/// What is told of a submission's refusal. The library has the definition of chains, whose ports take the inputs.
fn of_turn(error: TurnError) -> RunError
    requires { IsRoomOrMemory error }
    ensures { result ≡ of_turn error }
{
    match error {
        TurnError::Full(what, count, limit) => RunError::Full(what, count, limit),
        TurnError::OutOfMemory => RunError::OutOfMemory,
        _ => unreachable!(),
    }
}

/// The changes of the submission of a chain with these numbers.
fn chain_changes(
    alloc: Global,
    world: &World,
    chains: &Checked,
    first: u32,
    second: u32,
) -> Result<Changes, RunError>
    requires library { chains.now ≡ library }
    ensures ok { IfOk result (IsStorable first second world.now.world) }
    ensures refused { IfErr result (IsCrowded first second world.now.world) }
{
    let limits = usual_limits();
    let library = chains.clone()?;
    let name = chain_name(alloc)?;
    let inputs = chain_inputs(alloc, first, second)?;
    match submit_changes(
        alloc,
        world,
        &limits,
        library,
        Words::new(alloc),
        &name,
        inputs,
    ) {
        Ok(changes) => Ok(changes),
        Err(error) => Err(of_turn(error)),
    }
}

/// Submits a chain with these numbers, as one batch.
fn submit_chain<D: Disk>(
    alloc: Global,
    store: &mut Store,
    one: &mut D,
    two: &mut D,
    chains: &Checked,
    first: u32,
    second: u32,
) -> Result<(), RunError>
    requires live { store.old.live ≡ true }
    requires stands { IsTrue (D.tells one.old) → IsTrue (D.tells two.old) → StandsFor D.Disk store.old one.old two.old }
    requires library { chains.now ≡ library }
    // At each moment the disks hold the world before or the one after, each by its journal.
    ensures stepped { Stepped D.Disk (SubmitsOne first second store.old) (is_live_after result) store.old one.old two.old store.new one.new two.new }
    ensures ok { OnOk result (IsSubmitted first second store.old.world.world store.new.world.world) }
    ensures same { OnErr result (IsAsBefore store.old store.new.world.world store.new.journal) }
    ensures refused { IfErr result (RefusesChain first second store.old.journal store.old.world.world) }
{
    match chain_changes(alloc, store.world(), chains, first, second) {
        Ok(changes) => {
            let limits = usual_limits();
            commit_changes(alloc, store, one, two, &limits, changes)
        }
        Err(error) => Err(error),
    }
}

/// Submits so many chains, with the numbers that are drawn from the seed, one after another.
pub(crate) fn submit_chains<D: Disk>(
    alloc: Global,
    store: &mut Store,
    one: &mut D,
    two: &mut D,
    chains: &Checked,
    seed: u32,
    count: u32,
) -> Result<(), RunError>
    requires live { store.old.live ≡ true }
    requires stands { IsTrue (D.tells one.old) → IsTrue (D.tells two.old) → StandsFor D.Disk store.old one.old two.old }
    requires library { chains.now ≡ library }
    // At each moment the disks hold what the first submissions make, by its journal.
    ensures stepped { Stepped D.Disk (SubmitsSome seed count store.old) (is_live_after result) store.old one.old two.old store.new one.new two.new }
    ensures all { OnOk result (Submitted seed count store.old.world.world store.new.world.world) }
    ensures refused { IfErr result (RefusesChains seed count store.old.world.world store.new) }
{
    let mut draws = Generator::new(seed);
    let mut submitted: u32 = 0;
    'chain: loop {
        if submitted == count {
            return Ok(());
        }
        let (first, second) = next_numbers(&mut draws);
        match submit_chain(alloc, store, one, two, chains, first, second) {
            Ok(()) => submitted += 1,
            Err(error) => return Err(error),
        }
    }
}
