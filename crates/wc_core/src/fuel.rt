//! The fuel that processes have after a kill.

ghost use Rattle.std.specs.Prelude.{◌≡◌, ◌+◌, Some};
ghost use Rattle.wc_world.specs.Records.{find_record};
ghost use Rattle.wc_machine.specs.Kills.{awaited_fuel, fuel_after};
ghost use Rattle.wc_machine.specs.Tasks.{saturated};

use wc_state::{Await, Part, ProcessRecord};
use wc_world::{World, has_ended};

/// The fuel that the process with this number has after a kill in which it is; 0 where there is none.
#[cycle(fuel)]
fn fuel_at(world: &World, pid: u32, levels: u32) -> u64
    ensures { result ≡ fuel_after levels world.now.world (find_record pid world.now.world.records) }
{
    match world.record_of(pid) {
        Some(process) => fuel_after(world, process, levels),
        None => 0,
    }
}

/// Fuel, and 1 and the fuel after a kill for each awaited process.
#[cycle(fuel)]
fn with_awaited(world: &World, fuel: u64, awaiting: &[Await], levels: u32) -> u64
    ensures { result ≡ saturated (fuel + awaited_fuel (λ pid. fuel_after levels world.now.world (find_record pid world.now.world.records)) awaiting.now) }
{
    let mut sum = fuel;
    for awaited in awaiting {
        let more = fuel_at(world, awaited.pid, levels);
        sum = sum.saturating_add(1).saturating_add(more);
    }
    sum
}

/// The fuel that a process has after a kill in which it is, where calls nest in at most so many levels.
#[cycle(fuel)]
pub(crate) fn fuel_after(world: &World, process: &ProcessRecord, levels: u32) -> u64
    ensures { result ≡ fuel_after levels world.now.world (Some process.now) }
{
    let fuel = process.fuel;
    if levels == 0 || has_ended(process.state) {
        return fuel;
    }
    match &process.part {
        Part::Chain(checkpoint) => with_awaited(
            world,
            fuel,
            checkpoint.awaiting.as_slice(),
            levels - 1,
        ),
        Part::Fresh | Part::Job(_) | Part::Over => fuel,
    }
}
