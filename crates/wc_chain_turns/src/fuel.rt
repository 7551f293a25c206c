//! The fuel of a work chain once it has bound the children that it awaited.

ghost use Rattle.std.specs.Prelude.{◌≡◌, ◌+◌};
ghost use Rattle.wc_world.specs.Records.{find_record};
ghost use Rattle.wc_machine.specs.Calls.{fuel_at, fuel_of};
ghost use Rattle.wc_machine.specs.Tasks.{saturated};

use wc_state::Awaits;
use wc_world::World;

/// The fuel that is kept of a process, if there is one with this number.
fn fuel_at(world: &World, pid: u32) -> u64
    ensures { result ≡ fuel_at (find_record pid world.now.world.records) }
{
    match world.record_of(pid) {
        Some(record) => record.fuel,
        None => 0,
    }
}

/// The fuel of a chain that had so much, once it has bound these children: theirs is added, and one for each.
pub fn bound_fuel(world: &World, fuel: u64, awaiting: &Awaits) -> u64
    ensures { result ≡ saturated (fuel + fuel_of world.now.world.records awaiting.now) }
{
    let mut sum = fuel;
    for awaited in awaiting.as_slice() {
        sum = sum
            .saturating_add(fuel_at(world, awaited.pid))
            .saturating_add(1);
    }
    sum
}
