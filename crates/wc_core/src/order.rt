//! Which of the ready processes comes next.

ghost use Rattle.std.specs.Prelude.{◌≡◌, IfOk};
ghost use Rattle.std.specs.Option.{unwrap_or};
ghost use Rattle.wc_records.specs.Ready as records;
ghost use Rattle.wc_machine.specs.Readiness.{ready_at};
ghost use Rattle.wc_core.specs.Order.{IsOf, IsNextOf, IsDrawn};

use std::alloc::{AllocError, Global};
use wc_value::Generator;
use wc_world::World;

/// In which order processes have their turns.
#[derive(Drop)]
pub enum Order {
    /// The lowest ready one above the last one that had a turn, else the lowest.
    Round(u32),
    /// At the place that a generator draws.
    Drawn(Generator),
}

/// The lowest ready process above the last one that had a turn, else the lowest, if there is one; it is the last one then.
fn in_round(world: &World, now: u64, last: &mut u32) -> Option<u32>
    ensures next { result ≡ records.first_above last.old (ready_at world.now.world now) }
    ensures last { last.new ≡ unwrap_or result last.old }
{
    let next = world.next_ready(*last, now);
    *last = next.unwrap_or(*last);
    next
}

/// The ready process at the place that a generator draws; where none is ready, it draws nothing.
fn in_draw(
    alloc: Global,
    world: &World,
    now: u64,
    generator: &mut Generator,
) -> Result<Option<u32>, AllocError>
    ensures { IfOk result (IsDrawn (ready_at world.now.world now) generator.old generator.new) }
{
    let ids = world.ready(alloc, now)?;
    if ids.is_empty() {
        return Ok(None);
    }
    Ok(Some(ids[generator.draw() as usize % ids.len()]))
}

impl Order {
    /// The order of a seed: 0 goes round by the numbers, and any other one draws.
    pub fn of(seed: u32) -> Order
        ensures { IsOf seed result }
    {
        if seed == 0 {
            Order::Round(0)
        } else {
            Order::Drawn(Generator::new(seed))
        }
    }

    /// Chooses the next of the processes that are ready at a moment, if there is one. Only a draw takes memory, for the list of
    /// them.
    pub fn next(
        &mut self,
        alloc: Global,
        world: &World,
        now: u64,
    ) -> Result<Option<u32>, AllocError>
        ensures { IfOk result (IsNextOf (ready_at world.now.world now) self.old self.new) }
    {
        match self {
            Order::Round(last) => Ok(in_round(world, now, last)),
            Order::Drawn(generator) => in_draw(alloc, world, now, generator),
        }
    }
}
