//! Which worker makes the next step.

ghost use Rattle.std.specs.Prelude.{◌≡◌, ◌<◌, ◌≤◌, ℕ};
ghost use Rattle.wc_workers.specs.Orders.{IsAfterStep, StandsAt, next_worker};

use wc_value::Generator;

/// In which order workers make their steps.
#[derive(Drop)]
pub(crate) enum WorkerOrder {
    /// By their numbers, over and over; this is the next.
    Round(u32),
    /// Each as a generator draws.
    Drawn(Generator),
}

impl WorkerOrder {
    /// The order of a seed: 0 goes round by the numbers, and any other one draws.
    pub(crate) fn of(seed: u32) -> WorkerOrder
        ensures { (workers : ℕ) → 0 < workers → StandsAt workers seed 0 result }
    {
        if seed == 0 {
            WorkerOrder::Round(0)
        } else {
            WorkerOrder::Drawn(Generator::new(seed))
        }
    }

    /// The worker that comes next of so many.
    pub(crate) fn next(&mut self, workers: u32) -> u32
        // There is one.
        requires some { 0 < workers }
        // There are at most sixteen.
        requires few { workers ≤ 16 }
        ensures next { result ≡ next_worker workers self.old }
        ensures after { IsAfterStep workers self.old self.new }
        ensures there { result < workers }
    {
        match self {
            WorkerOrder::Round(next) => {
                let worker = *next % workers;
                *next = (worker + 1) % workers;
                worker
            }
            WorkerOrder::Drawn(generator) => generator.draw() % workers,
        }
    }
}
