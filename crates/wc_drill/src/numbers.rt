//! The numbers that are drawn for chains.

ghost use Rattle.std.specs.Prelude.{◌≡◌, ◌≤◌, ◌<◌, ◌+◌, ◌*◌, ℕ};
ghost use Rattle.wc_value.specs.Draws.{after_draws};
ghost use Rattle.wc_drill.specs.Draws.{first_number, second_number, sum_of_squares};

use wc_value::Generator;

/// The two numbers of the next chain.
pub fn next_numbers(draws: &mut Generator) -> (u32, u32)
    // What the first chains have drawn is before it.
    ensures numbers { (chain seed : ℕ) → draws.old.x ≡ after_draws (2 * chain) seed
        → (result.0 ≡ first_number chain seed) × (result.1 ≡ second_number chain seed) }
    ensures next { (chain seed : ℕ) → draws.old.x ≡ after_draws (2 * chain) seed → draws.new.x ≡ after_draws (2 * (chain + 1)) seed }
    ensures small { (result.0 < 100) × (result.1 < 100) }
{
    let first = draws.draw() % 100;
    let second = draws.draw() % 100;
    (first, second)
}

/// The squares of the numbers of so many chains, added up.
pub fn sum_of_squares(seed: u32, count: u32) -> u64
    // The chains are at most 10,000.
    requires few { count ≤ 10000 }
    ensures { result ≡ sum_of_squares count seed }
{
    let mut draws = Generator::new(seed);
    let mut sum: u64 = 0;
    for _chain in 0..count {
        let (first, second) = next_numbers(&mut draws);
        sum += u64::from(first * first + second * second);
    }
    sum
}
