//! Numbers that look random, the same from each seed.
ghost use Rattle.std.specs.Prelude.{◌≡◌, ◌/◌, ◌%◌, ◌<◌, ◌^◌, IfOk};
ghost use Rattle.wc_value.specs.Draws.{drawn, noise, after_draws};

use std::alloc::{AllocError, Global};

/// A linear congruential generator.
#[derive(Drop)]
pub struct Generator {
    /// The number that the next one is drawn from.
    pub x: u64,
    ghost small: { x < 2 ^ 32 },
}

impl Generator {
    /// The generator that begins at this seed.
    pub fn new(seed: u32) -> Generator
        ensures { result.x ≡ seed }
    {
        Generator { x: u64::from(seed) }
    }

    /// The next number, below 2^15.
    pub fn draw(&mut self) -> u32
        // The state is the drawn one.
        ensures next { self.new.x ≡ drawn self.old.x }
        // The number is the new state divided by 65,536.
        ensures value { result ≡ drawn self.old.x / 65536 }
        // The number is below 2^15.
        ensures small { result < 2 ^ 15 }
    {
        self.x = (self.x * 1_103_515_245 + 12_345) % (1 << 31);
        (self.x / 65536) as u32
    }

    /// So many bytes, a draw each.
    #[tactic(auto, using(crate::proofs::Draws::noise_more, crate::proofs::Draws::after_more))]
    pub fn bytes(&mut self, alloc: Global, count: usize) -> Result<Vec<u8>, AllocError>
        // The bytes are the next draws.
        ensures bytes { IfOk result (λ bytes. bytes.items ≡ noise count self.old.x) }
        // The state is the one after a draw for each byte.
        ensures next { IfOk result (λ bytes. self.new.x ≡ after_draws count self.old.x) }
    {
        let mut bytes = Vec::new(alloc);
        for _at in 0..count {
            bytes.push((self.draw() % 256) as u8)?;
        }
        Ok(bytes)
    }
}
