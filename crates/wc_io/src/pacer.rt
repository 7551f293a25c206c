//! A clock that can wait.
ghost use Rattle.std.specs.Prelude.{◌≡◌, ◌≤◌, ◌+◌, ◌*◌, ℕ, Option, None, option_map};
ghost use Rattle.wc_io.specs.Counts.{RisesByOne};
ghost use Rattle.wc_io.specs.Steady.{StaysSteady, rested};

/// A clock that can wait. It has no error.
pub trait Pacer {
    /// The last moment told, 0 before the first.
    ghost last: { Self → ℕ };

    /// How many moments were told.
    ghost told: { Self → ℕ };

    /// How many rests were taken.
    ghost rests: { Self → ℕ };

    /// How many nanoseconds all rests were to take, where the pacer tells it.
    ghost slept: { Self → Option ℕ } = { λ _. None };

    /// A moment that was told. Of this relation nothing else is known.
    ghost said: { Self → ℕ → Type 0 };

    /// The least moment that it may tell next, as far as it is known, where it is steady: its moments never fall then, and after a rest the next
    /// one is later by the length of the rest, or by more.
    ghost least: { Self → Option ℕ };

    /// The moment now, in milliseconds.
    fn now(&mut self) -> u64
        ensures last { last self.new ≡ result }
        ensures told { RisesByOne (told self.old) (told self.new) }
        ensures rests { rests self.new ≡ rests self.old }
        ensures slept { slept self.new ≡ slept self.old }
        ensures said { said self.new result }
        ensures steady { StaysSteady (λ before now. (before ≤ result) × (now ≡ result)) (least self.old) (least self.new) }
        ensures keeps { (moment : ℕ) → said self.old moment → said self.new moment };

    /// Waits for so many milliseconds.
    fn rest(&mut self, ms: u64)
        ensures last { last self.new ≡ last self.old }
        ensures told { told self.new ≡ told self.old }
        ensures rests { RisesByOne (rests self.old) (rests self.new) }
        ensures slept { slept self.new ≡ option_map (λ before. before + ms * 1_000_000) (slept self.old) }
        ensures steady { StaysSteady (λ before now. now ≡ rested before ms) (least self.old) (least self.new) }
        ensures keeps { (moment : ℕ) → said self.old moment → said self.new moment };
}
