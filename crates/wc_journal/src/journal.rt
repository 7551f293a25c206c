//! What is known of a journal, and of what it holds.
ghost use Rattle.std.specs.Prelude.{◌≡◌, ◌⊎◌, ◌≤◌, ◌-◌, ◌^◌, min};
ghost use Rattle.wc_journal.specs.Refusals.{size_after};

use crate::batches::Batches;

/// What is known of a journal on a disk: its version, its generation, and the offset of its last gate.
#[derive(Drop)]
pub struct Journal {
    /// The version, 1 or 2.
    pub(crate) version: u8,
    /// The generation, at least 1.
    pub(crate) generation: u64,
    /// The offset of the last gate.
    pub(crate) end: u64,
    ghost is_numbered: { 1 ≤ generation },
    ghost is_some: { 1 ≤ version },
    ghost is_known: { version ≤ 2 },
}

/// A journal, and the batches that it holds.
#[derive(Drop)]
pub struct Loaded {
    /// The journal.
    pub journal: Journal,
    /// Its payloads, each with the offset of its first byte.
    pub batches: Batches,
}

impl Journal {
    /// The generation, at least 1.
    pub fn generation(&self) -> u64
        // The journal's generation.
        ensures value { result ≡ self.now.generation }
        // It is at least 1.
        ensures some { 1 ≤ result }
    {
        self.generation
    }

    /// The version, 1 or 2.
    pub fn version(&self) -> u8
        // The journal's version.
        ensures value { result ≡ self.now.version }
        // It is 1 or 2.
        ensures known { (result ≡ 1) ⊎ (result ≡ 2) }
    {
        self.version
    }

    /// How many bytes the journal would have with a batch of this payload; 2^64 - 1 where that is more.
    #[tactic(auto, unfolding(crate::specs::Reading::size_of))]
    pub fn size_with(&self, payload: &[u8]) -> u64
        ensures { result ≡ min (size_after self.now.end self.now.version payload.now) (2 ^ 64 - 1) }
    {
        let prefix = if self.version == 1 { 4 } else { 9 };
        self.end
            .saturating_add(1)
            .saturating_add(prefix)
            .saturating_add(payload.len() as u64)
            .saturating_add(1)
    }
}
