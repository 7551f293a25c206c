//! Which of the images that a crash may leave.

/// Which of the images that a crash may leave is taken.
#[derive(Clone, Copy, PartialEq, Eq)]
pub enum Pick {
    /// All bytes as at the last sync.
    Old,
    /// All bytes as a read gives them now.
    New,
    /// Noise from this seed over each range written since the last sync, at the length that the disk has now.
    Noise(u32),
}
