//! Numbers that may depend on the repetition in which they stand.

/// A number.
#[derive(Clone, Copy)]
pub enum Number {
    /// Always this one.
    Plain(u64),
    /// The number of the repetition, and so many more.
    Counted(u64),
}

impl Number {
    /// The number in the repetition of this number.
    pub fn at(self, repetition: u64) -> u64 {
        match self {
            Number::Plain(number) => number,
            Number::Counted(more) => repetition.saturating_add(more),
        }
    }
}
