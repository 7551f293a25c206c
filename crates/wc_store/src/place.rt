//! The two disks of a store.
ghost use Rattle.std.specs.Prelude.{◌≡◌};
ghost use Rattle.wc_store.specs.Places.{number_of, opposite};

/// One of the two disks of a store.
#[derive(Clone, Copy, Debug, PartialEq, Eq)]
pub enum Place {
    /// Disk one.
    One,
    /// Disk two.
    Two,
}

impl Place {
    /// The number that texts give the disk.
    pub fn number(self) -> u8
        ensures { result ≡ number_of self }
    {
        match self {
            Place::One => 1,
            Place::Two => 2,
        }
    }

    /// The other disk.
    pub fn other(self) -> Place
        ensures { result ≡ opposite self }
    {
        match self {
            Place::One => Place::Two,
            Place::Two => Place::One,
        }
    }
}
