//! Items that come in one line, and where they stand in a slice.

ghost use Rattle.std.specs.Prelude.{◌≡◌, Bool, nat_lt, slice_get};
ghost use Rattle.wc_records.specs.Readiness.{sooner};
ghost use Rattle.wc_records.specs.Marked.{IsOrder, IsSorted, IsPlace, is_item, is_same};
ghost use Rattle.wc_records.specs.Orders.{numbers_in_order, dues_in_order};

/// Items of which one comes before the other, where they differ.
pub(crate) trait Ordered: Copy {
    /// One item comes before another.
    ghost before: { Self → Self → Bool };

    /// Whether this item comes before another.
    fn is_before(self, other: Self) -> bool
        ensures { result ≡ before self other };

    /// Items come in one line.
    ghost in_line: { IsOrder before };
}

impl Ordered for u32 {
    ghost before = { nat_lt };

    ghost in_line = { numbers_in_order };

    fn is_before(self, other: u32) -> bool {
        self < other
    }
}

impl Ordered for (u64, u32) {
    ghost before = { sooner };

    ghost in_line = { dues_in_order };

    fn is_before(self, other: (u64, u32)) -> bool {
        self.0 < other.0 || (self.0 == other.0 && self.1 < other.1)
    }
}

/// How many of the items come before this one.
pub(crate) fn place_in<T: Ordered>(items: &[T], item: T) -> usize
    requires { IsSorted T.before items.now }
    ensures { IsPlace T.before item items.now result }
{
    items.partition_point(|other| other.is_before(item))
}

/// Whether the item at a place is this one.
pub(crate) fn is_at<T: Ordered>(items: &[T], at: usize, item: T) -> bool
    ensures { result ≡ is_item (is_same T.before item) (slice_get items.now at) }
{
    match items.get(at) {
        None => false,
        Some(other) => !item.is_before(*other) && !other.is_before(item),
    }
}
