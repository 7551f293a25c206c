//! Laws of entries in order. Each is the contract of a function that does nothing.

ghost use Rattle.wc_keys.specs.Laws.{OneList, PartsAreExact};

/// There is one list in order with exactly these entries, and the part of it with one digest is exact.
pub fn seals_are_one()
    ensures one { OneList }
    ensures parts { PartsAreExact }
{}
