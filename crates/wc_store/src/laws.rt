//! Laws of what two images hold. Each is the contract of a function that does nothing.

ghost use Rattle.wc_store.specs.Laws.{HeldIsOne, HeldIsReached};

/// Two images hold one thing.
pub fn images_hold_one_thing()
    ensures { HeldIsOne }
{}

/// A world that two images hold is what accepted changes made of the empty one.
pub fn held_worlds_are_reached()
    ensures { HeldIsReached }
{}
