//! Laws that each question of a store has an answer. Each is the contract of a function that does nothing.

ghost use Rattle.wc_store.specs.DecidedLaws.{LinksAreDecided, ChangesAreDecided, ImagesHoldSomething, ImagesHoldExactlyOneThing};

/// A graph takes a link, or refuses it for a rule.
pub fn links_are_decided()
    ensures { LinksAreDecided }
{}

/// A world accepts changes, or refuses them for a reason.
pub fn changes_are_decided()
    ensures { ChangesAreDecided }
{}

/// Any two images hold something.
pub fn images_hold_something()
    ensures { ImagesHoldSomething }
{}

/// Any two images hold exactly one thing.
pub fn images_hold_exactly_one_thing()
    ensures { ImagesHoldExactlyOneThing }
{}
