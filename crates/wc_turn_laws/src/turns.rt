//! Laws of turns.
ghost use Rattle.wc_turn_laws.specs.TurnLaws.{OneSource, OneListOfChanges};

/// A calculation takes one source, or none.
pub fn one_source()
    ensures { OneSource }
{}

/// In a consistent world a turn has one list of changes at most.
pub fn one_list_of_changes()
    ensures { OneListOfChanges }
{}
