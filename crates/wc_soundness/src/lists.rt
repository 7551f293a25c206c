//! Laws of the lists of changes of events.
ghost use Rattle.wc_soundness.specs.ListLaws.{SourcesAreThere, TurnsHaveChanges, EventsHaveChanges, KillsSetEachOnce, KilledFuelIsKept, OnlyMarksChangeNothing};

/// There is a lowest source for each process, or none.
pub fn sources_are_there()
    ensures { SourcesAreThere }
{}

/// A ready process has, with an answer that fits, exactly one list of changes.
pub fn turns_have_changes()
    ensures { TurnsHaveChanges }
{}

/// There are changes exactly for what may happen, and one list of them.
pub fn events_have_changes()
    ensures { EventsHaveChanges }
{}

/// A kill sets each live process at and below one, called ones first, and nothing else.
pub fn kills_set_each_once()
    ensures { KillsSetEachOnce }
{}

/// Each killed process keeps its fuel, and what is recorded after the kill of those that it awaited.
pub fn killed_fuel_is_kept()
    ensures { KilledFuelIsKept }
{}

/// There are no changes exactly where a pause finds the process paused, or a play finds it playing.
pub fn only_marks_change_nothing()
    ensures { OnlyMarksChangeNothing }
{}
