//! Laws of events that touch one process.
ghost use Rattle.wc_soundness.specs.FramingLaws.{TablesNarrow, EndedStay, TouchingContinues, SubmissionsTouch, EndsTouch, OthersStaySound, TouchedWorldsAreSound};

/// After an event that touches one process of a sound world, an agreeing table agreed before.
pub fn tables_narrow()
    ensures { TablesNarrow }
{}

/// After an event that touches one live process of a sound world, or makes one, what has ended stays as it is.
pub fn ended_stay()
    ensures { EndedStay }
{}

/// The world after such an event continues the one before.
pub fn touching_continues()
    ensures { TouchingContinues }
{}

/// A submission touches the process that it makes alone.
pub fn submissions_touch()
    ensures { SubmissionsTouch }
{}

/// The end of a calculation that hasn't started touches it alone.
pub fn ends_touch()
    ensures { EndsTouch }
{}

/// What an event doesn't touch stays sound.
pub fn others_stay_sound()
    ensures { OthersStaySound }
{}

/// The world after an event is sound where its lists are, and what the event touched or made is.
pub fn touched_worlds_are_sound()
    ensures { TouchedWorldsAreSound }
{}
