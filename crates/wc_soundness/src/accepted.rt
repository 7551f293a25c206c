//! Laws of the acceptance of all events.
ghost use Rattle.wc_soundness.specs.AcceptedLaws.{EventsAreAccepted, EventsArePlain, EventsKeepOrder};

/// On each world that accepted changes make, sound or not, where the outputs of checkpoints ascend by their labels, the changes of each
/// event are accepted where there is room.
pub fn events_are_accepted()
    ensures { EventsAreAccepted }
{}

/// The outputs of checkpoints ascend in the empty world, and after each event where they did before it.
pub fn events_keep_order()
    ensures { EventsKeepOrder }
{}

/// No event adds a Count or a Kept.
pub fn events_are_plain()
    ensures { EventsArePlain }
{}
