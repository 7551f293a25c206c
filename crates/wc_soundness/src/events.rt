//! Laws of all events.
ghost use Rattle.wc_soundness.specs.EventLaws.{EventsKeepSound, WhatMayHappenKeepsSound, AllEventsKeepSound, WhateverHappensIsSound};

/// The changes of an event at a sound world are accepted where there is room; the world after them continues the one before and is sound.
pub fn events_keep_sound()
    ensures { EventsKeepSound }
{}

/// What may happen at a sound world has exactly one list of changes, and keeps it sound so.
pub fn what_may_happen_keeps_sound()
    ensures { WhatMayHappenKeepsSound }
{}

/// So do events one after another, in whatever order they come.
pub fn all_events_keep_sound()
    ensures { AllEventsKeepSound }
{}

/// From the empty world on, whatever happens, in whatever order, the world is reached and sound: each process that has ended has the tree that its
/// definition means for its recorded inputs and kills, data provenance is acyclic, and each created result has one creator, whose inputs
/// give it.
pub fn whatever_happens_is_sound()
    ensures { WhateverHappensIsSound }
{}
