//! Laws of small worlds.
ghost use Rattle.wc_soundness.specs.SmallLaws.{FanGoes, FanIsMeant, FanIsSeen, CachingGoes, FailuresGo, KillGoes, WrongWorldsAreRefused, WrongWorldsAreUnsound};

/// A work chain with two jobs is submitted, calls them, binds them and ends: each turn has the changes that are written down, and makes the next world.
pub fn fan_goes()
    ensures { FanGoes }
{}

/// At each moment of the work chain the ready processes, the recorded tree and the recorded kills are those written down.
pub fn fan_is_seen()
    ensures { FanIsSeen }
{}

/// The recorded trees of the work chain, of the one that ended and of the one that was killed, are those that it means, with just the fuel that is kept.
pub fn fan_is_meant()
    ensures { FanIsMeant }
{}

/// A job that equals an ended one takes its outcome, by the changes that are written down.
pub fn caching_goes()
    ensures { CachingGoes }
{}

/// A job whose task fails waits for longer each time, is paused by the fifth failure in a row, and begins anew where it plays.
pub fn failures_go()
    ensures { FailuresGo }
{}

/// A waiting work chain is killed with its live child, by the changes that are written down.
pub fn kill_goes()
    ensures { KillGoes }
{}

/// A world with swapped outputs, another result, a source that ended too late, a call missing or awaited children in another order isn't sound, and breaks the part of soundness that says so.
pub fn wrong_worlds_are_unsound()
    ensures parts { WrongWorldsAreRefused }
    ensures whole { WrongWorldsAreUnsound }
{}
