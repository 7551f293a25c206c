//! Laws of worlds and changes. Each is the contract of a function that does nothing.

ghost use Rattle.wc_world.specs.Laws.{LinksStayCorrect, NotBoth, OneRefusal, ReachedIsConsistent, SnapshotsGiveTheWorld};

/// No changes are both accepted and refused, and they are refused in one way.
pub fn changes_have_one_answer()
    // Changes aren't both accepted and refused.
    ensures both { NotBoth }
    // Changes are refused for one reason at most.
    ensures one { OneRefusal }
{}

/// The lists of each world that accepted changes make fit each other.
pub fn reached_worlds_are_consistent()
    ensures { ReachedIsConsistent }
{}

/// Accepted changes keep a world's links correct.
pub fn links_stay_correct()
    ensures { LinksStayCorrect }
{}

/// The empty world accepts a world's snapshot, and applying it gives that world.
pub fn snapshots_give_the_world()
    ensures { SnapshotsGiveTheWorld }
{}
