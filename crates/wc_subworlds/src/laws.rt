//! Laws of worlds that are part of another, and of replays.
ghost use Rattle.wc_subworlds.specs.Laws.{PartsTellTheSame, ReplaysAreMeant};

/// A part and the whole tell the same of each process of the part.
pub fn parts_tell_the_same()
    ensures { PartsTellTheSame }
{}

/// A replay of an ended process that gives its recorded tree, and asked just what was recorded, is what the process means.
pub fn replays_are_meant()
    ensures { ReplaysAreMeant }
{}
