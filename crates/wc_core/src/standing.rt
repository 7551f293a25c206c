//! How the processes of a world stand.

ghost use Rattle.wc_core.specs.Standing.{StandsAs};

use wc_world::World;

/// How the processes of a world stand.
#[derive(Clone, Copy, PartialEq, Eq)]
pub enum Standing {
    /// No process is live.
    AllEnded,
    /// Some process is live, and each live one is paused or waits, through calls, for a paused one.
    Resting,
    /// Some process is ready, or will be at some moment.
    Going,
}

/// How the processes of a world stand. It takes no memory.
pub fn standing_of(world: &World) -> Standing
    ensures { StandsAs world.now.world result }
{
    // What accepted changes make is told by the graph.
    let _graph = world.graph();
    if world.live() == 0 {
        return Standing::AllEnded;
    }
    if !world.ready_at_once().is_empty() {
        return Standing::Going;
    }
    if !world.ready_later().is_empty() {
        return Standing::Going;
    }
    Standing::Resting
}
