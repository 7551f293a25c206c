//! The law of runs with enough turns. It is the contract of a function that does nothing.
ghost use Rattle.wc_ends.specs.Laws.{EnoughTurnsEnd};

use wc_io::Pacer;
use wc_transport::Transport;

/// A run with enough turns ends with no live process, where the transport is obliging, the clock steady, and each root means a tree.
pub fn enough_turns_end_every_process<T: Transport, P: Pacer>()
    ensures { EnoughTurnsEnd T.Transport P.Pacer }
{}
