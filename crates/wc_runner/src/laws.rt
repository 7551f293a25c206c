//! Laws of turns. Each is the contract of a function that does nothing.

ghost use Rattle.std.specs.Prelude.{ℕ};
ghost use Rattle.wc_state.specs.declared.record.Limits.{Limits};
ghost use Rattle.wc_runner.specs.Codes.{TurnsBringCodes};
ghost use Rattle.wc_runner.specs.Laws.{ContinuingGoesOn, TrailsComeTo, TurnsAreBatches, TurnsKeepSound, WorldsContinueThemselves};
ghost use Rattle.wc_runner.specs.Outside.{in_run, in_turn};

use wc_io::Pacer;
use wc_transport::Transport;

/// Turns keep a sound world sound, and lose nothing that it held.
pub fn turns_keep_sound<T: Transport, P: Pacer>()
    // Turns with the answer of one call keep a world sound.
    ensures in_turn { (limits : Limits) (now : ℕ) (old new : T) → TurnsKeepSound (in_turn T.Transport limits now old new) }
    // So do those of a run.
    ensures in_run { (limits : Limits) (old new : T) (clock : P) → TurnsKeepSound (in_run T.Transport P.Pacer limits old new clock) }
{}

/// Each turn is one batch.
pub fn turns_are_batches<T: Transport, P: Pacer>()
    ensures in_turn { (limits : Limits) (now : ℕ) (old new : T) → TurnsAreBatches (in_turn T.Transport limits now old new) }
    ensures in_run { (limits : Limits) (old new : T) (clock : P) → TurnsAreBatches (in_run T.Transport P.Pacer limits old new clock) }
{}

/// Turns in a sound world bring no other exit codes than those of results that the outside brings.
pub fn turns_bring_codes<T: Transport, P: Pacer>()
    ensures in_turn { (limits : Limits) (now : ℕ) (old new : T) → TurnsBringCodes (in_turn T.Transport limits now old new) }
    ensures in_run { (limits : Limits) (old new : T) (clock : P) → TurnsBringCodes (in_run T.Transport P.Pacer limits old new clock) }
{}

/// The trail of a run comes to turns and rests by what a run sees, and to so many calls of the transport and of the clock.
pub fn trails_come_to_turns<T: Transport, P: Pacer>()
    ensures { TrailsComeTo T.Transport P.Pacer }
{}

/// Each world that accepted changes make continues itself.
pub fn worlds_continue_themselves()
    ensures { WorldsContinueThemselves }
{}

/// A world that continues another also continues what that one continues.
pub fn continuing_goes_on()
    ensures { ContinuingGoesOn }
{}
