//! Laws of the turns at which a work chain submits calls.
ghost use Rattle.wc_soundness.specs.SubmitLaws.{CallsMakeTheseWorlds, CalledHaveTheirInputs, ChainCallsAreAccepted, ChainCallsTouch, CalledAreSound, SubmittingChainsKeepSound};

/// The calls of a chain make a world that is written out: data of plain arguments, a process each, their links, and the chain that waits.
pub fn calls_make_these_worlds()
    ensures { CallsMakeTheseWorlds }
{}

/// Each called process is there, under the chain, with the values of its arguments as inputs.
pub fn called_have_their_inputs()
    ensures { CalledHaveTheirInputs }
{}

/// The world accepts the calls that a chain of a sound world submits.
pub fn chain_calls_are_accepted()
    ensures { ChainCallsAreAccepted }
{}

/// They touch the chain alone.
pub fn chain_calls_touch()
    ensures { ChainCallsTouch }
{}

/// Each called process is as a sound world asks.
pub fn called_are_sound()
    ensures { CalledAreSound }
{}

/// Where the chain's own record is too, the turn keeps the world sound.
pub fn submitting_chains_keep_sound()
    ensures { SubmittingChainsKeepSound }
{}
