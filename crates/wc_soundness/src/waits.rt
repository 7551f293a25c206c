//! Laws of the chains that wait for the calls that they submit.
ghost use Rattle.wc_soundness.specs.CallingLaws.{CallingChainsStaySound, CallsOfChainsKeepSound};

/// A chain of a sound world that submits calls waits for them, and its record is sound afterwards.
pub fn calling_chains_stay_sound()
    ensures { CallingChainsStaySound }
{}

/// A sound world accepts the changes of such a turn, where there is room; the world after them continues the one before and is sound.
pub fn calls_of_chains_keep_sound()
    ensures { CallsOfChainsKeepSound }
{}
