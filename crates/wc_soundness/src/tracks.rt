//! Laws of the turns of a work chain.
ghost use Rattle.wc_soundness.specs.TrackLaws.{ChainsStayOnTrack, LoopsStayOnTrack, ChainsStaySound};

/// A chain of a sound world that goes on is on track afterwards.
pub fn chains_stay_on_track()
    ensures { ChainsStayOnTrack }
{}

/// So is one whose loop turned.
pub fn loops_stay_on_track()
    ensures { LoopsStayOnTrack }
{}

/// The turn touches it alone, and its record stays sound.
pub fn chains_stay_sound()
    ensures { ChainsStaySound }
{}
