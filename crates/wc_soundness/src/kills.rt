//! Laws of kills.
ghost use Rattle.wc_soundness.specs.KillLaws.{SingleKillsKeepSound, KillsKeepSound};

/// Where one live process of a sound world is killed whose calls have ended, in any batch that may come, the world stays sound.
pub fn single_kills_keep_sound()
    ensures { SingleKillsKeepSound }
{}

/// The kill of a live process, with all that it called: a sound world accepts it, the world after it continues the one before and is sound.
pub fn kills_keep_sound()
    ensures { KillsKeepSound }
{}
