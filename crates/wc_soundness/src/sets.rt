//! A law of worlds in which the record of one process is set anew.
ghost use Rattle.wc_soundness.specs.Replaced.{SetsKeepSound};

/// Where what a live process is set to is as it is in sound worlds, a sound world stays sound: nothing else in it changes.
pub fn sets_keep_sound()
    ensures { SetsKeepSound }
{}
