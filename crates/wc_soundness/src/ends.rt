//! Laws of the ends of work chains.
ghost use Rattle.wc_soundness.specs.EndLaws.{AdvancesEndAlive, EndsOfChainsKeepSound};

/// An advance that ends its chain finishes or excepts it.
pub fn advances_end_alive()
    ensures { AdvancesEndAlive }
{}

/// A chain that comes to its end: a sound world accepts that, the world after it continues the one before and is sound.
pub fn ends_of_chains_keep_sound()
    ensures { EndsOfChainsKeepSound }
{}
