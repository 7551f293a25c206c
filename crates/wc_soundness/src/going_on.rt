//! Laws of the turns by which a work chain goes on.
ghost use Rattle.wc_soundness.specs.ChainTurnLaws.{AdvancesStayInside, AdvancesStayLow, TurnsOfChainsKeepSound};

/// An advance stays in the outline.
pub fn advances_stay_inside()
    ensures { AdvancesStayInside }
{}

/// It keeps values within their depth.
pub fn advances_stay_low()
    ensures { AdvancesStayLow }
{}

/// A chain that goes on, with a turn of a loop or without: a sound world accepts that, the world after it continues the one before and is sound.
pub fn turns_of_chains_keep_sound()
    ensures { TurnsOfChainsKeepSound }
{}
