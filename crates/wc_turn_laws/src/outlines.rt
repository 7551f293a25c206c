//! Laws of the advance of a work chain.
ghost use Rattle.wc_turn_laws.specs.OutlineLaws.{AdvancesAreExact, AdvancesNumberCalls, AdvancesKeepOrder};

/// The run from a checkpoint ends as the run that remains after one advance.
pub fn advances_are_exact()
    ensures { AdvancesAreExact }
{}

/// An advance keeps the number of calls that were made, and labels further ones from there on.
pub fn advances_number_calls()
    ensures { AdvancesNumberCalls }
{}

/// An advance keeps the labels of outputs ascending, and so are the ports of the arguments that it passes.
pub fn advances_keep_order()
    ensures { AdvancesKeepOrder }
{}
