//! Laws of a function's turn.
ghost use Rattle.wc_machine.specs.Laws.{FunctionsAreAccepted, FunctionsContinue};

/// A world accepts the changes of a function that ends, where there is room for its outputs.
pub fn functions_are_accepted()
    ensures { FunctionsAreAccepted }
{}

/// The world after the turn of a function that hasn't started continues the one before.
pub fn functions_continue()
    ensures { FunctionsContinue }
{}
