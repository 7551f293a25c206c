//! Laws of turns that lower what is left of a world.
ghost use Rattle.wc_cost.specs.Turns.{AdvancesLower, BindingsLower, CalculationTurnsLower, CallsLower, TurnsLower};

/// The turn of a function or a job lowers what is left by exactly one, or by more where it takes another's outcome.
pub fn calculation_turns_lower()
    ensures { CalculationTurnsLower }
{}

/// The turn of a work chain that goes on or ends lowers it by exactly one.
pub fn advances_lower()
    ensures { AdvancesLower }
{}

/// So does the turn of a work chain that submits calls, whose processes then owe what the calls cost.
pub fn calls_lower()
    ensures { CallsLower }
{}

/// So does the turn of a work chain that binds the children that it awaited.
pub fn bindings_lower()
    ensures { BindingsLower }
{}

/// Each turn whose task doesn't fail and whose program has ended lowers it, by exactly one where no other's outcome is taken.
pub fn turns_lower()
    ensures { TurnsLower }
{}
