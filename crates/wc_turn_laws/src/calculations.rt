//! Laws of calculations with equal keys.
ghost use Rattle.wc_turn_laws.specs.CalculationLaws.{EqualKeysRunAlike};

/// Where two definitions print the same text in a world, they are the same.
pub fn equal_keys_run_alike()
    ensures { EqualKeysRunAlike }
{}
