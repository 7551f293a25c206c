//! Laws of what a run costs, and a definition.
ghost use Rattle.wc_cost.specs.Laws.{RunsCost, MeaningsCost};
ghost use Rattle.wc_cost.specs.Advances.{AdvancesCostOne};

/// A run has one cost at most, and one that ends, not killed, has one.
pub fn runs_have_one_cost()
    ensures { RunsCost }
{}

/// A definition has one price at most, and one that means a tree has one.
pub fn meanings_have_one_price()
    ensures { MeaningsCost }
{}

/// One advance of a chain takes exactly one turn of what its run costs.
pub fn advances_cost_one()
    ensures { AdvancesCostOne }
{}
