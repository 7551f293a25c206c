//! Laws of what a run sees.
ghost use Rattle.wc_turn_laws.specs.RunLaws.{ValuesForgetNumbers, RunsSeeNumbers, EqualTreesEndAlike, CallsAreUnderTheirLabels};

/// The numbers of nodes play no part in the value of an expression.
pub fn values_forget_numbers()
    ensures { ValuesForgetNumbers }
{}

/// A run sees earlier calls through their number alone.
pub fn runs_see_numbers()
    ensures { RunsSeeNumbers }
{}

/// Where the trees of earlier calls are equal, what remains of a chain ends with the same tree.
pub fn equal_trees_end_alike()
    ensures { EqualTreesEndAlike }
{}

/// In a sound world the calls of a process have different labels, so what is under a label is the called process's.
pub fn calls_are_under_their_labels()
    ensures { CallsAreUnderTheirLabels }
{}
