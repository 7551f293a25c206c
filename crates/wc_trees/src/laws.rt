//! Laws of recorded trees, outputs and inputs. Each is the contract of a function that does nothing.

ghost use Rattle.wc_trees.specs.TreeLaws.{InputsAreLinked, OutputsAreLinked, TreesUnfold};

/// A process's recorded tree has its definition, its state, its outputs and the recorded trees of what it called.
pub fn recorded_trees_unfold()
    ensures { TreesUnfold }
{}

/// A process's outputs are what its links lead to.
pub fn outputs_are_linked()
    ensures { OutputsAreLinked }
{}

/// A process's inputs are what its links lead from.
pub fn inputs_are_linked()
    ensures { InputsAreLinked }
{}
