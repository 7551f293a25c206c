//! Laws of what is found of a world. Each is the contract of a function that does nothing.

ghost use Rattle.wc_verify.specs.Laws.{FoundFaultsAreOne, SoundWorldsHaveNoFault};

/// What is found of a world is one: the least node on a cycle, the lowest wrong calculation, the least disagreement.
pub fn found_faults_are_one()
    ensures { FoundFaultsAreOne }
{}

/// In a sound world no node lies on a cycle, and no calculation is wrong.
pub fn sound_worlds_have_no_fault()
    ensures { SoundWorldsHaveNoFault }
{}
