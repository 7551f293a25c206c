//! Laws of caching, of submissions and of created calculations.
ghost use Rattle.wc_soundness.specs.CachingLaws.{RuleIsStable, OutputsAreInputs, GivenComes, GivenStays, ClonesAreAccepted, ClonesContinue, ClonesKeepSound, CreatedFunctionsKeepSound, BeginningsAreAccepted, BeginningsContinue, BeginningsKeepSound, CreatedTurnsGoWell, AnySubmissionKeepsSound};

/// What ends later is no source for an earlier start.
pub fn rule_is_stable()
    ensures { RuleIsStable }
{}

/// What is recorded of a process can be created once more.
pub fn outputs_are_inputs()
    ensures { OutputsAreInputs }
{}

/// Who takes an outcome comes to what its own definition gives.
pub fn given_comes()
    ensures { GivenComes }
{}

/// What is given for an ended calculation stays given.
pub fn given_stays()
    ensures { GivenStays }
{}

/// A calculation that takes an outcome is accepted where there is room for clones.
pub fn clones_are_accepted()
    ensures { ClonesAreAccepted }
{}

/// The world in which it has ended so continues the one before.
pub fn clones_continue()
    ensures { ClonesContinue }
{}

/// That world is sound.
pub fn clones_keep_sound()
    ensures { ClonesKeepSound }
{}

/// A function that finds no source ends as its rules say.
pub fn created_functions_keep_sound()
    ensures { CreatedFunctionsKeepSound }
{}

/// A job with a request that finds no source begins where there is room for a batch.
pub fn beginnings_are_accepted()
    ensures { BeginningsAreAccepted }
{}

/// The world in which it has begun continues the one before.
pub fn beginnings_continue()
    ensures { BeginningsContinue }
{}

/// That world is sound.
pub fn beginnings_keep_sound()
    ensures { BeginningsKeepSound }
{}

/// Each turn of a created calculation goes well.
pub fn created_turns_go_well()
    ensures { CreatedTurnsGoWell }
{}

/// A submission of any definition keeps a world sound.
pub fn any_submission_keeps_sound()
    ensures { AnySubmissionKeepsSound }
{}
