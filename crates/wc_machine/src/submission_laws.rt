//! Laws of submissions.
ghost use Rattle.wc_machine.specs.Laws.{SubmissionsAreAccepted, SubmissionsContinue, EmptyIsSound};

/// The empty world is sound.
pub fn the_empty_world_is_sound()
    ensures { EmptyIsSound }
{}

/// A world accepts the changes of a submission for which there is room.
pub fn submissions_are_accepted()
    ensures { SubmissionsAreAccepted }
{}

/// The world after a submission continues the one before.
pub fn submissions_continue()
    ensures { SubmissionsContinue }
{}
