//! Laws of what a process asks, and of the answers.
ghost use Rattle.wc_machine.specs.Laws.{FittingAnswersLead, TurnsFitNeeds};

/// An answer to a task moves a job or is retrieved exactly where it fits.
pub fn fitting_answers_lead()
    ensures { FittingAnswersLead }
{}

/// In a consistent world each turn is one with an answer that fits what its process asks.
pub fn turns_fit_needs()
    ensures { TurnsFitNeeds }
{}
