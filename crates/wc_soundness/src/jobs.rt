//! Laws of events that set one process.
ghost use Rattle.wc_soundness.specs.JobLaws.{MovesAreAccepted, MovesTouch, MovesAreSafe, MarksAreSafe, MarksAreKept, TasksAreSafe, LiveEndsAreAccepted, LiveEndsTouch, EndsAreSafe, FaultingJobsAreSafe, WaitingJobsAsk, RetrievedStays, RetrievedIsFree, ParsesAreSafe};

/// A Set that fits is accepted.
pub fn moves_are_accepted()
    ensures { MovesAreAccepted }
{}

/// It touches its process alone.
pub fn moves_touch()
    ensures { MovesTouch }
{}

/// Where what its process has before it stays, it keeps the world sound.
pub fn moves_are_safe()
    ensures { MovesAreSafe }
{}

/// Pause and play keep a world sound.
pub fn marks_are_safe()
    ensures { MarksAreSafe }
{}

/// They change nothing exactly where the mark is there, or isn't.
pub fn marks_are_kept()
    ensures { MarksAreKept }
{}

/// A job that moves to another task keeps a world sound.
pub fn tasks_are_safe()
    ensures { TasksAreSafe }
{}

/// The end of a live calculation is accepted.
pub fn live_ends_are_accepted()
    ensures { LiveEndsAreAccepted }
{}

/// It touches the calculation alone.
pub fn live_ends_touch()
    ensures { LiveEndsTouch }
{}

/// An end that is right keeps a world sound.
pub fn ends_are_safe()
    ensures { EndsAreSafe }
{}

/// A created job whose request is a reason ends with it, and the world stays sound.
pub fn faulting_jobs_are_safe()
    ensures { FaultingJobsAreSafe }
{}

/// A waiting job has a request.
pub fn waiting_jobs_ask()
    ensures { WaitingJobsAsk }
{}

/// The folder that a job brings back is among its outputs.
pub fn retrieved_stays()
    ensures { RetrievedStays }
{}

/// No output port of a job of a sound world has its name.
pub fn retrieved_is_free()
    ensures { RetrievedIsFree }
{}

/// A job with a result ends as its rules make of it, and the world stays sound.
pub fn parses_are_safe()
    ensures { ParsesAreSafe }
{}
