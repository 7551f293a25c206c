//! Laws of events that touch one process and kill none.
ghost use Rattle.wc_cost.specs.Touches.{KillsStay, OthersOweTheSame};

/// After such an event of a sound world the recorded kills are as before.
pub fn kills_stay()
    ensures { KillsStay }
{}

/// Each process that it doesn't touch owes what it owed.
pub fn others_owe_the_same()
    ensures { OthersOweTheSame }
{}
