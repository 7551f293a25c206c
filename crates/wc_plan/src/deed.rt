//! What words ask for, and what is done with a store.

use crate::reply::Reply;
use crate::submission::Submission;
use wc_cli::View;
use wc_query::Query;
use wc_state::Limits;

/// An event that is asked for.
#[derive(Drop)]
pub enum Asked {
    /// A process is submitted.
    Submit(Submission),
    /// The process of this number gets the pause mark.
    Pause(u32),
    /// The process of this number loses the pause mark.
    Play(u32),
    /// The process of this number is killed, with all live ones that it called.
    Kill(u32),
}

/// How a store is begun.
#[derive(Drop)]
pub enum Begin {
    /// An empty store.
    Init,
    /// A store in which generated chains run to their end.
    Drill {
        /// What the numbers of the chains are drawn from.
        seed: u32,
        /// How many chains.
        count: u32,
    },
}

/// How a run goes.
#[derive(Clone, Copy, PartialEq, Eq)]
pub struct RunOptions {
    /// How many turns and rests it takes at most.
    pub turns: u64,
    /// In which order the ready processes have their turns.
    pub seed: u32,
    /// How large the store may grow, and how often a running job is asked.
    pub limits: Limits,
}

/// What of a store is shown.
#[derive(Drop)]
pub enum Shown {
    /// A view.
    View(View),
    /// The first rows that match a query, at most so many.
    Query(Query, u32),
}

/// What is done on a store that is there.
#[derive(Drop)]
pub enum Work {
    /// Its world is shown.
    View(Shown),
    /// An event happens, if it may.
    Event(Asked),
    /// Its processes take their turns.
    Run(RunOptions),
    /// It is written anew in its shortest form.
    Pack,
}

/// What is done with two disks.
#[derive(Drop)]
pub enum Deed {
    /// A store is begun.
    Begin(Begin),
    /// Something is done on a store.
    Work(Work),
}

/// What words ask for.
#[derive(Drop)]
pub enum Plan {
    /// A reply, with no store.
    Reply(Reply),
    /// Something that is done with the disks.
    On(Deed),
}
