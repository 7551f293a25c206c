//! What a run works on, and what it gives.

use wc_state::Env;
use wc_value::{Fields, List, ProcessState, Request, Text, Tree, Words};

/// The call path of each job whose result was taken from the table, with its request, in order of evaluation.
pub type Asked = List<(Words, Request)>;

/// The call path of each killed process, with the number of processes that it had called. Of several rows with one path the
/// first counts.
pub type Kills = List<(Words, u32)>;

/// A tree, with what was asked for it.
#[derive(Drop)]
pub struct Replayed {
    /// The tree.
    pub tree: Tree,
    /// The jobs in it whose results were taken.
    pub asked: Asked,
}

/// The calls that were made, each under its label, in order.
pub type MadeCalls = List<(Text, Replayed)>;

/// How far the run of a work chain has come.
#[derive(Drop)]
pub struct Progress {
    /// The inputs and the context.
    pub env: Env,
    /// The outputs that were set.
    pub outputs: Fields,
    /// The calls that were made.
    pub calls: MadeCalls,
}

/// A call that a step collects.
#[derive(Drop)]
pub struct Planned {
    /// The name of what is called.
    pub callee: Text,
    /// The key of the context that will hold the child.
    pub key: Text,
    /// Whether the child joins a list of children.
    pub append: bool,
    /// The values of the arguments by port.
    pub inputs: Fields,
}

/// The calls of a step, in order.
pub type Plan = List<Planned>;

/// What the statements of a step come to, with the environment and the outputs that were set.
#[derive(Drop)]
pub enum Stepped {
    /// The process ends in this state, and none of the calls is made.
    Stops(ProcessState, Env, Fields),
    /// The calls are made, and the chain goes on.
    Makes(Plan, Env, Fields),
}

/// How a run goes. A number is the fuel that is left.
#[derive(Drop)]
pub enum Flow {
    /// On.
    Goes(u64, Progress),
    /// To an end in this state.
    Ends(ProcessState, u64, Progress),
    /// The fuel doesn't suffice.
    NoFuel,
    /// The table has no result for this request.
    Lacks(Request),
    /// A kill is met that the run doesn't come to.
    Off,
}

/// What a call gives.
#[derive(Drop)]
pub enum Answer {
    /// What it came to, and the fuel that is left.
    Gave(Replayed, u64),
    /// The fuel doesn't suffice.
    TooLittle,
    /// The table has no result for this request.
    Without(Request),
    /// A kill is met that the run doesn't come to.
    Astray,
}
