//! What an advance answers.

use wc_state::{Checkpoint, Outs};
use wc_value::{Keyed, List, ProcessState, Text, Value};

/// What a call is given for a port.
#[derive(Drop)]
pub enum Argument {
    /// A data node that is there.
    Node(u32),
    /// A value that gets a node of its own.
    Plain(Value),
}

/// Arguments by port, strictly ascending by the bytes of the ports.
pub type Args = Keyed<Argument>;

/// A call that a step makes.
#[derive(Drop)]
pub struct Call {
    /// The name of what is called.
    pub definition: Text,
    /// The label of the call.
    pub label: Text,
    /// The key of the context that is to hold the child.
    pub key: Text,
    /// Whether the child joins a list of children.
    pub append: bool,
    /// What it is given.
    pub args: Args,
}

/// The calls of a step, in order.
pub type Calls = List<Call>;

/// What an advance comes to.
#[derive(Drop)]
pub enum Advanced {
    /// The chain goes on.
    Goes(Checkpoint),
    /// The chain goes on, and a loop turned.
    Loops(Checkpoint),
    /// The chain waits for these calls.
    Submits(Checkpoint, Calls),
    /// The chain ends in this state, with the outputs that were set.
    Ends(ProcessState, Outs),
}
