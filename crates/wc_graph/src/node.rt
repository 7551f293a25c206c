//! What a node is.

use wc_value::Value;

/// What a node of the graph is.
#[derive(Drop)]
pub enum NodeKind {
    /// Data, with its value.
    Data(Value),
    /// A run of a calculation: a job or a function.
    Calculation,
    /// A run of a workflow.
    Workflow,
}
