//! Links and their types.

use wc_value::Text;

/// What a link records of its two nodes.
#[derive(Clone, Copy, PartialEq, Eq)]
pub enum LinkType {
    /// Data went into a calculation.
    InputCalc,
    /// Data went into a workflow.
    InputWork,
    /// A calculation made the data.
    Create,
    /// A workflow gave back the data.
    Return,
    /// A workflow called the calculation.
    CallCalc,
    /// A workflow called the other workflow.
    CallWork,
}

/// A link from one node to another. Nodes are numbered from 1.
#[derive(Drop)]
pub struct Link {
    /// The number of the node that the link leaves.
    pub source: u32,
    /// The number of the node that the link enters.
    pub target: u32,
    /// What it records.
    pub link: LinkType,
    /// The name of the port, the output or the call.
    pub label: Text,
}
