//! Why a graph doesn't take a node or a link.

ghost use Rattle.std.specs.Prelude.{◌≡◌};
ghost use Rattle.wc_graph.specs.declared.error.GraphError.TheVariants.{OutOfMemory};

use std::alloc::{AllocError, AllocFailed};
use thiserror::Error;

/// Why a graph does not take a node or a link.
#[derive(Debug, Drop, PartialEq, Eq, Error)]
pub enum GraphError {
    /// No node has this number.
    #[error("no node {0}")]
    NoNode(u32),
    /// Links of this type don't join nodes of these kinds.
    #[error("a link of this type does not join such nodes")]
    WrongEnds,
    /// A link of this type joins the two nodes under this label.
    #[error("the two nodes are linked under this label")]
    TripleTaken,
    /// Another link of this type has the label, at the end where a label stands once.
    #[error("the label is taken at this node")]
    LabelTaken,
    /// A calculation has made the data.
    #[error("the data has a creator")]
    HasCreator,
    /// A workflow has called the process.
    #[error("the process has a caller")]
    HasCaller,
    /// There are 8,000,000 nodes.
    #[error("the graph has as many nodes as it may have")]
    Full,
    /// Memory ran out.
    #[error("out of memory")]
    OutOfMemory,
}

impl From<AllocError> for GraphError {
    ghost from_gives = { λ _ e. e ≡ OutOfMemory };

    fn from(_error: AllocError) -> GraphError {
        GraphError::OutOfMemory
    }
}

impl<T: Drop> From<AllocFailed<T>> for GraphError {
    ghost from_gives = { λ _ e. e ≡ OutOfMemory };

    fn from(_error: AllocFailed<T>) -> GraphError {
        GraphError::OutOfMemory
    }
}
