//! What an archive is.

use wc_graph::Link;
use wc_state::ProcessKind;
use wc_syntax::Checked;
use wc_value::{List, ProcessState, Text, Value};

/// What an archive keeps of a process that has ended.
#[derive(Drop)]
pub struct ArchiveProcess {
    /// What kind of definition it ran.
    pub kind: ProcessKind,
    /// The name of the definition.
    pub definition: Text,
    /// How deep it lies below the root, which has depth 1.
    pub depth: u32,
    /// The label of its call, which is empty at the root.
    pub label: Text,
    /// The state that it ended in.
    pub state: ProcessState,
    /// The fuel that is kept with it.
    pub fuel: u64,
    /// The exit code of its program, where a job has a recorded result.
    pub code: Option<i64>,
}

/// A node of an archive.
#[derive(Drop)]
pub enum ArchiveNode {
    /// Data, with its value.
    Data(Value),
    /// A process.
    Process(ArchiveProcess),
}

/// The nodes of an archive, of which the first has the number 1.
pub type ArchiveNodes = List<ArchiveNode>;

/// The links between the nodes of an archive, in order.
pub type ArchiveLinks = List<Link>;

/// A root with all that it called, their data, and the library of their definitions.
#[derive(Drop)]
pub struct Archive {
    /// The library.
    pub library: Checked,
    /// The links between the nodes, in order.
    pub links: ArchiveLinks,
    /// The nodes.
    pub nodes: ArchiveNodes,
}
