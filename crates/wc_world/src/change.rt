//! Changes of a world.

use wc_graph::Link;
use wc_records::{Kept, NewProcess, SetProcess};
use wc_syntax::Checked;
use wc_value::{List, Value, Words};

/// One change of a world.
#[derive(Drop)]
pub enum Change {
    /// A library, with the names of its definitions that have caching on, ascending.
    Library(Checked, Words),
    /// A data node.
    Data(Value),
    /// A process, and its node.
    Process(NewProcess),
    /// A link.
    Link(Link),
    /// What a process is from now on.
    Set(SetProcess),
    /// How many batches there were; at the end of a snapshot alone.
    Count(u32),
    /// When a process started and ended; in a snapshot alone.
    Kept(Kept),
}

/// Changes, in order.
pub type Changes = List<Change>;
