//! What a query asks.

use wc_graph::LinkSet;
use wc_value::{List, Text};

/// The most nodes that the words of a query may name.
pub const MOST_NODES: usize = 8;

/// What of a node a filter looks at.
#[derive(Clone, Copy, PartialEq, Eq)]
pub enum Field {
    /// The name of a process's definition.
    Name,
    /// The first word of a process's state.
    State,
    /// The node's number.
    Id,
    /// The exit status of a process that has finished.
    Status,
    /// The number that an Int holds.
    Value,
}

/// How a filter compares a node's field with its operand.
#[derive(Clone, Copy, PartialEq, Eq)]
pub enum Op {
    /// They are equal.
    Equal,
    /// They differ.
    Differs,
    /// The node's is below.
    Below,
    /// The node's is above.
    Above,
}

/// What a node's field is, or is compared with.
#[derive(Drop)]
pub enum Operand {
    /// A name, or the first word of a state.
    Word(Text),
    /// A whole number.
    Number(i64),
}

/// What is asked of one field of a node. A node that lacks the field doesn't pass.
#[derive(Drop)]
pub struct Filter {
    /// The field.
    pub field: Field,
    /// How it is compared.
    pub op: Op,
    /// With what.
    pub operand: Operand,
}

/// Filters, of which a node has to pass each.
pub type Filters = List<Filter>;

/// What is asked of a node.
#[derive(Drop)]
pub struct NodeTest {
    /// Its kind, as it was written: `any`, `data`, `process`, or the kind of a value or of a process.
    pub kind: Text,
    /// What is asked of its fields.
    pub filters: Filters,
}

/// How two neighbours of a row are joined.
#[derive(Drop)]
pub struct LinkTest {
    /// Whether links lead from the node before to the node after.
    pub forward: bool,
    /// The types that the links may have.
    pub types: LinkSet,
    /// Whether one or more links in a row join them, and not just one.
    pub walk: bool,
}

/// Links to follow, each with what is asked of the node behind them.
pub type Joins = List<(LinkTest, NodeTest)>;

/// A query: what is asked of the first node of a row, and of each further one.
#[derive(Drop)]
pub struct Query {
    /// Of the first node.
    pub first: NodeTest,
    /// Of the others, and how each is joined with the one before it.
    pub more: Joins,
}
