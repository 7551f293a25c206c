//! The provenance graph: data, calculations and workflows as nodes, and the links between them.
//!
//! Contracts see a graph as its list of nodes, its list of links, and two numbers of spare room. Each graph
//! meets the rules of links: what each type joins, and what no two links may share.
//!
//! Walks over it give ancestors, descendants and the order of data provenance. No body of them recurses, so no graph is
//! too deep, and each takes at most as many steps as there are nodes and links, times a logarithm.
#![tactic(auto)]

mod busy;
mod choice;
mod copies;
mod cycle;
mod error;
mod flood;
mod graph;
mod index;
mod labels;
mod link;
mod near;
mod node;
mod reach;
mod rules;
mod topology;
mod walk_error;

pub use choice::LinkSet;
pub use error::GraphError;
pub use graph::{Graph, Links, Nodes};
pub use link::{Link, LinkType};
pub use node::NodeKind;
pub use reach::{Ids, ancestors, descendants};
pub use rules::{
    enters, is_call, leaves, shares_called, shares_created, takes_label, takes_triple,
};
pub use topology::order;
pub use walk_error::WalkError;
