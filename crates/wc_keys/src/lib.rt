//! The keys of calculations that have finished: their digests are made of the printed text of the definition and of the
//! inputs as the links have them, one after another in the order of their ports, and their entries are kept while a world
//! changes.
//!
//! Contracts see the graph, the records and the libraries, of which a world is made, the entries in order, and how many of
//! them there are places for.
#![tactic(auto)]

mod beginnings;
mod calculations;
mod digests;
mod entries;
mod hashing;
mod inputs;
mod keys;
mod laws;
mod links;
mod lists;
mod seals;

pub use calculations::{seal, seals_of, unseal};
pub use entries::Sealed;
pub use hashing::{digest_of, finish, put_count};
pub use keys::{key_hasher, put_entry};
pub use laws::seals_are_one;
pub use seals::Seals;
pub use wc_fits::{
    Known, Libraries, call_fits, caller_of, is_calculation, is_settled, names_ascend, new_fits,
    node_of_kind, set_fits,
};
