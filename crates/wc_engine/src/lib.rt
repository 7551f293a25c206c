//! The top call of the program: words are planned, what they ask is done on the disks that hold a store, and one text is written.
#![tactic(auto)]

mod top;

pub use top::serve;
pub use wc_plan::Status;
