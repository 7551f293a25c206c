//! A disk that may crash at any moment: what it promises, and a form in memory.
#![tactic(auto)]

mod calls;
mod disk;
mod edits;
mod memory;
mod pick;
mod replay;
mod tape;

pub use calls::Call;
pub use disk::Disk;
pub use memory::MemoryDisk;
pub use pick::Pick;
pub use tape::Tape;
