//! A file of the system as a disk, which tells by a record what the system answered.
#![tactic(auto)]

mod disk;
mod held;
mod system;

pub use disk::FileDisk;
pub use held::HeldFile;
pub use system::SystemFile;
