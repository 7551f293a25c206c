//! The calls that change a disk in memory.

use wc_value::Bytes;

/// A call that succeeded and may have changed what a crash leaves.
#[derive(Debug, Drop)]
pub enum Call {
    /// These bytes were written at this offset.
    Write(u64, Bytes),
    /// The file was cut to this length.
    Cut(u64),
    /// All was brought to the disk.
    Sync,
}
