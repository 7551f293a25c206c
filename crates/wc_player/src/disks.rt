//! The two disks, in memory.

use crate::deed::{Left, Side};
use crate::kept::Kept;
use std::alloc::Global;
use wc_disk::{MemoryDisk, Pick};
use wc_value::{Bytes, List, put};

/// The two disks.
#[derive(Drop)]
pub struct Disks {
    /// Disk one.
    pub one: MemoryDisk,
    /// Disk two.
    pub two: MemoryDisk,
}

/// A disk that holds these bytes, of which no call fails.
fn disk_of(kept: &mut Kept, bytes: &[u8]) -> MemoryDisk {
    MemoryDisk::new(kept.alloc, kept.bytes_of(bytes), List::new(kept.alloc))
}

/// What the disk takes for what a crash leaves.
fn pick_of(left: Left) -> Pick {
    match left {
        Left::Old => Pick::Old,
        Left::New => Pick::New,
        Left::Noise(seed) => Pick::Noise(seed),
    }
}

/// What a crash of a disk leaves, where it is picked so.
fn crashed(kept: &mut Kept, disk: &MemoryDisk, left: Left) -> MemoryDisk {
    let usual = disk_of(kept, &[]);
    kept.made(disk.crashed(kept.alloc, pick_of(left)), usual)
}

impl Disks {
    /// Two empty disks.
    pub fn new(alloc: Global) -> Disks {
        Disks {
            one: MemoryDisk::new(alloc, List::new(alloc), List::new(alloc)),
            two: MemoryDisk::new(alloc, List::new(alloc), List::new(alloc)),
        }
    }

    /// Disks that hold the same, all of it synced, and of which no call fails.
    pub fn copy(&self, kept: &mut Kept) -> Disks {
        Disks {
            one: disk_of(kept, self.one.bytes()),
            two: disk_of(kept, self.two.bytes()),
        }
    }

    /// What a crash of both disks leaves, where each is picked so.
    pub fn crashed(&self, kept: &mut Kept, one: Left, two: Left) -> Disks {
        Disks {
            one: crashed(kept, &self.one, one),
            two: crashed(kept, &self.two, two),
        }
    }

    /// What a disk holds.
    pub fn bytes(&self, side: Side) -> &[u8] {
        match side {
            Side::One => self.one.bytes(),
            Side::Two => self.two.bytes(),
        }
    }

    /// A disk holds these bytes, and these calls of it fail.
    pub fn set(&mut self, alloc: Global, side: Side, bytes: Bytes, failing: List<u64>) {
        let disk = MemoryDisk::new(alloc, bytes, failing);
        match side {
            Side::One => put(&mut self.one, disk),
            Side::Two => put(&mut self.two, disk),
        }
    }

    /// Behind so many calls each call of a disk fails.
    pub fn fuse(&mut self, side: Side, calls: u64) {
        match side {
            Side::One => self.one.fuse(calls),
            Side::Two => self.two.fuse(calls),
        }
    }
}
