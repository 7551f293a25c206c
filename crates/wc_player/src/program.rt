//! The program that is called, and the sink on which it is.

use crate::clock::Clock;
use crate::outside::Outside;
use std::alloc::Global;
use wc_disk::MemoryDisk;
use wc_io::{Failed, MemoryShelf, MemorySink, Sink};
use wc_value::Words;

/// A sink that takes at most so many bytes in a call, and at least one.
#[derive(Drop)]
pub struct Sipping {
    /// What takes the bytes.
    pub inner: MemorySink,
    /// The most bytes that it takes in a call.
    pub most: usize,
}

impl Sink for Sipping {
    ghost use Rattle.std.specs.Prelude.{Some, IsTrue};

    ghost taken = { λ sink. Some sink.inner.bytes };

    ghost faults = { λ sink. sink.inner.schedule.faults };

    ghost failed = { λ sink. IsTrue sink.inner.schedule.failed };

    fn write(&mut self, bytes: &[u8]) -> Result<usize, Failed> {
        let count = bytes.len().min(self.most.max(1));
        self.inner.write(&bytes[..count])
    }
}

/// A program that is called with words on a shelf, a sink, two disks, a transport and a clock.
pub trait Program {
    /// Calls the program, and answers its exit status.
    fn call(
        &self,
        alloc: Global,
        words: &Words,
        shelf: &mut MemoryShelf,
        sink: &mut Sipping,
        one: &mut MemoryDisk,
        two: &mut MemoryDisk,
        transport: &mut Outside,
        clock: &mut Clock,
    ) -> u8;
}
