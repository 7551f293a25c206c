//! A command on disks in memory that begin with what the two files of a store hold, and tell each call. The files stay as they are.

use crate::noted::Noted;
use crate::status::status_code;
use std::alloc::AllocError;
use wc_disk::MemoryDisk;
use wc_engine::Status;
use wc_io::{ClockPacer, Failing, FileShelf, Shelf, ShelfError, StdoutSink};
use wc_transport::{Busy, TableTransport};
use wc_value::{List, Rows, Table, Text, Words};

/// A disk in memory that holds what a file holds now, and nothing where it isn't there.
fn disk(rt: HostRuntime, name: &'static str, path: &str) -> Result<Noted<MemoryDisk>, ShelfError> {
    let path = Text::of_str(rt.alloc(), path)?;
    let content = FileShelf::new(rt).read(rt.alloc(), &path)?;
    let image = content.unwrap_or(List::new(rt.alloc()));
    let disk = MemoryDisk::new(rt.alloc(), image, Failing::new(rt.alloc()));
    Ok(Noted::new(rt, name, disk))
}

/// A transport that has no results.
fn jobs(rt: HostRuntime) -> Result<TableTransport, AllocError> {
    match Table::new(rt.alloc(), Rows::new(rt.alloc())) {
        Ok(table) => Ok(TableTransport::new(
            rt.alloc(),
            table,
            Failing::new(rt.alloc()),
            Busy::new(rt.alloc()),
        )),
        Err(_) => Err(AllocError),
    }
}

/// Does what the words say, and answers the code of its status.
fn done(rt: HostRuntime, words: &Words) -> Result<u8, ShelfError> {
    let mut one = disk(rt, "one", "wc.store/one")?;
    let mut two = disk(rt, "two", "wc.store/two")?;
    let mut transport = jobs(rt)?;
    Ok(status_code(
        rt.alloc(),
        words,
        &mut FileShelf::new(rt),
        &mut StdoutSink::new(rt),
        &mut one,
        &mut two,
        &mut transport,
        &mut ClockPacer::new(rt),
    ))
}

/// Does what the words say, and tells on the standard error each call of the disks.
pub fn tell_calls(rt: HostRuntime, words: &Words) -> u8 {
    match done(rt, words) {
        Ok(code) => code,
        Err(_) => Status::ReadFault.code(),
    }
}
