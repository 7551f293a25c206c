//! The one call of a command.

use std::alloc::Global;
use wc_disk::Disk;
use wc_engine::serve;
use wc_io::{Pacer, Shelf, Sink};
use wc_transport::Transport;
use wc_value::Words;

/// The code of the status of `serve`, whose clauses stay behind this call, so that what plays transcripts or tells calls doesn't carry them.
pub fn status_code<R: Shelf, W: Sink, D: Disk, T: Transport, P: Pacer>(
    alloc: Global,
    words: &Words,
    shelf: &mut R,
    sink: &mut W,
    one: &mut D,
    two: &mut D,
    transport: &mut T,
    pacer: &mut P,
) -> u8 {
    serve(alloc, words, shelf, sink, one, two, transport, pacer).code()
}
