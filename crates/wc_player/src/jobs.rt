//! Steps that speak of the transport and the clock.

use crate::error::PlayError;
use crate::findings::Place;
use crate::kept::Kept;
use crate::number::Number;
use crate::player::Player;
use crate::program::Program;
use crate::row::Row;
use wc_value::{JobResult, Request, Rows, Table};

/// What a program is started with, in a repetition.
fn request_of(kept: &mut Kept, row: &Row, repetition: u64) -> Option<Request> {
    let (program, args) = row.words.as_slice().split_first()?;
    let program = kept.text(program, repetition)?;
    Some(Request {
        program,
        args: kept.words(args, repetition),
        files: kept.files(&row.files, repetition),
        fetch: kept.words(row.fetch.as_slice(), repetition),
    })
}

/// Puts a row of a table in a repetition.
fn put_row(kept: &mut Kept, rows: &mut Rows, row: &Row, repetition: u64) {
    let Some(request) = request_of(kept, row, repetition) else {
        return;
    };
    let files = kept.files(&row.left, repetition);
    let code = row.code;
    kept.keep(rows.push((request, JobResult { code, files })));
}

/// The rows of a table in a repetition.
fn rows_of(kept: &mut Kept, rows: &[Row], repetition: u64) -> Rows {
    let mut list = Rows::new(kept.alloc);
    for row in rows {
        put_row(kept, &mut list, row, repetition);
    }
    list
}

impl<P: Program + Drop> Player<P> {
    /// The transport is a new one with these results, and the clock a new one.
    pub fn set_table(&mut self, place: Place, rows: &[Row]) {
        let rows = rows_of(&mut self.kept, rows, place.repetition);
        match Table::new(self.kept.alloc, rows) {
            Ok(table) => self.kept.keep(self.machine.set_table(table)),
            Err(error) => self.kept.fail(PlayError::from(error)),
        }
    }

    /// So many first updates of a directory answer Running.
    pub fn set_busy(&mut self, place: Place, directory: Number, updates: Number) {
        let updates = updates.at(place.repetition);
        match u32::try_from(directory.at(place.repetition)) {
            Ok(directory) => {
                let outside = &mut self.machine.outside;
                let set = outside.set_busy(&mut self.kept, directory, updates);
                self.kept.keep(set);
            }
            Err(_) => self.note(place, false, "there is no such directory"),
        }
    }
}
