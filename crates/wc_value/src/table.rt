//! Results of jobs by their requests.

ghost use Rattle.std.specs.Prelude.{◌≡◌, IfOk, IfErr, MatchOption, length};
ghost use Rattle.std.specs.List.{Contains};
ghost use Rattle.wc_value.specs.declared.table.TableError.TheVariants.{OutOfMemory};
ghost use Rattle.wc_value.specs.Indexes.{IsIndex};
ghost use Rattle.wc_value.specs.Requests.{requests, IsDistinct};
ghost use Rattle.wc_value.specs.Refusals.{IsRefused};

use crate::duplicate::Duplicate;
use crate::encoding::encode_request;
use crate::equality::same_request;
use crate::list::List;
use crate::process::{JobResult, Request};
use std::alloc::{AllocError, AllocFailed, Global};
use std::collections::BTreeMap;
use std::marker::Model;
use thiserror::Error;

/// Requests with what they give.
pub type Rows = List<(Request, JobResult)>;

/// Places of rows, counted from 0, by the canonical bytes of their requests.
type Places = BTreeMap<Vec<u8>, usize>;

/// Results of jobs by their requests, with no request twice. Contracts see the list of its rows.
#[derive(Drop)]
pub struct Table {
    rows: Rows,
    places: Places,
    alloc: Global,
}

impl Model for Table {
    ghost use Rattle.std.specs.Prelude.{List, length};
    ghost use Rattle.wc_value.specs.declared.process.Request.{Request};
    ghost use Rattle.wc_value.specs.declared.process.JobResult.{JobResult};

    ghost Value = { List (Request × JobResult) };

    ghost use Rattle.wc_value.specs.Indexes.{IsIndex};
    ghost use Rattle.wc_value.specs.Requests.{requests, IsDistinct};

    ghost view = { λ a. a.rows };

    ghost invariant = { λ a. IsDistinct (requests a.rows) × IsIndex a.rows (length a.rows) a.places };
}

/// Why rows are no table.
#[derive(Debug, Drop, Error)]
pub enum TableError {
    /// Memory ran out.
    #[error("out of memory")]
    OutOfMemory,
    /// The place, counted from 0, of the first row whose request stands in an earlier row.
    #[error("the request of row {0} stands in an earlier row")]
    Twice(usize),
}

impl From<AllocError> for TableError {
    ghost from_gives = { λ _ e. e ≡ OutOfMemory };

    fn from(_error: AllocError) -> TableError {
        TableError::OutOfMemory
    }
}

impl<T: Drop> From<AllocFailed<T>> for TableError {
    ghost from_gives = { λ _ e. e ≡ OutOfMemory };

    fn from(_error: AllocFailed<T>) -> TableError {
        TableError::OutOfMemory
    }
}

/// The place of each row by the canonical bytes of its request, or that of the first row whose request stands in an earlier one.
fn places_of(alloc: Global, items: &[(Request, JobResult)]) -> Result<Places, TableError>
    ensures ok { IfOk result (λ places. IsIndex items.now (length items.now) places × IsDistinct (requests items.now)) }
    ensures err { IfErr result (λ e. IsRefused items.now e) }
{
    let mut places = BTreeMap::new(alloc);
    for at in 0..items.len() {
        let spelled = encode_request(alloc, &items[at].0)?.into_vec();
        if places.insert(spelled, at)?.is_some() {
            return Err(TableError::Twice(at));
        }
    }
    Ok(places)
}

impl Table {
    /// The table of these rows. It keeps their places by the canonical bytes of their requests.
    pub fn new(alloc: Global, rows: Rows) -> Result<Table, TableError>
        ensures ok { IfOk result (λ table. (table ≡ rows) × IsDistinct (requests rows)) }
        ensures err { IfErr result (λ e. IsRefused rows e) }
    {
        let places = places_of(alloc, rows.as_slice())?;
        Ok(Table {
            rows,
            places,
            alloc,
        })
    }

    /// The rows.
    pub fn rows(&self) -> &Rows
        ensures value { result.now ≡ self.now }
        ensures distinct { IsDistinct (requests self.now) }
    {
        &self.rows
    }

    /// What the table has for a request. It takes no memory, and compares the request with each row's until one is equal.
    pub fn find(&self, request: &Request) -> Option<&JobResult>
        ensures { MatchOption result (¬ Contains (requests self.now) request.now) (λ found. Contains self.now (request.now, found.now)) }
    {
        for (asked, found) in self.rows.as_slice() {
            if same_request(asked, request) {
                return Some(found);
            }
        }
        None
    }

    /// What the table has for a request, by the request's canonical bytes: it looks at few rows, however many there are.
    pub fn find_spelled(
        &self,
        alloc: Global,
        request: &Request,
    ) -> Result<Option<&JobResult>, AllocError>
        ensures found { IfOk result (λ answer. MatchOption answer (¬ Contains (requests self.now) request.now) (λ found. Contains self.now (request.now, found.now))) }
        ensures distinct { IfOk result (λ answer. IsDistinct (requests self.now)) }
    {
        let spelled = encode_request(alloc, request)?;
        match self.places.get(spelled.as_slice()) {
            None => Ok(None),
            Some(at) => Ok(Some(&self.rows.as_slice()[*at].1)),
        }
    }
}

impl Duplicate for Table {
    fn copy(&self) -> Result<Table, AllocError> {
        let rows = self.rows.copy()?;
        match places_of(self.alloc, rows.as_slice()) {
            Ok(places) => Ok(Table {
                rows,
                places,
                alloc: self.alloc,
            }),
            Err(TableError::OutOfMemory) => Err(AllocError),
            Err(TableError::Twice(_)) => unreachable!(),
        }
    }
}
