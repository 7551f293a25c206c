//! Tables of requests and results.

use crate::shown::Shown;
use std::alloc::{AllocError, Global};
use wc_json::table_from_json;
use wc_value::{Duplicate, Request, Rows, Table, TableError, encode_request, filled, let_go};

/// The bytes of a request in hexadecimal digits.
fn spelled(alloc: Global, request: &Request) -> Result<String, AllocError> {
    hex::encode(alloc, encode_request(alloc, request)?.bytes())
}

/// Puts the bytes of a request, and the code that a table has for it.
fn put_request(alloc: Global, shown: &mut Shown, table: &Table, request: &Request) {
    match spelled(alloc, request) {
        Ok(digits) => shown.put(digits.as_str()),
        Err(_) => shown.lose(),
    }
    match table.find(request) {
        Some(found) => {
            shown.put(" code ");
            shown.put_item(&found.code);
        }
        None => shown.put(" not there"),
    }
    shown.put("; ");
}

/// Puts the first of these rows, if there is one, behind others.
fn put_first(rows: &mut Rows, given: &Rows) -> Result<(), AllocError> {
    match given.get(0) {
        Some(first) => rows.push(first.copy()?),
        None => Ok(()),
    }
}

/// The rows of a table with the first once more behind them.
fn repeated(table: &Table) -> Result<Rows, AllocError> {
    let mut rows = table.rows().copy()?;
    let put = put_first(&mut rows, table.rows());
    filled(rows, put)
}

/// Puts where rows are refused as a table.
fn put_refused(alloc: Global, shown: &mut Shown, rows: Rows) {
    match Table::new(alloc, rows) {
        Err(TableError::Twice(at)) => {
            shown.put("twice at ");
            shown.put_item(&at);
        }
        _ => shown.put("not twice"),
    }
}

/// Puts what a table has for the requests of another, and where it is refused with its first row once more.
fn put_found(alloc: Global, shown: &mut Shown, table: &Table, asked: &Table) {
    for (request, _) in asked.rows().as_slice() {
        put_request(alloc, shown, table, request);
    }
    match repeated(table) {
        Ok(rows) => put_refused(alloc, shown, rows),
        Err(_) => shown.lose(),
    }
}

/// Puts the same of a copy of a table.
fn put_copy(alloc: Global, shown: &mut Shown, table: &Table, asked: &Table) {
    match table.copy() {
        Ok(copy) => {
            put_found(alloc, shown, &copy, asked);
            let_go(copy);
        }
        Err(_) => shown.lose(),
    }
}

/// Puts what the table of the first line has for the requests of the table of the second.
pub fn put_table(alloc: Global, shown: &mut Shown, text: &str) {
    let (table, asked) = text.split_once('\n').unwrap_or((text, text));
    let table = table_from_json(alloc, table.as_bytes());
    let asked = table_from_json(alloc, asked.as_bytes());
    match (&table, &asked) {
        (Ok(table), Ok(asked)) => put_copy(alloc, shown, table, asked),
        _ => shown.put("no table"),
    }
    let_go(table);
    let_go(asked);
}
