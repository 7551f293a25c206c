//! Tries on the rows of its input what texts, bytes and files are read as, and tells of each part how many rows it has. What is
//! wanted stands below each row, worked out by hand from the rules.
#![tactic(auto)]

mod answers;
mod calculations;
mod copies;
mod lists;
mod meanings;
mod requests;
mod rows;
mod shown;
mod syntax;
mod tokens;
mod values;

use crate::rows::try_row;
use crate::shown::Shown;
use std::alloc::Global;
use std::io::{self, Read};
use std::process::ExitCode;

/// The part whose row is wrong, so that it shows that such rows are seen.
const WRONG: &str = "wrong on purpose";

/// The whole input.
fn input(rt: &HostRuntime) -> io::Result<String> {
    let mut text = String::new(rt.alloc());
    rt.reader().read_to_string(&mut text)?;
    Ok(text)
}

/// Tries the rows of a part, whose name stands above them, and tells how many there are. Whether that is as it should be.
fn try_part(alloc: Global, told: &mut Shown, part: &str) -> bool {
    let (name, rows) = part.split_once("\n\n").unwrap_or((part, ""));
    let mut count: u32 = 0;
    let mut is_right = true;
    for row in rows.split("\n\n") {
        count = count.saturating_add(1);
        is_right &= try_row(alloc, told, row);
    }
    let is_meant = is_right != (name == WRONG);
    told.put(if is_meant { "ok: " } else { "FAILED: " });
    told.put(name);
    told.put(": ");
    told.put_item(&count);
    told.put(" rows\n");
    is_meant
}

/// Tries all parts. Whether all is as it should be.
fn try_all(alloc: Global, told: &mut Shown, text: &str) -> bool {
    let mut is_right = true;
    for part in text.trim_end_matches('\n').split("\n\npart ").skip(1) {
        is_right &= try_part(alloc, told, part);
    }
    is_right
}

fn main(rt: HostRuntime) -> io::Result<ExitCode> {
    let text = input(&rt)?;
    let mut told = Shown::new(rt.alloc());
    let is_right = try_all(rt.alloc(), &mut told, text.as_str());
    print!(rt; "{}", told.finish()?)?;
    Ok(if is_right {
        ExitCode::SUCCESS
    } else {
        ExitCode::FAILURE
    })
}
