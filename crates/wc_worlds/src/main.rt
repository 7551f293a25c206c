//! Plays the rows of its input: graphs and walks, changes as bytes, and worlds made by hand. It prints each case with the
//! number of its answers, and each answer that isn't the one that stands beside its row.
#![tactic(auto)]

mod cases;
mod changes;
mod environments;
mod graphs;
mod items;
mod parts;
mod report;
mod rows;
mod stage;
mod told;
mod walks;
mod worlds;

use crate::cases::play;
use crate::report::Report;
use std::io::{self, Read};
use std::process::ExitCode;

/// The whole input.
fn input(rt: &HostRuntime) -> io::Result<String> {
    let mut text = String::new(rt.alloc());
    rt.reader().read_to_string(&mut text)?;
    Ok(text)
}

/// Prints what is told of the cases. The status says whether each is as it should be.
fn tell(rt: &HostRuntime, report: &Report) -> io::Result<ExitCode> {
    print!(rt; "{}", report.text()?)?;
    Ok(report.status())
}

fn main(rt: HostRuntime) -> io::Result<ExitCode> {
    let text = input(&rt)?;
    tell(&rt, &play(rt.alloc(), text.as_str()))
}
