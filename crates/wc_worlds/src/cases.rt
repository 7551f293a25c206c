//! Cases, which are made of rows.

use crate::report::Report;
use crate::rows::play_row;
use crate::stage::Stage;
use std::alloc::Global;
use wc_value::let_go;

/// A row, and the answer that stands beside it. None stands beside a line of a text.
fn parted(line: &str) -> (&str, Option<&str>) {
    if line.starts_with(' ') {
        return (line, None);
    }
    match line.split_once(" = ") {
        Some((row, wanted)) => (row, Some(wanted)),
        None => (line, None),
    }
}

/// Plays a row, with the answer that stands beside it.
fn take_row(alloc: Global, stage: &mut Stage, report: &mut Report, line: &str) {
    let (row, wanted) = parted(line);
    play_row(alloc, stage, row, report.begin_row());
    if let Some(wanted) = wanted {
        report.want(wanted);
    }
}

/// Takes a line that isn't a further answer: a case begins, tells how many of its rows are wrong on purpose, or has one more row.
fn take_beginning(alloc: Global, stage: &mut Stage, report: &mut Report, line: &str) {
    if let Some(name) = line.strip_prefix("case ") {
        stage.begin(alloc);
        report.begin_case(name);
        return;
    }
    report.end_row();
    match line.strip_prefix("wrong ") {
        Some(count) => report.set_meant(count.parse().unwrap_or(0)),
        None => take_row(alloc, stage, report, line),
    }
}

/// Takes a line.
fn take_line(alloc: Global, stage: &mut Stage, report: &mut Report, line: &str) {
    report.count_line();
    if line.is_empty() || line.starts_with('#') {
        return;
    }
    match line.strip_prefix("= ") {
        Some(wanted) => report.want(wanted),
        None => take_beginning(alloc, stage, report, line),
    }
}

/// Plays the cases of a text, and gives what is told of them.
pub fn play(alloc: Global, text: &str) -> Report {
    let mut stage = Stage::new(alloc);
    let mut report = Report::new(alloc);
    for line in text.split('\n') {
        take_line(alloc, &mut stage, &mut report, line);
    }
    report.end_case();
    let_go(stage);
    report
}
