//! What is told of the cases.

use crate::told::Told;
use std::alloc::{AllocError, Global};
use std::process::ExitCode;

/// What was counted in a case.
#[derive(Clone, Copy)]
struct Tally {
    /// How many lines were asked for.
    answers: u32,
    /// How many rows were found wrong.
    wrong: u32,
    /// How many rows are wrong on purpose.
    meant: u32,
}

impl Tally {
    /// Of no row.
    fn new() -> Tally {
        Tally {
            answers: 0,
            wrong: 0,
            meant: 0,
        }
    }
}

/// What is told of the cases, and what was found in the one that is played.
#[derive(Drop)]
pub struct Report {
    /// What is printed.
    text: Told,
    is_right: bool,
    /// The case that is played, and a line for each row that was found wrong in it.
    case: Told,
    findings: Told,
    tally: Tally,
    /// The number of the line, and that of the row.
    line: u32,
    row: u32,
    /// What the row answers, and what it has to.
    told: Told,
    wanted: Told,
}

impl Report {
    /// Of no case.
    pub fn new(alloc: Global) -> Report {
        Report {
            text: Told::new(alloc),
            is_right: true,
            case: Told::new(alloc),
            findings: Told::new(alloc),
            tally: Tally::new(),
            line: 0,
            row: 0,
            told: Told::new(alloc),
            wanted: Told::new(alloc),
        }
    }

    /// What is printed, if memory ran out nowhere.
    pub fn text(&self) -> Result<&str, AllocError> {
        let is_row_lost = self.told.is_lost() | self.wanted.is_lost();
        let is_case_lost = self.case.is_lost() | self.findings.is_lost();
        if is_row_lost | is_case_lost | self.text.is_lost() {
            return Err(AllocError);
        }
        Ok(self.text.as_str())
    }

    /// Success, if each case is as it should be.
    pub fn status(&self) -> ExitCode {
        if self.is_right {
            ExitCode::SUCCESS
        } else {
            ExitCode::FAILURE
        }
    }

    /// One more line is read.
    pub fn count_line(&mut self) {
        self.line = self.line.saturating_add(1);
    }

    /// The line is a row. What it answers is to be put here.
    pub fn begin_row(&mut self) -> &mut Told {
        self.row = self.line;
        &mut self.told
    }

    /// The row has to answer one more line.
    pub fn want(&mut self, line: &str) {
        self.tally.answers = self.tally.answers.saturating_add(1);
        self.wanted.put(line);
        self.wanted.put("\n");
    }

    /// So many rows of the case are wrong on purpose.
    pub fn set_meant(&mut self, count: u32) {
        self.tally.meant = count;
    }

    /// Puts a line for a row that is wrong.
    fn find(&mut self) {
        self.tally.wrong = self.tally.wrong.saturating_add(1);
        self.findings.put("  line ");
        self.findings.put_item(&self.row);
        self.findings.put(": expected ");
        self.findings.put_quoted(&self.wanted.as_str());
        self.findings.put(", came ");
        self.findings.put_quoted(&self.told.as_str());
        self.findings.put("\n");
    }

    /// The row is over: what it answered is what it had to, or it is wrong.
    pub fn end_row(&mut self) {
        if self.told.as_str() != self.wanted.as_str() {
            self.find();
        }
        self.told.clear();
        self.wanted.clear();
    }

    /// Tells how many answers the case has, behind a word.
    fn put_answers(&mut self, word: &str) {
        self.text.put(word);
        self.text.put(": ");
        self.text.put(self.case.as_str());
        self.text.put(": ");
        self.text.put_item(&self.tally.answers);
        self.text.put(" answers");
    }

    /// Tells how many rows of the case were found wrong.
    fn put_wrong(&mut self, behind: &str) {
        self.text.put(", ");
        self.text.put_item(&self.tally.wrong);
        self.text.put(" wrong");
        self.text.put(behind);
    }

    /// Tells of the case, which is right where as many rows were found wrong as are wrong on purpose.
    fn put_case(&mut self) {
        if self.tally.wrong != self.tally.meant {
            self.put_answers("FAILED");
            self.put_wrong("");
        } else {
            self.put_answers("ok");
            if self.tally.wrong > 0 {
                self.put_wrong(" on purpose");
            }
        }
        self.text.put("\n");
        self.text.put(self.findings.as_str());
    }

    /// The case is over. Of one without answers and findings nothing is told.
    pub fn end_case(&mut self) {
        self.end_row();
        self.is_right &= self.tally.wrong == self.tally.meant;
        if self.tally.answers > 0 || self.tally.wrong > 0 {
            self.put_case();
        }
    }

    /// A case begins.
    pub fn begin_case(&mut self, name: &str) {
        self.end_case();
        self.case.clear();
        self.findings.clear();
        self.tally = Tally::new();
        self.case.put(name);
    }
}
