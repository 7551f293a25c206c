//! Definitions and what they consist of.

use crate::expression::{Expr, Name, Number, Quoted};
use crate::outline::Block;
use wc_lexer::{Kind, List};

/// The definitions of a file, in order.
pub type Library = List<Definition>;

/// Ports in the order of the file.
pub type PortList = List<Port>;

/// Exit codes in the order of the file.
pub type ExitCodes = List<ExitCode>;

/// Rules in the order of the file.
pub type RuleList = List<Rule>;

/// The `arg` lines of a job in the order of the file.
pub type JobLines = List<JobLine>;

/// The `file` lines of a job in the order of the file.
pub type JobFiles = List<JobFile>;

/// The `fetch` lines of a job in the order of the file.
pub type Fetches = List<Fetch>;

/// A definition that a process can run.
#[derive(Drop)]
pub enum Definition {
    /// A `calcfunction`.
    Function(Function),
    /// A `calcjob`.
    Job(Job),
    /// A `workchain`.
    Chain(Chain),
}

/// What every definition begins with.
#[derive(Drop)]
pub struct Head {
    /// Where the definition begins in the file.
    pub at: u32,
    /// Its name.
    pub name: Name,
    /// Its input ports.
    pub inputs: PortList,
    /// Its output ports.
    pub outputs: PortList,
    /// The exit codes that it declares.
    pub codes: ExitCodes,
}

/// A calculation that the engine itself evaluates.
#[derive(Drop)]
pub struct Function {
    /// Name, ports and exit codes.
    pub head: Head,
    /// Its rules, which run in order.
    pub rules: RuleList,
}

/// A calculation that a program makes, whose result rules read.
#[derive(Drop)]
pub struct Job {
    /// Name, ports and exit codes.
    pub head: Head,
    /// The program.
    pub program: JobLine,
    /// The program's arguments, in order.
    pub args: JobLines,
    /// The files that are written for the program.
    pub files: JobFiles,
    /// The files that are kept of what the program wrote.
    pub fetch: Fetches,
    /// The rules that read the result, in order.
    pub parse: RuleList,
}

/// A work chain: an outline of steps that calls other definitions.
#[derive(Drop)]
pub struct Chain {
    /// Name, ports and exit codes.
    pub head: Head,
    /// Its outline, which is block 0.
    pub outline: Block,
}

/// A port of a definition.
#[derive(Drop)]
pub struct Port {
    /// Where it begins in the file.
    pub at: u32,
    /// Its name.
    pub name: Name,
    /// Whether it may be left out.
    pub optional: bool,
    /// The kind of its values.
    pub kind: Kind,
}

/// An exit status that a definition declares.
#[derive(Drop)]
pub struct ExitCode {
    /// Where it begins in the file.
    pub at: u32,
    /// The status.
    pub status: Number,
    /// What it says to a reader.
    pub message: Quoted,
    /// Whether a calculation with this status is no source for the cache.
    pub invalidates: bool,
}

/// A `program` or `arg` line of a job.
#[derive(Drop)]
pub struct JobLine {
    /// Where it begins in the file.
    pub at: u32,
    /// What it says; a text when evaluated.
    pub value: Expr,
}

/// A `file` line of a job.
#[derive(Drop)]
pub struct JobFile {
    /// Where it begins in the file.
    pub at: u32,
    /// The file's name.
    pub name: Quoted,
    /// The file's content; a text when evaluated.
    pub value: Expr,
}

/// A `fetch` line of a job.
#[derive(Drop)]
pub struct Fetch {
    /// Where it begins in the file.
    pub at: u32,
    /// The file's name.
    pub name: Quoted,
}

/// An `exit` line.
#[derive(Drop)]
pub struct Exit {
    /// Where it begins in the file.
    pub at: u32,
    /// The status with which it ends.
    pub status: Number,
    /// When it ends; always, where there is none.
    pub condition: Option<Expr>,
}

/// A rule of a function, or of the `parse` part of a job. An offset is that of the rule's first token.
#[derive(Drop)]
pub enum Rule {
    /// `let NAME = expr;` names a value.
    Let(u32, Name, Expr),
    /// `out NAME = expr;` sets an output.
    Out(u32, Name, Expr),
    /// `exit N;` or `exit N if expr;`
    Exit(Exit),
}
