//! The syntax of workflow files.
//!
//! Each item keeps the offset `at` of its first token in the file, counted in bytes from 0. Two pieces of syntax
//! mean the same where they are equal but for offsets: contracts compare them by their *bare* forms, in which
//! each offset is 0.
#![tactic(auto)]

mod checked;
mod definition;
mod expression;
mod lookup;
mod outline;
mod printing;

pub use checked::{Checked, Printed};
pub use definition::{
    Chain, Definition, Exit, ExitCode, ExitCodes, Fetch, Fetches, Function, Head, Job, JobFile,
    JobFiles, JobLine, JobLines, Library, Port, PortList, Rule, RuleList,
};
pub use expression::{
    BinaryOp, ChildPart, Expr, Exprs, Form, Name, Number, OneOf, Quoted, TwoOf, UnaryOp,
};
pub use lookup::{find_definition, head, is_among};
pub use outline::{
    Arm, Arms, Block, CallArg, CallArgs, CallStmt, Instr, Instrs, Step, Stmt, Stmts,
};
pub use printing::{offsets_are_not_printed, print_definition};
