//! The offsets of libraries, one behind the other, and printed files.

use crate::shown::Shown;
use std::alloc::Global;
use wc_parser::{ParseError, parse};
use wc_syntax::{
    CallStmt, ChildPart, Definition, Exit, ExitCode, Expr, Form, Head, Instr, Job, Name, Port,
    Printed, Rule, Step, Stmt,
};
use wc_value::Text;

/// Puts an offset.
fn put(shown: &mut Shown, at: u32) {
    shown.put_item(&at);
    shown.put(" ");
}

/// Puts two offsets.
fn put_two(shown: &mut Shown, first: u32, second: u32) {
    put(shown, first);
    put(shown, second);
}

/// Puts those of a form in which no expression stands; of a list it has none.
fn put_leaf(shown: &mut Shown, form: &Form) {
    match form {
        Form::Number(number) => put(shown, number.at),
        Form::Quoted(quoted) => put(shown, quoted.at),
        Form::Bare(name) | Form::GivenBare(name) => put(shown, name.at),
        Form::Input(at, name) | Form::GivenInput(at, name) => put_two(shown, *at, name.at),
        Form::Plain(at, name) | Form::Count(at, name) => put_two(shown, *at, name.at),
        _ => {}
    }
}

/// Puts that of what is asked of a child.
fn put_part(shown: &mut Shown, part: &ChildPart) {
    if let ChildPart::Outputs(name) = part {
        put(shown, name.at);
    }
}

/// Puts those of what stands in an expression, and its own.
fn put_expr(shown: &mut Shown, expr: &Expr) {
    match &expr.form {
        Form::Child(at, name, None, part) => {
            put_two(shown, *at, name.at);
            put_part(shown, part);
        }
        Form::Child(at, name, Some(index), part) => {
            put_two(shown, *at, name.at);
            put_expr(shown, index.get());
            put_part(shown, part);
        }
        Form::Unary(_, operand) | Form::One(_, operand) => put_expr(shown, operand.get()),
        Form::Binary(_, first, second) | Form::Two(_, first, second) => {
            put_expr(shown, first.get());
            put_expr(shown, second.get());
        }
        form => put_leaf(shown, form),
    }
    put(shown, expr.at);
}

/// Puts those of ports.
fn put_ports(shown: &mut Shown, ports: &[Port]) {
    for port in ports {
        put_two(shown, port.name.at, port.at);
    }
}

/// Puts those of exit codes.
fn put_codes(shown: &mut Shown, codes: &[ExitCode]) {
    for code in codes {
        put_two(shown, code.at, code.status.at);
        put(shown, code.message.at);
    }
}

/// Puts those of what a definition begins with.
fn put_head(shown: &mut Shown, head: &Head) {
    put_two(shown, head.at, head.name.at);
    put_ports(shown, head.inputs.as_slice());
    put_ports(shown, head.outputs.as_slice());
    put_codes(shown, head.codes.as_slice());
}

/// Puts those of what a name is set to.
fn put_set(shown: &mut Shown, at: u32, name: &Name, value: &Expr) {
    put_two(shown, at, name.at);
    put_expr(shown, value);
}

/// Puts those of an exit.
fn put_exit(shown: &mut Shown, exit: &Exit) {
    put_two(shown, exit.at, exit.status.at);
    if let Some(condition) = &exit.condition {
        put_expr(shown, condition);
    }
}

/// Puts those of rules.
fn put_rules(shown: &mut Shown, rules: &[Rule]) {
    for rule in rules {
        match rule {
            Rule::Let(at, name, value) | Rule::Out(at, name, value) => {
                put_set(shown, *at, name, value);
            }
            Rule::Exit(exit) => put_exit(shown, exit),
        }
    }
}

/// Puts those of a job.
fn put_job(shown: &mut Shown, job: &Job) {
    put_head(shown, &job.head);
    put(shown, job.program.at);
    put_expr(shown, &job.program.value);
    for line in job.args.as_slice() {
        put(shown, line.at);
        put_expr(shown, &line.value);
    }
    for file in job.files.as_slice() {
        put_two(shown, file.name.at, file.at);
        put_expr(shown, &file.value);
    }
    for fetch in job.fetch.as_slice() {
        put_two(shown, fetch.at, fetch.name.at);
    }
    put_rules(shown, job.parse.as_slice());
}

/// Puts those of a call.
fn put_call(shown: &mut Shown, call: &CallStmt) {
    put_two(shown, call.at, call.callee.at);
    for arg in call.args.as_slice() {
        put(shown, arg.port.at);
        put_expr(shown, &arg.value);
    }
    put(shown, call.key.at);
}

/// Puts those of a step.
fn put_step(shown: &mut Shown, step: &Step) {
    put_two(shown, step.at, step.name.at);
    for stmt in step.stmts.as_slice() {
        match stmt {
            Stmt::Ctx(at, name, value) | Stmt::Out(at, name, value) => {
                put_set(shown, *at, name, value);
            }
            Stmt::Exit(exit) => put_exit(shown, exit),
            Stmt::Call(call) => put_call(shown, call),
        }
    }
}

/// Puts those of an instruction, and none of its blocks.
fn put_instr(shown: &mut Shown, instr: &Instr) {
    match instr {
        Instr::Step(step) => put_step(shown, step),
        Instr::If(at, arms, _) => {
            put(shown, *at);
            for arm in arms.as_slice() {
                put_expr(shown, &arm.condition);
            }
        }
        Instr::While(at, condition, _) => {
            put(shown, *at);
            put_expr(shown, condition);
        }
        Instr::Return(at, None) => put(shown, *at),
        Instr::Return(at, Some(status)) => put_two(shown, *at, status.at),
    }
}

/// Puts those of a definition.
fn put_definition(shown: &mut Shown, definition: &Definition) {
    match definition {
        Definition::Function(function) => {
            put_head(shown, &function.head);
            put_rules(shown, function.rules.as_slice());
        }
        Definition::Job(job) => put_job(shown, job),
        Definition::Chain(chain) => {
            put_head(shown, &chain.head);
            for instr in chain.outline.instrs.as_slice() {
                put_instr(shown, instr);
            }
        }
    }
}

/// The library of a file, or why it has none. The clauses of `parse` stay behind this call.
pub fn library_of(alloc: Global, file: &Text) -> Result<Printed, ParseError> {
    parse(alloc, file)
}

/// Puts those of definitions.
fn put_definitions(shown: &mut Shown, definitions: &[Definition]) {
    for definition in definitions {
        put_definition(shown, definition);
    }
}

/// Puts the offsets of a file's library, or why it has none.
pub fn put_offsets(alloc: Global, shown: &mut Shown, file: &Text) {
    match library_of(alloc, file) {
        Ok(library) => put_definitions(shown, library.library().as_slice()),
        Err(error) => shown.put_item(&error),
    }
}

/// The printed text of a file's library.
fn printed(alloc: Global, file: &Text) -> Option<Text> {
    match library_of(alloc, file) {
        Ok(library) => library.text(alloc).ok(),
        Err(_) => None,
    }
}

/// Puts the printed text of a file, and whether it prints otherwise.
pub fn put_printed(alloc: Global, shown: &mut Shown, file: &Text) {
    let Some(once) = printed(alloc, file) else {
        shown.put("no file");
        return;
    };
    shown.put(once.as_str());
    match printed(alloc, &once) {
        Some(again) if again.as_str() == once.as_str() => {}
        _ => shown.put(" prints otherwise"),
    }
}
