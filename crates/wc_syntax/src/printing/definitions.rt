//! The printed text of definitions.

ghost use Rattle.std.specs.Prelude.{◌≡◌, [], ◌++◌, OnOk, string_bytes, codes, map, flat_map};
ghost use Rattle.wc_syntax.specs.Printing.{items, in_brackets, line, inside, deeper, kind_text, port_text, ports_text, signature_text, head_text, code_text, code_lines, rule_text, rule_lines, file_text, arg_lines, file_lines, fetch_lines, job_lines, start_lines, closed, definition_lines, printed_definition, expr_text, quoted_text};

use crate::definition::{
    Chain, Definition, ExitCode, Fetch, Function, Head, Job, JobFile, JobLine, Port, PortList,
    Rule, RuleList,
};
use crate::expression::Expr;
use crate::printing::expressions::{put_expr, put_number, put_quoted, put_separator};
use crate::printing::lines::{put_exit, put_set, put_setting};
use crate::printing::outlines::{put_block, put_closing};
use std::alloc::{AllocError, Global};
use wc_lexer::Kind;

/// The spaces before a line in the braces of a definition.
const INSIDE: &str = "  ";

/// The spaces before a line in the braces of a job's `parse`.
const DEEPER: &str = "    ";

fn kind_name(kind: Kind) -> &'static str
    ensures { result.now ≡ kind_text kind }
{
    match kind {
        Kind::Int => "int",
        Kind::Bool => "bool",
        Kind::Text => "text",
        Kind::List => "list",
        Kind::Dict => "dict",
        Kind::Folder => "folder",
    }
}

/// Writes a port.
fn put_port(out: &mut String, port: &Port) -> Result<(), AllocError>
    ensures { OnOk result (string_bytes out.new ≡ string_bytes out.old ++ port_text port.now) }
{
    out.push_str(port.name.text.as_str())?;
    out.push_str(if port.optional { "?" } else { "" })?;
    out.push_str(": ")?;
    out.push_str(kind_name(port.kind))
}

/// Writes a list of ports in brackets.
fn put_ports(out: &mut String, ports: &PortList) -> Result<(), AllocError>
    ensures { OnOk result (string_bytes out.new ≡ string_bytes out.old ++ ports_text ports.now) }
{
    out.push_str("(")?;
    let mut first = true;
    for port in ports.as_slice() {
        put_separator(out, first)?;
        put_port(out, port)?;
        first = false;
    }
    out.push_str(")")
}

/// Writes the ports of a head.
fn put_signature(out: &mut String, head: &Head) -> Result<(), AllocError>
    ensures { OnOk result (string_bytes out.new ≡ string_bytes out.old ++ signature_text head.now) }
{
    put_ports(out, &head.inputs)?;
    out.push_str(" -> ")?;
    put_ports(out, &head.outputs)
}

/// Writes a head, whose word has the space behind it.
fn put_head(out: &mut String, word: &str, head: &Head) -> Result<(), AllocError>
    ensures { OnOk result (string_bytes out.new ≡ string_bytes out.old ++ head_text word.now head.now) }
{
    out.push_str(word)?;
    out.push_str(head.name.text.as_str())?;
    put_signature(out, head)?;
    out.push_str(" {")
}

/// Writes an exit code.
fn put_code(alloc: Global, out: &mut String, code: &ExitCode) -> Result<(), AllocError>
    ensures { OnOk result (string_bytes out.new ≡ string_bytes out.old ++ code_text code.now) }
{
    out.push_str("exit_code ")?;
    put_number(alloc, out, &code.status)?;
    out.push_str(" ")?;
    put_quoted(out, &code.message)?;
    out.push_str(if code.invalidates { " invalidates" } else { "" })?;
    out.push_str(";")
}

/// Writes the line of an exit code.
fn put_code_line(alloc: Global, out: &mut String, code: &ExitCode) -> Result<(), AllocError>
    ensures { OnOk result (string_bytes out.new ≡ string_bytes out.old ++ line inside (code_text code.now)) }
{
    out.push_str(INSIDE)?;
    put_code(alloc, out, code)?;
    out.push_str("\n")
}

/// Writes the lines of the exit codes.
fn put_codes(alloc: Global, out: &mut String, declared: &[ExitCode]) -> Result<(), AllocError>
    ensures { OnOk result (string_bytes out.new ≡ string_bytes out.old ++ code_lines declared.now) }
{
    for code in declared {
        put_code_line(alloc, out, code)?;
    }
    Ok(())
}

/// Writes a rule.
fn put_rule(alloc: Global, out: &mut String, rule: &Rule) -> Result<(), AllocError>
    ensures { OnOk result (string_bytes out.new ≡ string_bytes out.old ++ rule_text rule.now) }
{
    match rule {
        Rule::Let(_, name, expr) => put_setting(alloc, out, "let ", name, expr),
        Rule::Out(_, name, expr) => put_setting(alloc, out, "out ", name, expr),
        Rule::Exit(exit) => put_exit(alloc, out, exit),
    }
}

/// Writes the line of a rule.
fn put_rule_line(
    alloc: Global,
    out: &mut String,
    margin: &str,
    rule: &Rule,
) -> Result<(), AllocError>
    ensures { OnOk result (string_bytes out.new ≡ string_bytes out.old ++ line margin.now (rule_text rule.now)) }
{
    out.push_str(margin)?;
    put_rule(alloc, out, rule)?;
    out.push_str("\n")
}

/// Writes the lines of rules.
fn put_rules(
    alloc: Global,
    out: &mut String,
    margin: &str,
    rules: &RuleList,
) -> Result<(), AllocError>
    ensures { OnOk result (string_bytes out.new ≡ string_bytes out.old ++ rule_lines margin.now rules.now) }
{
    for rule in rules.as_slice() {
        put_rule_line(alloc, out, margin, rule)?;
    }
    Ok(())
}

/// Writes a line of a job that has a word, with the space behind it, and an expression.
fn put_line(alloc: Global, out: &mut String, word: &str, expr: &Expr) -> Result<(), AllocError>
    ensures { OnOk result (string_bytes out.new ≡ string_bytes out.old ++ line inside (word.now ++ expr_text expr.now ++ codes ";")) }
{
    out.push_str(INSIDE)?;
    out.push_str(word)?;
    put_expr(alloc, out, expr)?;
    out.push_str(";\n")
}

/// Writes the `arg` lines of a job.
fn put_arguments(alloc: Global, out: &mut String, lines: &[JobLine]) -> Result<(), AllocError>
    ensures { OnOk result (string_bytes out.new ≡ string_bytes out.old ++ arg_lines lines.now) }
{
    for line in lines {
        put_line(alloc, out, "arg ", &line.value)?;
    }
    Ok(())
}

/// Writes a `file` line of a job.
fn put_file(alloc: Global, out: &mut String, file: &JobFile) -> Result<(), AllocError>
    ensures { OnOk result (string_bytes out.new ≡ string_bytes out.old ++ line inside (file_text file.now)) }
{
    out.push_str(INSIDE)?;
    out.push_str("file ")?;
    put_quoted(out, &file.name)?;
    put_set(alloc, out, &file.value)?;
    out.push_str("\n")
}

/// Writes the `file` lines of a job.
fn put_files(alloc: Global, out: &mut String, files: &[JobFile]) -> Result<(), AllocError>
    ensures { OnOk result (string_bytes out.new ≡ string_bytes out.old ++ file_lines files.now) }
{
    for file in files {
        put_file(alloc, out, file)?;
    }
    Ok(())
}

/// Writes a `fetch` line of a job.
fn put_fetch(out: &mut String, fetch: &Fetch) -> Result<(), AllocError>
    ensures { OnOk result (string_bytes out.new ≡ string_bytes out.old ++ line inside (codes "fetch " ++ quoted_text fetch.now.name ++ codes ";")) }
{
    out.push_str(INSIDE)?;
    out.push_str("fetch ")?;
    put_quoted(out, &fetch.name)?;
    out.push_str(";\n")
}

/// Writes the `fetch` lines of a job.
fn put_fetches(out: &mut String, fetches: &[Fetch]) -> Result<(), AllocError>
    ensures { OnOk result (string_bytes out.new ≡ string_bytes out.old ++ fetch_lines fetches.now) }
{
    for fetch in fetches {
        put_fetch(out, fetch)?;
    }
    Ok(())
}

/// Writes the lines of a job behind its exit codes.
fn put_job_lines(alloc: Global, out: &mut String, job: &Job) -> Result<(), AllocError>
    ensures { OnOk result (string_bytes out.new ≡ string_bytes out.old ++ job_lines job.now) }
{
    put_line(alloc, out, "program ", &job.program.value)?;
    put_arguments(alloc, out, job.args.as_slice())?;
    put_files(alloc, out, job.files.as_slice())?;
    put_fetches(out, job.fetch.as_slice())?;
    out.push_str("  parse {\n")?;
    put_rules(alloc, out, DEEPER, &job.parse)?;
    put_closing(out, INSIDE)
}

/// Writes a head and the lines of its exit codes.
#[tactic(auto, unfolding(crate::specs::Printing::start_lines))]
fn put_start(alloc: Global, out: &mut String, word: &str, head: &Head) -> Result<(), AllocError>
    ensures { OnOk result (string_bytes out.new ≡ string_bytes out.old ++ start_lines word.now head.now) }
{
    put_head(out, word, head)?;
    out.push_str("\n")?;
    put_codes(alloc, out, head.codes.as_slice())
}

/// Writes the rules of a function, and its closing brace.
fn put_function_rules(alloc: Global, out: &mut String, rules: &RuleList) -> Result<(), AllocError>
    ensures { OnOk result (string_bytes out.new ≡ string_bytes out.old ++ closed (rule_lines inside rules.now)) }
{
    put_rules(alloc, out, INSIDE, rules)?;
    put_closing(out, "")
}

/// Writes a function.
fn put_function(alloc: Global, out: &mut String, function: &Function) -> Result<(), AllocError>
    ensures { OnOk result (string_bytes out.new ≡ string_bytes out.old ++ printed_definition (Definition.Function function.now)) }
{
    put_start(alloc, out, "calcfunction ", &function.head)?;
    put_function_rules(alloc, out, &function.rules)
}

/// Writes a job.
fn put_job(alloc: Global, out: &mut String, job: &Job) -> Result<(), AllocError>
    ensures { OnOk result (string_bytes out.new ≡ string_bytes out.old ++ printed_definition (Definition.Job job.now)) }
{
    put_start(alloc, out, "calcjob ", &job.head)?;
    put_job_lines(alloc, out, job)?;
    put_closing(out, "")
}

/// Writes a work chain.
fn put_chain(alloc: Global, out: &mut String, chain: &Chain) -> Result<(), AllocError>
    ensures { OnOk result (string_bytes out.new ≡ string_bytes out.old ++ printed_definition (Definition.Chain chain.now)) }
{
    put_start(alloc, out, "workchain ", &chain.head)?;
    put_block(alloc, out, INSIDE, &chain.outline)?;
    put_closing(out, "")
}

/// Writes a definition.
pub fn put_definition(
    alloc: Global,
    out: &mut String,
    definition: &Definition,
) -> Result<(), AllocError>
    ensures { OnOk result (string_bytes out.new ≡ string_bytes out.old ++ printed_definition definition.now) }
{
    match definition {
        Definition::Function(function) => put_function(alloc, out, function),
        Definition::Job(job) => put_job(alloc, out, job),
        Definition::Chain(chain) => put_chain(alloc, out, chain),
    }
}
