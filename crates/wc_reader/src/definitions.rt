//! Functions, jobs and work chains.

ghost use Rattle.std.specs.Prelude.{◌≡◌, ◌∷◌, ◌++◌, [], IfOk};
ghost use Rattle.wc_grammar.specs.Kinds.{W_ARG, W_FILE, W_FETCH};
ghost use Rattle.wc_grammar.specs.Rules.{as_at, many_at};
ghost use Rattle.wc_grammar.specs.Reading.{Gives, expr_at};
ghost use Rattle.wc_reader.specs.Reading.{head_at, function_at, line_at, file_at, fetch_at, parse_at, job_at, chain_at, definition_at, library_at};
ghost use Rattle.wc_reader.specs.Pieces.{head_end_at, job_body_at};

use crate::outlines::instrs;
use crate::ports::{codes, ports};
use crate::rules::rules;
use std::alloc::Global;
use wc_grammar::kinds::{
    S_ARROW, S_CLOSE_BRACE, S_IS, S_OPEN_BRACE, S_SEMI, W_ARG, W_CALCFUNCTION, W_CALCJOB, W_FETCH,
    W_FILE, W_PARSE, W_PROGRAM, W_WORKCHAIN,
};
use wc_grammar::{Fault, closed, expr, name, sign, starts, text};
use wc_lexer::Spot;
use wc_syntax::{
    Block, Chain, Definition, Fetch, Fetches, Function, Head, Job, JobFile, JobFiles, JobLine,
    JobLines, Library, Name, PortList, RuleList,
};

/// The head of a definition that begins with a word, and the tokens behind it.
fn head(alloc: Global, tokens: &[Spot], word: u8, bound: usize) -> Result<(Head, &[Spot]), Fault>
    ensures { Gives (λ x. (x.0, x.1.now)) result (head_at bound word tokens.now) }
{
    let (at, rest) = sign(tokens, word)?;
    let (name, rest) = name(rest)?;
    let (inputs, rest) = ports(alloc, rest, bound)?;
    let (_, rest) = sign(rest, S_ARROW)?;
    head_end(alloc, at, name, inputs, rest, bound)
}

/// The head whose name and inputs were read: with its outputs and exit codes, and the tokens behind it.
fn head_end(
    alloc: Global,
    at: u32,
    name: Name,
    inputs: PortList,
    tokens: &[Spot],
    bound: usize,
) -> Result<(Head, &[Spot]), Fault>
    ensures { Gives (λ x. (x.0, x.1.now)) result (head_end_at bound at name inputs tokens.now) }
{
    let (outputs, rest) = ports(alloc, tokens, bound)?;
    let (_, rest) = sign(rest, S_OPEN_BRACE)?;
    let (codes, rest) = codes(alloc, rest, bound)?;
    let head = Head {
        at,
        name,
        inputs,
        outputs,
        codes,
    };
    Ok((head, rest))
}

/// A function, and the tokens behind it.
fn function(alloc: Global, tokens: &[Spot], bound: usize) -> Result<(Function, &[Spot]), Fault>
    ensures { Gives (λ x. (x.0, x.1.now)) result (function_at bound tokens.now) }
{
    let (head, rest) = head(alloc, tokens, W_CALCFUNCTION, bound)?;
    let (rules, rest) = rules(alloc, rest, bound)?;
    let (_, rest) = sign(rest, S_CLOSE_BRACE)?;
    Ok((Function { head, rules }, rest))
}

/// A job's line with a word and an expression, and the tokens behind it.
fn line(alloc: Global, tokens: &[Spot], word: u8, bound: usize) -> Result<(JobLine, &[Spot]), Fault>
    ensures { Gives (λ x. (x.0, x.1.now)) result (line_at word (expr_at bound) tokens.now) }
{
    let (at, rest) = sign(tokens, word)?;
    let (value, rest) = expr(alloc, rest, bound)?;
    let ((value, _), rest) = closed(value, rest, S_SEMI)?;
    Ok((JobLine { at, value }, rest))
}

/// The arguments of a job's program, as many as there are, and the tokens behind them.
#[tactic(auto, using(crate::proofs::Bounds::turns_at))]
fn args(alloc: Global, tokens: &[Spot], bound: usize) -> Result<(JobLines, &[Spot]), Fault>
    ensures { Gives (λ x. (x.0, x.1.now)) result (many_at bound (W_ARG ∷ []) (line_at W_ARG (expr_at bound)) tokens.now) }
{
    let mut found = JobLines::new(alloc);
    let mut rest = tokens;
    for _turn in 0..bound {
        if !starts(rest, &[W_ARG]) {
            return Ok((found, rest));
        }
        let (more, next) = next_arg(alloc, found, rest, bound)?;
        found = more;
        rest = next;
    }
    if starts(rest, &[W_ARG]) {
        return Err(Fault::BoundReached);
    }
    Ok((found, rest))
}

/// The arguments that were found with one more, and the tokens behind it.
fn next_arg(
    alloc: Global,
    found: JobLines,
    tokens: &[Spot],
    bound: usize,
) -> Result<(JobLines, &[Spot]), Fault>
    ensures { Gives (λ x. (x.0, x.1.now)) result (as_at (line_at W_ARG (expr_at bound)) (λ x. found ++ x ∷ []) tokens.now) }
{
    let (line, rest) = line(alloc, tokens, W_ARG, bound)?;
    let mut found = found;
    found.push(line)?;
    Ok((found, rest))
}

/// A file that a job writes, and the tokens behind it.
fn file(alloc: Global, tokens: &[Spot], bound: usize) -> Result<(JobFile, &[Spot]), Fault>
    ensures { Gives (λ x. (x.0, x.1.now)) result (file_at (expr_at bound) tokens.now) }
{
    let (at, rest) = sign(tokens, W_FILE)?;
    let (name, rest) = text(rest)?;
    let (_, rest) = sign(rest, S_IS)?;
    let (value, rest) = expr(alloc, rest, bound)?;
    let ((value, _), rest) = closed(value, rest, S_SEMI)?;
    Ok((JobFile { at, name, value }, rest))
}

/// The files that a job writes, as many as there are, and the tokens behind them.
#[tactic(auto, using(crate::proofs::Bounds::turns_at))]
fn files(alloc: Global, tokens: &[Spot], bound: usize) -> Result<(JobFiles, &[Spot]), Fault>
    ensures { Gives (λ x. (x.0, x.1.now)) result (many_at bound (W_FILE ∷ []) (file_at (expr_at bound)) tokens.now) }
{
    let mut found = JobFiles::new(alloc);
    let mut rest = tokens;
    for _turn in 0..bound {
        if !starts(rest, &[W_FILE]) {
            return Ok((found, rest));
        }
        let (more, next) = next_file(alloc, found, rest, bound)?;
        found = more;
        rest = next;
    }
    if starts(rest, &[W_FILE]) {
        return Err(Fault::BoundReached);
    }
    Ok((found, rest))
}

/// The written files that were found with one more, and the tokens behind it.
fn next_file(
    alloc: Global,
    found: JobFiles,
    tokens: &[Spot],
    bound: usize,
) -> Result<(JobFiles, &[Spot]), Fault>
    ensures { Gives (λ x. (x.0, x.1.now)) result (as_at (file_at (expr_at bound)) (λ x. found ++ x ∷ []) tokens.now) }
{
    let (file, rest) = file(alloc, tokens, bound)?;
    let mut found = found;
    found.push(file)?;
    Ok((found, rest))
}

/// A file that a job fetches, and the tokens behind it.
fn fetch(tokens: &[Spot]) -> Result<(Fetch, &[Spot]), Fault>
    ensures { Gives (λ x. (x.0, x.1.now)) result (fetch_at tokens.now) }
{
    let (at, rest) = sign(tokens, W_FETCH)?;
    let (name, rest) = text(rest)?;
    let (_, rest) = sign(rest, S_SEMI)?;
    Ok((Fetch { at, name }, rest))
}

/// The files that a job fetches, as many as there are, and the tokens behind them.
#[tactic(auto, using(crate::proofs::Bounds::turns_at))]
fn fetches(alloc: Global, tokens: &[Spot], bound: usize) -> Result<(Fetches, &[Spot]), Fault>
    ensures { Gives (λ x. (x.0, x.1.now)) result (many_at bound (W_FETCH ∷ []) fetch_at tokens.now) }
{
    let mut found = Fetches::new(alloc);
    let mut rest = tokens;
    for _turn in 0..bound {
        if !starts(rest, &[W_FETCH]) {
            return Ok((found, rest));
        }
        let (more, next) = next_fetch(found, rest)?;
        found = more;
        rest = next;
    }
    if starts(rest, &[W_FETCH]) {
        return Err(Fault::BoundReached);
    }
    Ok((found, rest))
}

/// The fetched files that were found with one more, and the tokens behind it.
fn next_fetch(found: Fetches, tokens: &[Spot]) -> Result<(Fetches, &[Spot]), Fault>
    ensures { Gives (λ x. (x.0, x.1.now)) result (as_at fetch_at (λ x. found ++ x ∷ []) tokens.now) }
{
    let (fetch, rest) = fetch(tokens)?;
    let mut found = found;
    found.push(fetch)?;
    Ok((found, rest))
}

/// The rules of a job's `parse`, and the tokens behind it.
fn parse_rules(alloc: Global, tokens: &[Spot], bound: usize) -> Result<(RuleList, &[Spot]), Fault>
    ensures { Gives (λ x. (x.0, x.1.now)) result (parse_at bound (expr_at bound) tokens.now) }
{
    let (_, rest) = sign(tokens, W_PARSE)?;
    let (_, rest) = sign(rest, S_OPEN_BRACE)?;
    let (rules, rest) = rules(alloc, rest, bound)?;
    let (_, rest) = sign(rest, S_CLOSE_BRACE)?;
    Ok((rules, rest))
}

// What was read before is handed through the next five unseen.
fn program_after<T: Drop>(
    alloc: Global,
    before: T,
    tokens: &[Spot],
    bound: usize,
) -> Result<((T, JobLine), &[Spot]), Fault>
    ensures before { IfOk result (λ x. x.0.0 ≡ before) }
    ensures read { Gives (λ x. (x.0.1, x.1.now)) result (line_at W_PROGRAM (expr_at bound) tokens.now) }
{
    let (read, rest) = line(alloc, tokens, W_PROGRAM, bound)?;
    Ok(((before, read), rest))
}

/// What was read before with the arguments that follow, and the tokens behind them.
fn args_after<T: Drop>(
    alloc: Global,
    before: T,
    tokens: &[Spot],
    bound: usize,
) -> Result<((T, JobLines), &[Spot]), Fault>
    ensures before { IfOk result (λ x. x.0.0 ≡ before) }
    ensures read { Gives (λ x. (x.0.1, x.1.now)) result (many_at bound (W_ARG ∷ []) (line_at W_ARG (expr_at bound)) tokens.now) }
{
    let (read, rest) = args(alloc, tokens, bound)?;
    Ok(((before, read), rest))
}

/// What was read before with the written files that follow, and the tokens behind them.
fn files_after<T: Drop>(
    alloc: Global,
    before: T,
    tokens: &[Spot],
    bound: usize,
) -> Result<((T, JobFiles), &[Spot]), Fault>
    ensures before { IfOk result (λ x. x.0.0 ≡ before) }
    ensures read { Gives (λ x. (x.0.1, x.1.now)) result (many_at bound (W_FILE ∷ []) (file_at (expr_at bound)) tokens.now) }
{
    let (read, rest) = files(alloc, tokens, bound)?;
    Ok(((before, read), rest))
}

/// What was read before with the fetched files that follow, and the tokens behind them.
fn fetches_after<T: Drop>(
    alloc: Global,
    before: T,
    tokens: &[Spot],
    bound: usize,
) -> Result<((T, Fetches), &[Spot]), Fault>
    ensures before { IfOk result (λ x. x.0.0 ≡ before) }
    ensures read { Gives (λ x. (x.0.1, x.1.now)) result (many_at bound (W_FETCH ∷ []) fetch_at tokens.now) }
{
    let (read, rest) = fetches(alloc, tokens, bound)?;
    Ok(((before, read), rest))
}

/// What was read before with the rules of `parse` that follow, and the tokens behind them.
fn parse_rules_after<T: Drop>(
    alloc: Global,
    before: T,
    tokens: &[Spot],
    bound: usize,
) -> Result<((T, RuleList), &[Spot]), Fault>
    ensures before { IfOk result (λ x. x.0.0 ≡ before) }
    ensures read { Gives (λ x. (x.0.1, x.1.now)) result (parse_at bound (expr_at bound) tokens.now) }
{
    let (read, rest) = parse_rules(alloc, tokens, bound)?;
    Ok(((before, read), rest))
}

/// A job, and the tokens behind it.
fn job(alloc: Global, tokens: &[Spot], bound: usize) -> Result<(Job, &[Spot]), Fault>
    ensures { Gives (λ x. (x.0, x.1.now)) result (job_at bound tokens.now) }
{
    let (head, rest) = head(alloc, tokens, W_CALCJOB, bound)?;
    let (start, rest) = program_after(alloc, head, rest, bound)?;
    job_body(alloc, start, rest, bound)
}

/// The job whose head and program were read, and the tokens behind it.
fn job_body(
    alloc: Global,
    start: (Head, JobLine),
    tokens: &[Spot],
    bound: usize,
) -> Result<(Job, &[Spot]), Fault>
    ensures { Gives (λ x. (x.0, x.1.now)) result (job_body_at bound start.0 start.1 tokens.now) }
{
    let ((start, args), rest) = args_after(alloc, start, tokens, bound)?;
    let ((start, files), rest) = files_after(alloc, start, rest, bound)?;
    let ((start, fetch), rest) = fetches_after(alloc, start, rest, bound)?;
    let ((start, parse), rest) = parse_rules_after(alloc, start, rest, bound)?;
    let ((start, _), rest) = closed(start, rest, S_CLOSE_BRACE)?;
    let (head, program) = start;
    let job = Job {
        head,
        program,
        args,
        files,
        fetch,
        parse,
    };
    Ok((job, rest))
}

/// A work chain, and the tokens behind it.
fn chain(alloc: Global, tokens: &[Spot], bound: usize) -> Result<(Chain, &[Spot]), Fault>
    ensures { Gives (λ x. (x.0, x.1.now)) result (chain_at bound tokens.now) }
{
    let (head, rest) = head(alloc, tokens, W_WORKCHAIN, bound)?;
    let (instrs, rest) = instrs(alloc, rest, bound)?;
    let (_, rest) = sign(rest, S_CLOSE_BRACE)?;
    let outline = Block { instrs };
    Ok((Chain { head, outline }, rest))
}

/// A definition of any kind, and the tokens behind it.
fn definition(alloc: Global, tokens: &[Spot], bound: usize) -> Result<(Definition, &[Spot]), Fault>
    ensures { Gives (λ x. (x.0, x.1.now)) result (definition_at bound tokens.now) }
{
    if starts(tokens, &[W_CALCFUNCTION]) {
        let (function, rest) = function(alloc, tokens, bound)?;
        return Ok((Definition::Function(function), rest));
    }
    if starts(tokens, &[W_CALCJOB]) {
        let (job, rest) = job(alloc, tokens, bound)?;
        return Ok((Definition::Job(job), rest));
    }
    let (chain, rest) = chain(alloc, tokens, bound)?;
    Ok((Definition::Chain(chain), rest))
}

/// The definitions that come next, and the tokens after them.
#[tactic(auto, using(crate::proofs::Bounds::turns_at))]
pub fn library(alloc: Global, tokens: &[Spot], bound: usize) -> Result<(Library, &[Spot]), Fault>
    ensures { Gives (λ x. (x.0, x.1.now)) result (library_at bound tokens.now) }
{
    let mut found = Library::new(alloc);
    let mut rest = tokens;
    for _turn in 0..bound {
        if !starts(rest, &[W_CALCFUNCTION, W_CALCJOB, W_WORKCHAIN]) {
            return Ok((found, rest));
        }
        let (more, next) = next_definition(alloc, found, rest, bound)?;
        found = more;
        rest = next;
    }
    if starts(rest, &[W_CALCFUNCTION, W_CALCJOB, W_WORKCHAIN]) {
        return Err(Fault::BoundReached);
    }
    Ok((found, rest))
}

/// The definitions that were found with one more, and the tokens behind it.
fn next_definition(
    alloc: Global,
    found: Library,
    tokens: &[Spot],
    bound: usize,
) -> Result<(Library, &[Spot]), Fault>
    ensures { Gives (λ x. (x.0, x.1.now)) result (as_at (definition_at bound) (λ x. found ++ x ∷ []) tokens.now) }
{
    let (definition, rest) = definition(alloc, tokens, bound)?;
    let mut found = found;
    found.push(definition)?;
    Ok((found, rest))
}
