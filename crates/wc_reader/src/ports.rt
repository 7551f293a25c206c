//! Ports and exit codes.

ghost use Rattle.std.specs.Prelude.{◌≡◌, ◌∷◌, ◌++◌, []};
ghost use Rattle.wc_grammar.specs.Kinds.{K_NAME, S_COMMA, W_EXIT_CODE};
ghost use Rattle.wc_grammar.specs.Rules.{turns, as_at, many_at, next_at, between_at};
ghost use Rattle.wc_grammar.specs.Reading.{Gives};
ghost use Rattle.wc_reader.specs.Reading.{port_at, ports_at, code_at};

use std::alloc::Global;
use wc_grammar::kinds::{
    K_NAME, S_CLOSE, S_COLON, S_COMMA, S_OPEN, S_QUESTION, S_SEMI, W_BOOL, W_DICT, W_EXIT_CODE,
    W_FOLDER, W_INT, W_INVALIDATES, W_LIST, W_TEXT,
};
use wc_grammar::{Fault, flag, name, number, pick, sign, starts, text};
use wc_lexer::Spot;
use wc_syntax::{ExitCode, ExitCodes, Port, PortList};
use wc_value::Kind;

/// A port with its kind, and the tokens behind it.
fn port(tokens: &[Spot]) -> Result<(Port, &[Spot]), Fault>
    ensures { Gives (λ x. (x.0, x.1.now)) result (port_at tokens.now) }
{
    let (name, rest) = name(tokens)?;
    let (optional, rest) = flag(rest, S_QUESTION)?;
    let (_, rest) = sign(rest, S_COLON)?;
    let ((kind, _), rest) = pick(
        rest,
        &[
            (W_INT, Kind::Int),
            (W_BOOL, Kind::Bool),
            (W_TEXT, Kind::Text),
            (W_LIST, Kind::List),
            (W_DICT, Kind::Dict),
            (W_FOLDER, Kind::Folder),
        ],
    )?;
    let at = name.at;
    let port = Port {
        at,
        name,
        optional,
        kind,
    };
    Ok((port, rest))
}

/// Ports between commas, perhaps none, and the tokens behind them.
fn some_ports(alloc: Global, tokens: &[Spot], bound: usize) -> Result<(PortList, &[Spot]), Fault>
    ensures { Gives (λ x. (x.0, x.1.now)) result (between_at bound S_COMMA (K_NAME ∷ []) port_at tokens.now) }
{
    let mut found = PortList::new(alloc);
    if !starts(tokens, &[K_NAME]) {
        return Ok((found, tokens));
    }
    let (port, rest) = port(tokens)?;
    found.push(port)?;
    more_ports(found, rest, bound)
}

/// The ports that were found with those behind further commas, and the tokens behind them.
#[tactic(auto, using(crate::proofs::Bounds::turns_at))]
fn more_ports(first: PortList, tokens: &[Spot], bound: usize) -> Result<(PortList, &[Spot]), Fault>
    ensures { Gives (λ x. (x.0, x.1.now)) result (turns bound (S_COMMA ∷ []) (next_at S_COMMA port_at) first tokens.now) }
{
    let mut found = first;
    let mut rest = tokens;
    for _turn in 0..bound {
        if !starts(rest, &[S_COMMA]) {
            return Ok((found, rest));
        }
        let (more, next) = next_port(found, rest)?;
        found = more;
        rest = next;
    }
    if starts(rest, &[S_COMMA]) {
        return Err(Fault::BoundReached);
    }
    Ok((found, rest))
}

/// The ports that were found with the one behind a comma, and the tokens behind it.
fn next_port(found: PortList, tokens: &[Spot]) -> Result<(PortList, &[Spot]), Fault>
    ensures { Gives (λ x. (x.0, x.1.now)) result (next_at S_COMMA port_at found tokens.now) }
{
    let (_, rest) = sign(tokens, S_COMMA)?;
    let (port, rest) = port(rest)?;
    let mut found = found;
    found.push(port)?;
    Ok((found, rest))
}

/// The ports in round brackets that come next, and the tokens after them.
pub fn ports(alloc: Global, tokens: &[Spot], bound: usize) -> Result<(PortList, &[Spot]), Fault>
    ensures { Gives (λ x. (x.0, x.1.now)) result (ports_at bound tokens.now) }
{
    let (_, rest) = sign(tokens, S_OPEN)?;
    let (ports, rest) = some_ports(alloc, rest, bound)?;
    let (_, rest) = sign(rest, S_CLOSE)?;
    Ok((ports, rest))
}

/// An exit code, and the tokens behind it.
fn code(tokens: &[Spot]) -> Result<(ExitCode, &[Spot]), Fault>
    ensures { Gives (λ x. (x.0, x.1.now)) result (code_at tokens.now) }
{
    let (at, rest) = sign(tokens, W_EXIT_CODE)?;
    let (status, rest) = number(rest)?;
    let (message, rest) = text(rest)?;
    let (invalidates, rest) = flag(rest, W_INVALIDATES)?;
    let (_, rest) = sign(rest, S_SEMI)?;
    let code = ExitCode {
        at,
        status,
        message,
        invalidates,
    };
    Ok((code, rest))
}

/// The exit codes that come next, and the tokens after them.
#[tactic(auto, using(crate::proofs::Bounds::turns_at))]
pub fn codes(alloc: Global, tokens: &[Spot], bound: usize) -> Result<(ExitCodes, &[Spot]), Fault>
    ensures { Gives (λ x. (x.0, x.1.now)) result (many_at bound (W_EXIT_CODE ∷ []) code_at tokens.now) }
{
    let mut found = ExitCodes::new(alloc);
    let mut rest = tokens;
    for _turn in 0..bound {
        if !starts(rest, &[W_EXIT_CODE]) {
            return Ok((found, rest));
        }
        let (more, next) = next_code(found, rest)?;
        found = more;
        rest = next;
    }
    if starts(rest, &[W_EXIT_CODE]) {
        return Err(Fault::BoundReached);
    }
    Ok((found, rest))
}

/// The exit codes that were found with one more, and the tokens behind it.
fn next_code(found: ExitCodes, tokens: &[Spot]) -> Result<(ExitCodes, &[Spot]), Fault>
    ensures { Gives (λ x. (x.0, x.1.now)) result (as_at code_at (λ x. found ++ x ∷ []) tokens.now) }
{
    let (code, rest) = code(tokens)?;
    let mut found = found;
    found.push(code)?;
    Ok((found, rest))
}
