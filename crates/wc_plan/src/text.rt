//! The lines that the program writes of itself.

ghost use Rattle.std.specs.Prelude.{◌≡◌, ◌∷◌, ◌++◌, [], IfOk, codes, string_bytes};
ghost use Rattle.std.specs.Fmt.{decimal};
ghost use Rattle.wc_plan.specs.Texts.{at_place, at_name, lex_text, parse_text, check_text, at_path, json_text, config_text, query_text, restart_text, ended_text, cause_text, refusal_text};

use crate::status::Cause;
use std::alloc::{AllocError, Global};
use wc_check::CheckError;
use wc_config::ConfigError;
use wc_expansion::RestartError;
use wc_json::JsonError;
use wc_lexer::LexError;
use wc_parser::ParseError;
use wc_query::QueryError;
use wc_report::state_text;
use wc_value::{ProcessState, Text};

/// A text, and a place behind it.
fn placed(alloc: Global, text: &str, at: u32) -> Result<String, AllocError>
    ensures { IfOk result (λ line. string_bytes line ≡ at_place text.now at) }
{
    let place = format!(in alloc; "{at}")?;
    let mut line = String::from_str(alloc, text)?;
    line.push_str(" at ")?;
    line.push_str(place.as_str())?;
    Ok(line)
}

/// A text, a name, and a place behind them.
fn named(alloc: Global, text: &str, name: &Text, at: u32) -> Result<String, AllocError>
    ensures { IfOk result (λ line. string_bytes line ≡ at_name text.now name.now at) }
{
    let mut line = String::from_str(alloc, text)?;
    line.push_str(" ")?;
    line.push_str(name.as_str())?;
    placed(alloc, line.as_str(), at)
}

/// What a refusal of the tokens is called.
fn lex_name(alloc: Global, error: LexError) -> Result<String, AllocError>
    ensures { IfOk result (λ line. string_bytes line ≡ lex_text error) }
{
    match error {
        LexError::OutOfMemory => String::from_str(alloc, "out of memory"),
        LexError::BadChar(at) => placed(alloc, "bad character", at),
        LexError::OpenText(at) => placed(alloc, "open text", at),
        LexError::WideNumber(at) => placed(alloc, "wide number", at),
    }
}

/// What a refusal of the parser is called.
fn parse_name(alloc: Global, error: ParseError) -> Result<String, AllocError>
    ensures { IfOk result (λ line. string_bytes line ≡ parse_text error) }
{
    match error {
        ParseError::OutOfMemory => String::from_str(alloc, "out of memory"),
        ParseError::TooLong => String::from_str(alloc, "too long"),
        ParseError::Lex(error) => lex_name(alloc, error),
        ParseError::TooDeep(at) => placed(alloc, "too deep", at),
        ParseError::Unexpected(at) => placed(alloc, "unexpected", at),
        ParseError::EndOfText => String::from_str(alloc, "end of text"),
    }
}

/// What a refusal of the checker is called.
fn check_name(alloc: Global, error: &CheckError) -> Result<String, AllocError>
    ensures { IfOk result (λ line. string_bytes line ≡ check_text error.now) }
{
    match error {
        CheckError::Twice(name, at) => named(alloc, "twice", name, *at),
        CheckError::Unknown(name, at) => named(alloc, "unknown", name, *at),
        CheckError::PortMissing(name, at) => named(alloc, "port missing", name, *at),
        CheckError::PortUnknown(name, at) => named(alloc, "port unknown", name, *at),
        CheckError::NotData(at) => placed(alloc, "not data", *at),
        CheckError::BadStatus(at) => placed(alloc, "bad status", *at),
        CheckError::TooMany(at) => placed(alloc, "too many", *at),
        CheckError::BadName(name, at) => named(alloc, "bad name", name, *at),
        CheckError::OutOfMemory => String::from_str(alloc, "out of memory"),
    }
}

/// A text, what is wrong, and the path.
fn at_path(alloc: Global, text: &str, wrong: &str, path: &Text) -> Result<String, AllocError>
    ensures { IfOk result (λ line. string_bytes line ≡ at_path text.now wrong.now path.now) }
{
    let mut line = String::from_str(alloc, text)?;
    line.push_str(" ")?;
    line.push_str(wrong)?;
    line.push_str(" at ")?;
    line.push_str(path.as_str())?;
    Ok(line)
}

/// What a refusal of a file of JSON is called.
fn json_name(alloc: Global, file: &str, error: &JsonError) -> Result<String, AllocError>
    ensures { IfOk result (λ line. string_bytes line ≡ json_text file.now error.now) }
{
    match error {
        JsonError::NotJson => format!(in alloc; "{file} not json"),
        JsonError::Float(path) => at_path(alloc, file, "float", path),
        JsonError::OutOfRange(path) => at_path(alloc, file, "out of range", path),
        JsonError::Shape(path) => at_path(alloc, file, "shape", path),
        JsonError::OutOfMemory => String::from_str(alloc, "out of memory"),
    }
}

/// A process that has ended in this state.
fn ended(alloc: Global, pid: u32, state: ProcessState) -> Result<String, AllocError>
    ensures { IfOk result (λ line. string_bytes line ≡ ended_text pid state) }
{
    let number = format!(in alloc; "{pid}")?;
    let state = state_text(alloc, state)?;
    let mut line = String::from_str(alloc, "ended ")?;
    line.push_str(number.as_str())?;
    line.push_str(" ")?;
    line.push_str(state.as_str())?;
    Ok(line)
}

/// What a refusal of a settings file is called.
fn config_name(alloc: Global, error: &ConfigError) -> Result<String, AllocError>
    ensures { IfOk result (λ text. string_bytes text ≡ config_text error.now) }
{
    match error {
        ConfigError::NotToml => String::from_str(alloc, "not toml"),
        ConfigError::UnknownKey(key) => format!(in alloc; "unknown key {}", key.as_str()),
        ConfigError::BadValue(key) => format!(in alloc; "bad value {}", key.as_str()),
        ConfigError::OutOfMemory => String::from_str(alloc, "out of memory"),
    }
}

/// The text of a refusal of a settings file.
fn settings_name(alloc: Global, error: &ConfigError) -> Result<String, AllocError>
    ensures { IfOk result (λ text. string_bytes text ≡ codes "settings " ++ config_text error.now) }
{
    let name = config_name(alloc, error)?;
    format!(in alloc; "settings {}", name.as_str())
}

/// What a refusal of the words of a query is called.
fn query_name(alloc: Global, error: &QueryError) -> Result<String, AllocError>
    ensures { IfOk result (λ text. string_bytes text ≡ query_text error.now) }
{
    match error {
        QueryError::Shape => String::from_str(alloc, "query shape"),
        QueryError::TooLong => String::from_str(alloc, "query too long"),
        QueryError::BadWord(at) => format!(in alloc; "query word {at}"),
        QueryError::OutOfMemory => String::from_str(alloc, "out of memory"),
    }
}

/// What a refusal of a restart chain is called.
fn restart_name(alloc: Global, error: &RestartError) -> Result<String, AllocError>
    ensures { IfOk result (λ text. string_bytes text ≡ restart_text error.now) }
{
    match error {
        RestartError::NotToml => String::from_str(alloc, "not toml"),
        RestartError::UnknownKey(key) => format!(in alloc; "unknown key {}", key.as_str()),
        RestartError::BadValue(key) => format!(in alloc; "bad value {}", key.as_str()),
        RestartError::UnknownName(name) => format!(in alloc; "unknown name {}", name.as_str()),
        RestartError::NameTaken(name) => format!(in alloc; "name taken {}", name.as_str()),
        RestartError::BadPorts(name) => format!(in alloc; "bad ports {}", name.as_str()),
        RestartError::SamePriority(priority) => format!(in alloc; "same priority {priority}"),
        RestartError::TooMany => String::from_str(alloc, "too many"),
        RestartError::OutOfMemory => String::from_str(alloc, "out of memory"),
    }
}

/// The text of a refusal of a restart chain.
fn chain_name(alloc: Global, error: &RestartError) -> Result<String, AllocError>
    ensures { IfOk result (λ text. string_bytes text ≡ codes "restart " ++ restart_text error.now) }
{
    let name = restart_name(alloc, error)?;
    format!(in alloc; "restart {}", name.as_str())
}

/// What a cause is called.
fn cause_name(alloc: Global, cause: &Cause) -> Result<String, AllocError>
    ensures { IfOk result (λ text. string_bytes text ≡ cause_text cause.now) }
{
    match cause {
        Cause::Words => String::from_str(alloc, "words"),
        Cause::NoFile(file) => format!(in alloc; "no file {}", file.as_str()),
        Cause::NotUtf8(file) => format!(in alloc; "not utf-8 {}", file.as_str()),
        Cause::Parse(error) => parse_name(alloc, *error),
        Cause::Check(error) => check_name(alloc, error),
        Cause::Settings(error) => settings_name(alloc, error),
        Cause::Name(name) => format!(in alloc; "unknown name {}", name.as_str()),
        Cause::Inputs(error) => json_name(alloc, "inputs", error),
        Cause::Table(error) => json_name(alloc, "table", error),
        Cause::BadInput(port) => format!(in alloc; "bad input {}", port.as_str()),
        Cause::NoAnswer(request) => format!(in alloc; "no answer {}", request.program.as_str()),
        Cause::Fuel => String::from_str(alloc, "fuel"),
        Cause::Query(error) => query_name(alloc, error),
        Cause::Restart(error) => chain_name(alloc, error),
        Cause::NoStore => String::from_str(alloc, "no store"),
        Cause::StoreExists => String::from_str(alloc, "store exists"),
        Cause::UnknownProcess(pid) => format!(in alloc; "unknown process {pid}"),
        Cause::UnknownNode(node) => format!(in alloc; "unknown node {node}"),
        Cause::Ended(pid, state) => ended(alloc, *pid, *state),
    }
}

/// The line of a refusal.
pub fn refusal_line(alloc: Global, cause: &Cause) -> Result<Text, AllocError>
    ensures { IfOk result (λ text. text ≡ refusal_text cause.now) }
{
    let name = cause_name(alloc, cause)?;
    Text::of_string(format!(in alloc; "refused: {}\n", name.as_str())?)
}

/// The line that says how many definitions a library has.
pub fn definitions_line(alloc: Global, count: usize) -> Result<Text, AllocError>
    ensures { IfOk result (λ text. text ≡ codes "definitions " ++ decimal count ++ 10 ∷ []) }
{
    Text::of_string(format!(in alloc; "definitions {count}\n")?)
}
