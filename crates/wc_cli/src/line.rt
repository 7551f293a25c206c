//! The command line, as `clap` is set up to read it.

ghost use Rattle.std.specs.Prelude.{◌≡◌, ◌≢◌, [], false, fold, map, IfOk, MatchOption};
ghost use Rattle.clap.specs.Words.{app_of, rule_of, kind_of, fault_of, subcommand_of, subcommand_rows_of};
ghost use Rattle.clap.specs.declared.builder.command.Command.TheViews.{out-Command};
ghost use Rattle.wc_cli.specs.Table.{choice_of, entry_of, name_of};
ghost use Rattle.wc_cli.specs.Line.{option, operands, plain_app, base_app, with_option, command_app, with_command, line_app};

use crate::table::{Choice, Entry, commands, name_of};
use clap::error::ErrorKind;
use clap::{Arg, ArgAction, ArgMatches, Command, Error};
use std::alloc::{AllocError, Global};

/// What the operands are called.
pub const OPERAND: &str = "operand";

/// An option that stands at most once, and has a value.
fn option_named<'a>(alloc: Global, name: &'a str) -> Arg<'a>
    ensures rule { rule_of result ≡ option name.entry.now }
    ensures local { result.global ≡ false }
{
    Arg::new(alloc, name).long(name).action(ArgAction::Set)
}

/// Any number of operands.
fn operands<'a>(alloc: Global) -> Arg<'a>
    ensures rule { rule_of result ≡ operands }
    ensures local { result.global ≡ false }
{
    Arg::new(alloc, "operand").action(ArgAction::Append)
}

/// The command with one option more.
fn with_option<'a>(
    alloc: Global,
    command: Command<'a>,
    name: &'a str,
) -> Result<Command<'a>, AllocError>
    requires { (out-Command command).has_globals ≡ false }
    ensures shape { IfOk result (λ c. app_of c ≡ with_option (app_of command.entry) name.entry.now) }
    ensures local { IfOk result (λ c. (out-Command c).has_globals ≡ false) }
{
    let option = option_named(alloc, name);
    let added = command.arg(option)?;
    Ok(added)
}

/// A command with operands, and no option.
fn plain<'a>(alloc: Global, name: &'a str) -> Result<Command<'a>, AllocError>
    ensures shape { IfOk result (λ c. app_of c ≡ plain_app name.entry.now) }
    ensures local { IfOk result (λ c. (out-Command c).has_globals ≡ false) }
{
    let command = Command::new(alloc, name);
    let operands = operands(alloc);
    let added = command.arg(operands)?;
    Ok(added)
}

/// The command with these options more.
fn with_options<'a>(
    alloc: Global,
    command: Command<'a>,
    options: &[Choice],
) -> Result<Command<'a>, AllocError>
    requires { (out-Command command).has_globals ≡ false }
    ensures shape { IfOk result (λ c. app_of c ≡ fold with_option (app_of command.entry) (map name_of (map choice_of options.now))) }
    ensures local { IfOk result (λ c. (out-Command c).has_globals ≡ false) }
{
    let mut command = command;
    for choice in options {
        command = with_option(alloc, command, name_of(*choice))?;
    }
    Ok(command)
}

/// The command of an entry of the table, with its options.
fn command_of<'a>(alloc: Global, entry: &Entry) -> Result<Command<'a>, AllocError>
    ensures shape { IfOk result (λ c. app_of c ≡ command_app (entry_of entry.now)) }
    ensures local { IfOk result (λ c. (out-Command c).has_globals ≡ false) }
{
    let command = plain(alloc, entry.word)?;
    with_options(alloc, command, entry.options)
}

/// The command line before it has a command. There is no help.
fn base<'a>(alloc: Global) -> Command<'a>
    ensures { app_of result ≡ base_app }
{
    Command::new(alloc, "wc")
        .no_binary_name(true)
        .disable_help_flag(true)
        .disable_help_subcommand(true)
        .disable_version_flag(true)
        .subcommand_required(true)
}

/// The command line with one command more.
fn with_command<'a>(
    alloc: Global,
    line: Command<'a>,
    entry: &Entry,
) -> Result<Command<'a>, AllocError>
    ensures { IfOk result (λ c. app_of c ≡ with_command (app_of line.entry) (entry_of entry.now)) }
{
    let command = command_of(alloc, entry)?;
    line.subcommand(command)
}

/// The command line with these commands more.
fn with_commands<'a>(
    alloc: Global,
    line: Command<'a>,
    entries: &[Entry],
) -> Result<Command<'a>, AllocError>
    ensures { IfOk result (λ c. app_of c ≡ fold with_command (app_of line.entry) (map entry_of entries.now)) }
{
    let mut line = line;
    for entry in entries {
        line = with_command(alloc, line, entry)?;
    }
    Ok(line)
}

/// The whole command line.
fn whole<'a>(alloc: Global) -> Result<Command<'a>, AllocError>
    ensures { IfOk result (λ c. app_of c ≡ line_app) }
{
    with_commands(alloc, base(alloc), commands())
}

/// Whether memory ran out.
fn is_memory(error: &Error) -> bool
    ensures { result ≡ false → kind_of error.now ≢ ErrorKind.OutOfMemory }
{
    matches!(error.kind(), ErrorKind::OutOfMemory)
}

/// What `clap` reads of the words, or none where it refuses them.
pub fn matches_of<'a>(
    alloc: Global,
    words: &'a [&'a str],
) -> Result<Option<ArgMatches<'a>>, AllocError>
    ensures { IfOk result (λ read. MatchOption read (fault_of line_app (map (λ w. w.now) words.entry.now) ≢ [])
        (λ m. (fault_of line_app (map (λ w. w.now) words.entry.now) ≡ [])
        × (subcommand_rows_of m ≡ subcommand_of line_app (map (λ w. w.now) words.entry.now)))) }
{
    let line = whole(alloc)?;
    match line.try_get_matches_from(words) {
        Ok(matches) => Ok(Some(matches)),
        Err(error) => {
            if is_memory(&error) {
                Err(AllocError)
            } else {
                Ok(None)
            }
        }
    }
}
