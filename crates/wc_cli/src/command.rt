//! Commands.

ghost use Rattle.std.specs.Prelude.{◌≡◌, true, map, IfOk, option_map};
ghost use Rattle.std.specs.List.{list_all};
ghost use Rattle.std.specs.Str.{is_utf8};
ghost use Rattle.clap.specs.Words.{all_of, found_of, rows_of, subcommand_rows_of};
ghost use Rattle.wc_cli.specs.Line.{operand_id, operands_in, values_in, command_met};
ghost use Rattle.wc_cli.specs.Words.{cut_word, cut_all, digits_of, within, number_in, number_or, dry_of, check_of, submit_of, run_of, drill_of, query_of, expand_of, one_number, alone, lone_command, with_number, formed, named_command, command_of};

use crate::line::{OPERAND, matches_of};
use crate::table::{
    Amount, Bounds, FUEL, Form, INPUTS, LIMIT, Lone, Numbered, RESULTS, SEED, SETTINGS, SPEC,
    TURNS, form_of,
};
use clap::ArgMatches;
use std::alloc::{AllocError, Global};
use wc_value::{Duplicate, List, Text, Words};

/// A word `PORT=VALUE`, cut at its first `=`.
pub type Given = (Text, Text);

/// Words `PORT=VALUE`, in their order.
pub type Givens = List<Given>;

/// A view of a store.
#[derive(Drop)]
pub enum View {
    /// `list`: the processes.
    List,
    /// `tree PID`: the tree of a process.
    Tree {
        /// The number of the process.
        pid: u32,
    },
    /// `show N`: a node with its links.
    Show {
        /// The number of the node.
        node: u32,
    },
    /// `graph`: the nodes and the links.
    Graph,
    /// `verify`: whether the links have a cycle, and whether results are what the definitions give.
    Verify,
}

/// A command of the program.
#[derive(Drop)]
pub enum Command {
    /// `dry FILE NAME [PORT=VALUE]... [--inputs F] [--table F] [--fuel N]`: the tree that a definition has for these inputs, with no
    /// store.
    Dry {
        /// The file that holds the library.
        file: Text,
        /// The definition.
        name: Text,
        /// The inputs.
        given: Givens,
        /// The file with further inputs.
        inputs: Option<Text>,
        /// The file with the results of jobs.
        table: Option<Text>,
        /// How many turns of loops and calls the evaluation may take.
        fuel: u64,
    },
    /// `check FILE`: whether a file holds a checked library.
    Check {
        /// The file.
        file: Text,
    },
    /// `init`: a new store.
    Init,
    /// `submit FILE NAME [PORT=VALUE]... [--inputs F] [--settings F]`: a new process of a definition with these inputs.
    Submit {
        /// The file that holds the library.
        file: Text,
        /// The definition.
        name: Text,
        /// The inputs.
        given: Givens,
        /// The file with further inputs.
        inputs: Option<Text>,
        /// The file with the settings.
        settings: Option<Text>,
    },
    /// `run [--turns N] [--seed S] [--settings F]`: the work that the store's processes have left.
    Run {
        /// How many turns are taken at most.
        turns: u64,
        /// What the choices among processes are drawn from.
        seed: u64,
        /// The file with the settings.
        settings: Option<Text>,
    },
    /// A view of the store.
    View(View),
    /// `pause PID`: the mark of a process is set.
    Pause {
        /// The number of the process.
        pid: u32,
    },
    /// `play PID`: the mark of a process is taken away.
    Play {
        /// The number of the process.
        pid: u32,
    },
    /// `kill PID`: a process ends, with all live ones that it called.
    Kill {
        /// The number of the process.
        pid: u32,
    },
    /// `pack`: the store written anew in its shortest form.
    Pack,
    /// `drill SEED N`: a new store, in which generated chains run to their end.
    Drill {
        /// What the numbers of the chains are drawn from.
        seed: u32,
        /// How many chains.
        count: u32,
    },
    /// `query NODE [LINK NODE]... [--limit N]`: the rows of nodes that match.
    Query {
        /// The words of the query.
        words: Words,
        /// How many rows are listed at most.
        limit: u32,
    },
    /// `expand FILE --spec F`: the text of a library with one more work chain, which runs a job until it succeeds, with no store.
    Expand {
        /// The file that holds the library.
        file: Text,
        /// The file that says what the chain is made of.
        spec: Text,
    },
}

/// A text cut at its first `=`, if it has one.
fn cut(alloc: Global, text: &str) -> Result<Option<Given>, AllocError>
    ensures { IfOk result (λ g. g ≡ cut_word text.now) }
{
    match text.split_once('=') {
        Some((port, value)) => Ok(Some((Text::of_str(alloc, port)?, Text::of_str(alloc, value)?))),
        None => Ok(None),
    }
}

/// All words cut at their first `=`, if each has one.
fn cut_words(alloc: Global, words: &[Text]) -> Result<Option<Givens>, AllocError>
    ensures { IfOk result (λ gs. gs ≡ cut_all words.now) }
{
    let mut givens = Givens::new(alloc);
    for word in words {
        match cut(alloc, word.as_str())? {
            Some(given) => givens.push(given)?,
            None => return Ok(None),
        }
    }
    Ok(Some(givens))
}

/// The number that a text writes in decimal digits, if it writes one of 64 bits.
fn number(text: &str) -> Option<u64>
    ensures { result ≡ within 0 18446744073709551615 (digits_of text.now) }
{
    let bytes = text.as_bytes();
    if bytes.is_empty() || bytes[0] == b'+' {
        return None;
    }
    text.parse::<u64>().ok()
}

/// The number that a text writes in decimal digits, if it is one within bounds.
fn number_in(bounds: Bounds, text: &str) -> Option<u32>
    ensures { result ≡ number_in bounds text.now }
{
    match number(text) {
        Some(number) if bounds.least as u64 <= number && number <= bounds.most as u64 => {
            Some(number as u32)
        }
        _ => None,
    }
}

/// The number that an option writes; the usual one where the option isn't there.
fn number_or(bounds: Bounds, usual: u32, value: Option<&str>) -> Option<u32>
    ensures { result ≡ number_or bounds usual (option_map (λ text. text.now) value.entry) }
{
    match value {
        Some(text) => number_in(bounds, text),
        None => Some(usual),
    }
}

/// What stands for the option with this name.
fn value<'a>(matches: &ArgMatches<'a>, name: &str) -> Option<&'a str>
    ensures { option_map (λ text. text.now) result ≡ values_in (rows_of (found_of matches.now)) name.now }
{
    matches.get_str(name)
}

/// The number that stands for an option, if it is one that the option takes.
fn amount_of(amount: Amount, matches: &ArgMatches) -> Option<u32>
    ensures { result ≡ number_or amount.bounds amount.usual (values_in (rows_of (found_of matches.now)) amount.name.now) }
{
    number_or(amount.bounds, amount.usual, value(matches, amount.name))
}

/// A copy of what stands for the option with this name.
fn value_of(alloc: Global, matches: &ArgMatches, name: &str) -> Result<Option<Text>, AllocError>
    ensures { IfOk result (λ text. text ≡ values_in (rows_of (found_of matches.now)) name.now) }
{
    match value(matches, name) {
        Some(text) => Ok(Some(Text::of_str(alloc, text)?)),
        None => Ok(None),
    }
}

/// The operands, where there are any.
fn operands<'m, 'a>(matches: &'m ArgMatches<'a>) -> Option<&'m [&'a str]>
    ensures { option_map (λ texts. map (λ text. text.now) texts.now) result ≡ all_of operand_id (rows_of (found_of matches.now)) }
{
    matches.get_raw(OPERAND)
}

/// These texts, copied.
fn copies(alloc: Global, texts: &[&str]) -> Result<Words, AllocError>
    ensures { IfOk result (λ words. words ≡ map (λ text. text.now) texts.now) }
{
    let mut words = Words::new(alloc);
    for text in texts {
        words.push(Text::of_str(alloc, *text)?)?;
    }
    Ok(words)
}

/// The operands, copied.
fn operands_of(alloc: Global, matches: &ArgMatches) -> Result<Words, AllocError>
    ensures { IfOk result (λ words. words ≡ operands_in (rows_of (found_of matches.now))) }
{
    match operands(matches) {
        Some(texts) => copies(alloc, texts),
        None => Ok(Words::new(alloc)),
    }
}

/// The command `dry` with these operands and options.
fn dry_command(
    alloc: Global,
    operands: &[Text],
    matches: &ArgMatches,
) -> Result<Option<Command>, AllocError>
    ensures { IfOk result (λ c. c ≡ dry_of operands.now (values_in (rows_of (found_of matches.now)))) }
{
    let [file, name, given @ ..] = operands else {
        return Ok(None);
    };
    let fuel = amount_of(FUEL, matches);
    match (fuel, cut_words(alloc, given)?) {
        (Some(fuel), Some(given)) => Ok(Some(Command::Dry {
            file: file.copy()?,
            name: name.copy()?,
            given,
            inputs: value_of(alloc, matches, INPUTS)?,
            table: value_of(alloc, matches, RESULTS)?,
            fuel: fuel as u64,
        })),
        _ => Ok(None),
    }
}

/// The command `check` with these operands.
fn check_command(operands: &[Text]) -> Result<Option<Command>, AllocError>
    ensures { IfOk result (λ c. c ≡ check_of operands.now) }
{
    match operands {
        [file] => Ok(Some(Command::Check { file: file.copy()? })),
        _ => Ok(None),
    }
}

/// The command `submit` with these operands and options.
fn submit_command(
    alloc: Global,
    operands: &[Text],
    matches: &ArgMatches,
) -> Result<Option<Command>, AllocError>
    ensures { IfOk result (λ c. c ≡ submit_of operands.now (values_in (rows_of (found_of matches.now)))) }
{
    let [file, name, given @ ..] = operands else {
        return Ok(None);
    };
    match cut_words(alloc, given)? {
        Some(given) => Ok(Some(Command::Submit {
            file: file.copy()?,
            name: name.copy()?,
            given,
            inputs: value_of(alloc, matches, INPUTS)?,
            settings: value_of(alloc, matches, SETTINGS)?,
        })),
        None => Ok(None),
    }
}

/// The command `run` with these operands and options.
fn run_command(
    alloc: Global,
    operands: &[Text],
    matches: &ArgMatches,
) -> Result<Option<Command>, AllocError>
    ensures { IfOk result (λ c. c ≡ run_of operands.now (values_in (rows_of (found_of matches.now)))) }
{
    if !operands.is_empty() {
        return Ok(None);
    }
    let turns = amount_of(TURNS, matches);
    let seed = amount_of(SEED, matches);
    match (turns, seed) {
        (Some(turns), Some(seed)) => Ok(Some(Command::Run {
            turns: turns as u64,
            seed: seed as u64,
            settings: value_of(alloc, matches, SETTINGS)?,
        })),
        _ => Ok(None),
    }
}

/// The command `drill` with these operands.
fn drill_command(seeds: Bounds, counts: Bounds, operands: &[Text]) -> Option<Command>
    ensures { result ≡ drill_of seeds counts operands.now }
{
    let [seed, count] = operands else {
        return None;
    };
    let seed = number_in(seeds, seed.as_str());
    let count = number_in(counts, count.as_str());
    match (seed, count) {
        (Some(seed), Some(count)) => Some(Command::Drill { seed, count }),
        _ => None,
    }
}

/// The command `query` with these operands and options.
fn query_command(words: &Words, matches: &ArgMatches) -> Result<Option<Command>, AllocError>
    ensures { IfOk result (λ c. c ≡ query_of words.now (values_in (rows_of (found_of matches.now)))) }
{
    match amount_of(LIMIT, matches) {
        Some(limit) => Ok(Some(Command::Query {
            words: words.copy()?,
            limit,
        })),
        None => Ok(None),
    }
}

/// The command `expand` with these operands and options.
fn expand_command(
    alloc: Global,
    operands: &[Text],
    matches: &ArgMatches,
) -> Result<Option<Command>, AllocError>
    ensures { IfOk result (λ c. c ≡ expand_of operands.now (values_in (rows_of (found_of matches.now)))) }
{
    let [file] = operands else {
        return Ok(None);
    };
    match value_of(alloc, matches, SPEC)? {
        Some(spec) => Ok(Some(Command::Expand {
            file: file.copy()?,
            spec,
        })),
        None => Ok(None),
    }
}

/// The number that is the one operand.
fn numbered(bounds: Bounds, operands: &[Text]) -> Option<u32>
    ensures { result ≡ one_number bounds operands.now }
{
    match operands {
        [text] => number_in(bounds, text.as_str()),
        _ => None,
    }
}

/// A command where there are no operands.
fn alone(command: Command, operands: &[Text]) -> Option<Command>
    ensures { result ≡ alone command operands.now }
{
    if operands.is_empty() {
        Some(command)
    } else {
        None
    }
}

/// The command that is its word alone.
fn lone_command(which: Lone) -> Command
    ensures { result ≡ lone_command which }
{
    match which {
        Lone::Init => Command::Init,
        Lone::List => Command::View(View::List),
        Lone::Graph => Command::View(View::Graph),
        Lone::Verify => Command::View(View::Verify),
        Lone::Pack => Command::Pack,
    }
}

/// The command of the node or the process with this number.
fn with_number(which: Numbered, number: u32) -> Command
    ensures { result ≡ with_number which number }
{
    match which {
        Numbered::Tree => Command::View(View::Tree { pid: number }),
        Numbered::Show => Command::View(View::Show { node: number }),
        Numbered::Pause => Command::Pause { pid: number },
        Numbered::Play => Command::Play { pid: number },
        Numbered::Kill => Command::Kill { pid: number },
    }
}

/// The command of the node or the process whose number is the one operand.
fn numbered_command(bounds: Bounds, which: Numbered, operands: &[Text]) -> Option<Command>
    ensures { result ≡ option_map (with_number which) (one_number bounds operands.now) }
{
    match numbered(bounds, operands) {
        Some(number) => Some(with_number(which, number)),
        None => None,
    }
}

/// The command of this form, and what was read of the words behind it.
fn formed(alloc: Global, form: Form, matches: &ArgMatches) -> Result<Option<Command>, AllocError>
    ensures { IfOk result (λ c. c ≡ formed form (operands_in (rows_of (found_of matches.now))) (values_in (rows_of (found_of matches.now)))) }
{
    let words = operands_of(alloc, matches)?;
    let operands = words.as_slice();
    match form {
        Form::Dry => dry_command(alloc, operands, matches),
        Form::Check => check_command(operands),
        Form::Submit => submit_command(alloc, operands, matches),
        Form::Run => run_command(alloc, operands, matches),
        Form::Alone(which) => Ok(alone(lone_command(which), operands)),
        Form::Numbered(bounds, which) => Ok(numbered_command(bounds, which, operands)),
        Form::Drill(seeds, counts) => Ok(drill_command(seeds, counts, operands)),
        Form::Query => query_command(&words, matches),
        Form::Expand => expand_command(alloc, operands, matches),
    }
}

/// The command with this word, and what was read of the words behind it.
fn named(alloc: Global, word: &str, matches: &ArgMatches) -> Result<Option<Command>, AllocError>
    ensures { IfOk result (λ c. c ≡ named_command word.now (operands_in (rows_of (found_of matches.now))) (values_in (rows_of (found_of matches.now)))) }
{
    match form_of(word) {
        Some(form) => formed(alloc, form, matches),
        None => Ok(None),
    }
}

/// The command that was read, if it is one.
fn command_met(alloc: Global, matches: &ArgMatches) -> Result<Option<Command>, AllocError>
    ensures { IfOk result (λ c. c ≡ command_met (subcommand_rows_of matches.now)) }
{
    let Some((word, behind)) = matches.subcommand() else {
        return Ok(None);
    };
    named(alloc, word, behind)
}

/// The words as `clap` takes them.
fn texts_of<'a>(alloc: Global, words: &'a [Text]) -> Result<Vec<&'a str>, AllocError>
    ensures value { IfOk result (λ texts. map (λ text. text.now) texts.items ≡ words.entry.now) }
    ensures utf8 { IfOk result (λ texts. list_all is_utf8 words.entry.now ≡ true) }
{
    let mut texts = Vec::new(alloc);
    for word in words {
        word.bytes();
        texts.push(word.as_str())?;
    }
    Ok(texts)
}

/// The command that the words are, or none where they are no command.
pub fn command_of(alloc: Global, words: &Words) -> Result<Option<Command>, AllocError>
    ensures { IfOk result (λ c. c ≡ command_of words.now) }
{
    let texts = texts_of(alloc, words.as_slice())?;
    match matches_of(alloc, texts.as_slice())? {
        Some(matches) => command_met(alloc, &matches),
        None => Ok(None),
    }
}
