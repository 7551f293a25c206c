//! The arguments of calls as changes.

ghost use Rattle.std.specs.Prelude.{◌≡◌, ◌++◌, ◌+◌, ◌<◌, ◌≤◌, ◌^◌, length, OnOk};
ghost use Rattle.wc_changes.specs.Called.{datum, data_of, source_at, number_after, links_of};

use std::alloc::AllocError;
use wc_graph::{Link, LinkType};
use wc_outline::{Args, Argument};
use wc_value::Duplicate;
use wc_world::{Change, Changes};

/// How many nodes of its own an argument gets.
fn own_nodes(arg: &Argument) -> u32
    ensures value { result ≡ length (datum arg.now) }
    ensures few { result ≤ 1 }
{
    match arg {
        Argument::Node(_) => 0,
        Argument::Plain(_) => 1,
    }
}

/// How many nodes of their own arguments get.
pub fn count_data(args: &Args) -> u64
    ensures value { result ≡ length (data_of args.now) }
    ensures few { result < 2 ^ 32 }
{
    let _ = args.len();
    let mut count = 0;
    for (_, arg) in args.as_slice() {
        count += own_nodes(arg) as u64;
    }
    count
}

/// Puts the data node of an argument at the end, if it gets one.
fn put_datum(changes: &mut Changes, arg: &Argument) -> Result<(), AllocError>
    ensures { OnOk result (changes.new ≡ changes.old ++ datum arg.now) }
{
    match arg {
        Argument::Node(_) => Ok(()),
        Argument::Plain(value) => changes.push(Change::Data(value.copy()?)),
    }
}

/// Puts the data nodes of arguments at the end, in the order of their ports.
pub fn put_data(changes: &mut Changes, args: &Args) -> Result<(), AllocError>
    ensures { OnOk result (changes.new ≡ changes.old ++ data_of args.now) }
{
    for (_, arg) in args.as_slice() {
        put_datum(changes, arg)?;
    }
    Ok(())
}

/// The node that an argument is, or the next one, where it gets a node of its own.
fn source_of(arg: &Argument, next: u32) -> u32
    ensures { result ≡ source_at next arg.now }
{
    match arg {
        Argument::Node(node) => *node,
        Argument::Plain(_) => next,
    }
}

/// The next number behind an argument, where this is the next one before it.
fn number_after(arg: &Argument, next: u32) -> u32
    requires { next + length (datum arg.now) < 2 ^ 32 }
    ensures value { result ≡ number_after next arg.now }
    ensures more { result ≡ next + length (datum arg.now) }
{
    match arg {
        Argument::Node(_) => next,
        Argument::Plain(_) => next + 1,
    }
}

/// Puts a link to a process for each argument at the end, where the first that gets a node of its own has this one.
pub fn put_links(
    changes: &mut Changes,
    link: LinkType,
    first: u32,
    pid: u32,
    args: &Args,
) -> Result<(), AllocError>
    requires { first + length (data_of args.now) < 2 ^ 32 }
    ensures { OnOk result (changes.new ≡ changes.old ++ links_of link first pid args.now) }
{
    let mut next = first;
    for (port, arg) in args.as_slice() {
        changes.push(Change::Link(Link {
            source: source_of(arg, next),
            target: pid,
            link,
            label: port.copy()?,
        }))?;
        next = number_after(arg, next);
    }
    Ok(())
}
