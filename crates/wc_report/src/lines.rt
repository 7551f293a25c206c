//! The lines that tell what was done to a store, or why nothing was.

ghost use Rattle.std.specs.Prelude.{◌≡◌, IfOk, string_bytes};
ghost use Rattle.wc_report.specs.Lines.{initialised_text, submitted_text, paused_text, playing_text, killed_text, committed_text, packed_text, agreement_text, verified_text, cycle_text, wrong_value_text, found_text, damaged_text, what_text, full_text, is_live, is_paused, live_count, paused_count};

use std::alloc::{AllocError, Global};
use wc_state::{ProcessRecord, What};
use wc_value::Text;
use wc_world::{World, has_ended};

/// The line of `init`.
pub fn initialised_text(alloc: Global) -> Result<Text, AllocError>
    ensures { IfOk result (λ text. text ≡ initialised_text) }
{
    Text::of_str(alloc, "initialised\n")
}

/// The line of `submit`, with the number of the new process.
pub fn submitted_text(alloc: Global, pid: u32) -> Result<Text, AllocError>
    ensures { IfOk result (λ text. text ≡ submitted_text pid) }
{
    Text::of_string(format!(in alloc; "submitted {pid}\n")?)
}

/// The line of `pause`, with the number of the process.
pub fn paused_text(alloc: Global, pid: u32) -> Result<Text, AllocError>
    ensures { IfOk result (λ text. text ≡ paused_text pid) }
{
    Text::of_string(format!(in alloc; "paused {pid}\n")?)
}

/// The line of `play`, with the number of the process.
pub fn playing_text(alloc: Global, pid: u32) -> Result<Text, AllocError>
    ensures { IfOk result (λ text. text ≡ playing_text pid) }
{
    Text::of_string(format!(in alloc; "playing {pid}\n")?)
}

/// The line of `kill`, with the number of the process.
pub fn killed_text(alloc: Global, pid: u32) -> Result<Text, AllocError>
    ensures { IfOk result (λ text. text ≡ killed_text pid) }
{
    Text::of_string(format!(in alloc; "killed {pid}\n")?)
}

/// The line of `run`: how many batches it committed, how many processes are live, and how many of these are paused.
pub fn committed_text(
    alloc: Global,
    committed: u64,
    live: usize,
    paused: usize,
) -> Result<Text, AllocError>
    ensures { IfOk result (λ text. text ≡ committed_text committed live paused) }
{
    Text::of_string(format!(in alloc; "committed {committed} live {live} paused {paused}\n")?)
}

/// The line of `pack`, with the number of the new generation.
pub fn packed_text(alloc: Global, generation: u64) -> Result<Text, AllocError>
    ensures { IfOk result (λ text. text ≡ packed_text generation) }
{
    Text::of_string(format!(in alloc; "packed {generation}\n")?)
}

/// What was found where something else should stand: a byte, or the end.
fn found_name(alloc: Global, found: Option<u8>) -> Result<String, AllocError>
    ensures { IfOk result (λ name. string_bytes name ≡ found_text found) }
{
    match found {
        Some(byte) => format!(in alloc; "byte {byte}"),
        None => String::from_str(alloc, "end"),
    }
}

/// The line of a damaged store: the disk, the place on it, and the byte there, or none at its end.
pub fn damaged_text(alloc: Global, disk: u8, at: u64, found: Option<u8>) -> Result<Text, AllocError>
    ensures { IfOk result (λ text. text ≡ damaged_text disk at found) }
{
    let name = found_name(alloc, found)?;
    Text::of_string(format!(in alloc; "damaged: disk {disk} at {at} {}\n", name.as_str())?)
}

/// What a store may be full of, in the plural.
fn what_name(what: What) -> &'static str
    ensures { result.now ≡ what_text what }
{
    match what {
        What::Nodes => "nodes",
        What::Bytes => "bytes",
        What::Batches => "batches",
        What::Generations => "generations",
    }
}

/// The line of a full store: of what, how many there would be, and the most that there may be.
pub fn full_text(alloc: Global, what: What, count: u64, limit: u64) -> Result<Text, AllocError>
    ensures { IfOk result (λ text. text ≡ full_text what count limit) }
{
    let name = what_name(what);
    Text::of_string(format!(in alloc; "full: {name} {count} of {limit}\n")?)
}

/// Whether results agree, or the least two processes whose results disagree.
fn agreement(alloc: Global, disagreement: Option<(u32, u32)>) -> Result<String, AllocError>
    ensures { IfOk result (λ told. string_bytes told ≡ agreement_text disagreement) }
{
    match disagreement {
        Some((one, other)) => format!(in alloc; "disagrees {one} {other}"),
        None => String::from_str(alloc, "agrees"),
    }
}

/// How many nodes and links there are, and whether results agree.
pub fn verified_text(
    alloc: Global,
    nodes: usize,
    links: usize,
    disagreement: Option<(u32, u32)>,
) -> Result<Text, AllocError>
    ensures { IfOk result (λ text. text ≡ verified_text nodes links disagreement) }
{
    let told = agreement(alloc, disagreement)?;
    Text::of_string(format!(in alloc; "nodes {nodes} links {links}\ntable {}\n", told.as_str())?)
}

/// The least node that lies on a cycle of data provenance.
pub fn cycle_text(alloc: Global, node: u32) -> Result<Text, AllocError>
    ensures { IfOk result (λ text. text ≡ cycle_text node) }
{
    Text::of_string(format!(in alloc; "unsound: cycle at {node}\n")?)
}

/// The lowest calculation that isn't as its inputs give it.
pub fn wrong_value_text(alloc: Global, pid: u32) -> Result<Text, AllocError>
    ensures { IfOk result (λ text. text ≡ wrong_value_text pid) }
{
    Text::of_string(format!(in alloc; "unsound: value at {pid}\n")?)
}

/// Whether a process hasn't ended.
fn is_live(process: &ProcessRecord) -> bool
    ensures { result ≡ is_live process.now }
{
    !has_ended(process.state)
}

/// Whether a live process has the pause mark.
fn is_paused(process: &ProcessRecord) -> bool
    ensures { result ≡ is_paused process.now }
{
    is_live(process) && process.paused
}

/// How many of these processes haven't ended.
pub(crate) fn live_among(processes: &[ProcessRecord]) -> usize
    ensures { result ≡ live_count processes.now }
{
    let mut count = 0;
    for process in processes {
        if is_live(process) {
            count += 1;
        }
    }
    count
}

/// How many of these processes haven't ended and have the pause mark.
pub(crate) fn paused_among(processes: &[ProcessRecord]) -> usize
    ensures { result ≡ paused_count processes.now }
{
    let mut count = 0;
    for process in processes {
        if is_paused(process) {
            count += 1;
        }
    }
    count
}

/// How many processes of a world haven't ended.
pub fn live_count(world: &World) -> usize
    ensures { result ≡ live_count world.now.world.records }
{
    live_among(world.records().as_slice())
}

/// How many processes of a world haven't ended and have the pause mark.
pub fn paused_count(world: &World) -> usize
    ensures { result ≡ paused_count world.now.world.records }
{
    paused_among(world.records().as_slice())
}
