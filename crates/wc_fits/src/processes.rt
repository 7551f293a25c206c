//! States of processes, and the links that leave them.

ghost use Rattle.std.specs.Prelude.{◌≡◌, ◌↔◌, ℕ, ◌==◌, ◌&&◌, true, Some};
ghost use Rattle.wc_fits.specs.Records.{has_called, gives_output, is_call_from, is_output_of, process_node};
ghost use Rattle.wc_fits.specs.Fits.{calls_from, has_output, is_settled, counted_calls};

use wc_graph::{Graph, Link, LinkType, NodeKind, is_call};
use wc_records::has_ended;
use wc_state::{Part, ProcessKind, ProcessRecord};

/// The node of a process of this kind.
pub fn node_of_kind(kind: ProcessKind) -> NodeKind
    ensures { result ≡ process_node kind }
{
    match kind {
        ProcessKind::Function => NodeKind::Calculation,
        ProcessKind::Job => NodeKind::Calculation,
        ProcessKind::Chain => NodeKind::Workflow,
    }
}

/// Whether the link is a call from this process.
pub fn is_call_from(pid: u32, link: &Link) -> bool
    ensures { result ≡ is_call_from pid link.now }
{
    is_call(link.link) && link.source == pid
}

/// Whether the link is a call from one process to the other.
fn is_call_between(link: &Link, caller: u32, pid: u32) -> bool
    ensures { result ≡ (is_call_from caller link.now && (link.now.target == pid)) }
{
    is_call_from(caller, link) && link.target == pid
}

/// Whether one process called the other.
#[tactic(auto, using(crate::proofs::LinkWalks::no_call_first, crate::proofs::LinkWalks::no_call_next, crate::proofs::LinkWalks::call_at))]
pub(crate) fn has_called(graph: &Graph, caller: u32, pid: u32) -> bool
    ensures { result ≡ has_called graph.now.links caller pid }
{
    let links = graph.links().as_slice();
    let mut at = graph.last_into(pid);
    while at > 0 {
        if is_call_between(&links[at - 1], caller, pid) {
            return true;
        }
        at = graph.before_into(pid, at);
    }
    false
}

/// The process that called a process, if there is one.
pub fn caller_of(graph: &Graph, pid: u32) -> Option<u32>
    ensures { (caller : ℕ) → (result ≡ Some caller) ↔ (has_called graph.now.links caller pid ≡ true) }
{
    let links = graph.links().as_slice();
    let mut at = graph.last_into(pid);
    while at > 0 {
        let link = &links[at - 1];
        if is_call_between(link, link.source, pid) {
            return Some(link.source);
        }
        at = graph.before_into(pid, at);
    }
    None
}

fn gives_output(link: LinkType) -> bool
    ensures { result ≡ gives_output link }
{
    matches!(link, LinkType::Create | LinkType::Return)
}

/// Whether the link leads from this process to an output.
pub(crate) fn is_output_of(pid: u32, link: &Link) -> bool
    ensures { result ≡ is_output_of pid link.now }
{
    gives_output(link.link) && link.source == pid
}

/// Whether a process has an output.
#[tactic(auto, using(crate::proofs::LinkWalks::no_output_first, crate::proofs::LinkWalks::no_output_next, crate::proofs::LinkWalks::output_at))]
fn has_output(graph: &Graph, pid: u32) -> bool
    ensures { result ≡ has_output pid graph.now.links }
{
    let links = graph.links().as_slice();
    let mut at = graph.last_from(pid);
    while at > 0 {
        if is_output_of(pid, &links[at - 1]) {
            return true;
        }
        at = graph.before_from(pid, at);
    }
    false
}

/// How many calls a process has made.
#[tactic(auto, using(crate::proofs::LinkWalks::calls_first, crate::proofs::LinkWalks::calls_next))]
fn calls_from(graph: &Graph, pid: u32) -> usize
    ensures { result ≡ calls_from pid graph.now.links }
{
    let links = graph.links().as_slice();
    let mut count = 0;
    let mut at = graph.last_from(pid);
    while at > 0 {
        if is_call_from(pid, &links[at - 1]) {
            count += 1;
        }
        at = graph.before_from(pid, at);
    }
    count
}

/// How many calls a checkpoint counts.
fn counted_calls(part: &Part) -> u32
    ensures { result ≡ counted_calls part.now }
{
    match part {
        Part::Chain(checkpoint) => checkpoint.calls,
        _ => 0,
    }
}

/// Whether a process has ended, or has no output and as many calls as its checkpoint counts.
pub fn is_settled(graph: &Graph, record: &ProcessRecord) -> bool
    ensures { result ≡ is_settled graph.now.links «record».now }
{
    has_ended(record.state)
        || (!has_output(graph, record.node)
            && calls_from(graph, record.node) == counted_calls(&record.part) as usize)
}
