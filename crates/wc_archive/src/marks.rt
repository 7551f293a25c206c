//! Marks of numbers: which processes lie below a root, which nodes its archive has, and which numbers these get there.

ghost use Rattle.std.specs.Prelude.{◌≡◌, ◌+◌, ◌<◌, ◌^◌, ◌++◌, ◌||◌, ◌==◌, ℕ, true, false, [], ◌∷◌, length, replicate, slice_index, slice_set, if◌then◌else◌, map, filter, All, IfOk, OnOk};
ghost use Rattle.std.specs.List.{list_any};
ghost use Rattle.wc_graph.specs.Walks.{Leads, Reaches};
ghost use Rattle.wc_graph.specs.Reached.{AreExactly, IsNode};
ghost use Rattle.wc_subworlds.specs.Parts.{placed};
ghost use Rattle.wc_archive.specs.Closure.{archive_number, its_process};
ghost use Rattle.wc_archive.specs.Marks.{call_types, ends_at, is_marked, is_marked_link, marked};

use std::alloc::{AllocError, Global};
use wc_archive_file::ArchiveLinks;
use wc_graph::{Graph, Ids, Link, LinkSet, LinkType, WalkError, descendants};
use wc_value::Duplicate;

/// Whether a number is marked.
pub(crate) fn is_marked(marks: &[bool], id: u32) -> bool
    ensures { result ≡ is_marked marks.now id }
{
    (id as usize) < marks.len() && marks[id as usize]
}

/// So many numbers, of which none is marked.
pub(crate) fn unmarked(alloc: Global, count: usize) -> Result<Vec<bool>, AllocError>
    ensures { IfOk result (λ marks. marks.items ≡ replicate count false) }
{
    vec![in alloc; false; count]
}

/// The same marks, with memory of their own.
pub(crate) fn copied(alloc: Global, marks: &[bool]) -> Result<Vec<bool>, AllocError>
    ensures { IfOk result (λ copy. copy.items ≡ marks.now) }
{
    marks.to_vec(alloc)
}

/// Marks a number.
pub(crate) fn mark(marks: &mut Vec<bool>, id: u32)
    requires { id < length marks.old.items }
    ensures { marks.new.items ≡ slice_set marks.old.items id true }
{
    marks[id as usize] = true;
}

/// Marks numbers.
pub(crate) fn mark_each(marks: &mut Vec<bool>, ids: &[u32])
    requires { All (λ id. id < length marks.old.items) ids.now }
    ensures size { length marks.new.items ≡ length marks.old.items }
    ensures marks { (n : ℕ) → is_marked marks.new.items n ≡ (is_marked marks.old.items n || list_any (λ i. i == n) ids.now) }
{
    for id in ids {
        mark(marks, *id);
    }
}

/// The process whose link it is.
fn its_process(link: &Link) -> u32
    ensures { result ≡ its_process link.now }
{
    match link.link {
        LinkType::InputCalc | LinkType::InputWork => link.target,
        LinkType::Create | LinkType::Return | LinkType::CallCalc | LinkType::CallWork => {
            link.source
        }
    }
}

/// Marks the ends of a link, where its process is marked.
fn mark_ends(marks: &mut Vec<bool>, below: &[bool], link: &Link)
    requires source { link.now.source < length marks.old.items }
    requires target { link.now.target < length marks.old.items }
    ensures size { length marks.new.items ≡ length marks.old.items }
    ensures marks { (n : ℕ) → is_marked marks.new.items n ≡ (is_marked marks.old.items n || ends_at below.now n link.now) }
{
    if !is_marked(below, its_process(link)) {
        return;
    }
    mark(marks, link.source);
    mark(marks, link.target);
}

/// Marks the ends of the links of marked processes.
pub(crate) fn mark_links(marks: &mut Vec<bool>, below: &[bool], links: &[Link])
    requires sources { All (λ l. l.source < length marks.old.items) links.now }
    requires targets { All (λ l. l.target < length marks.old.items) links.now }
    ensures size { length marks.new.items ≡ length marks.old.items }
    ensures marks { (n : ℕ) → is_marked marks.new.items n ≡ (is_marked marks.old.items n || list_any (ends_at below.now n) links.now) }
{
    for link in links {
        mark_ends(marks, below, link);
    }
}

/// The types of calls.
fn call_types(alloc: Global) -> Result<LinkSet, AllocError>
    ensures { IfOk result (λ types. types ≡ call_types) }
{
    let mut types = LinkSet::new(alloc);
    types.push(LinkType::CallCalc)?;
    types.push(LinkType::CallWork)?;
    Ok(types)
}

/// The processes to which calls lead from a node.
pub(crate) fn called_below(alloc: Global, graph: &Graph, root: u32) -> Result<Ids, AllocError>
    requires { IsNode graph.now.nodes root }
    ensures { IfOk result (AreExactly (Reaches (Leads call_types graph.now.links) root)) }
{
    let types = call_types(alloc)?;
    match descendants(alloc, graph, root, &types) {
        Ok(ids) => Ok(ids),
        Err(WalkError::OutOfMemory) => Err(AllocError),
        Err(WalkError::NoNode(_)) | Err(WalkError::Cycle(_)) => unreachable!(),
    }
}

/// Puts the next number behind others, or 0. It gives the last number that was put.
fn put_number(numbers: &mut Vec<u32>, last: u32, is: bool) -> Result<u32, AllocError>
    requires { last + 1 < 2 ^ 32 }
    ensures last { IfOk result (λ next. next ≡ (if is then last + 1 else last)) }
    ensures put { OnOk result (numbers.new.items ≡ numbers.old.items ++ (if is then last + 1 else 0) ∷ []) }
{
    if is {
        numbers.push(last + 1)?;
        Ok(last + 1)
    } else {
        numbers.push(0)?;
        Ok(last)
    }
}

/// The places of the marked numbers among each other, counted from 1, and 0 for each other number.
pub(crate) fn numbers_of(alloc: Global, marks: &[bool]) -> Result<Vec<u32>, AllocError>
    requires { length marks.now < 2 ^ 32 }
    ensures { IfOk result (λ numbers. (n : ℕ) → slice_index numbers.items n ≡ archive_number (marked marks.now) n) }
{
    let mut numbers = Vec::new(alloc);
    let mut last: u32 = 0;
    for id in 0..marks.len() {
        let is = is_marked(marks, id as u32);
        let next = put_number(&mut numbers, last, is)?;
        last = next;
    }
    Ok(numbers)
}

/// The number at a place, or 0.
pub(crate) fn number_at(numbers: &[u32], id: u32) -> u32
    ensures { result ≡ slice_index numbers.now id }
{
    if (id as usize) < numbers.len() {
        numbers[id as usize]
    } else {
        0
    }
}

/// Puts a link between the numbers of its ends behind others, where its process is marked.
fn put_link(
    links: &mut ArchiveLinks,
    below: &[bool],
    numbers: &[u32],
    link: &Link,
) -> Result<(), AllocError>
    ensures { OnOk result (links.new ≡ links.old ++ map (placed (slice_index numbers.now)) (filter (is_marked_link below.now) (link.now ∷ []))) }
{
    if !is_marked(below, its_process(link)) {
        return Ok(());
    }
    let label = link.label.copy()?;
    links.push(Link {
        source: number_at(numbers, link.source),
        target: number_at(numbers, link.target),
        link: link.link,
        label,
    })?;
    Ok(())
}

/// The links of the marked processes, between the numbers of their ends.
pub(crate) fn archived_links(
    alloc: Global,
    links: &[Link],
    below: &[bool],
    numbers: &[u32],
) -> Result<ArchiveLinks, AllocError>
    ensures { IfOk result (λ kept. kept ≡ map (placed (slice_index numbers.now)) (filter (is_marked_link below.now) links.now)) }
{
    let mut kept = ArchiveLinks::new(alloc);
    for link in links {
        put_link(&mut kept, below, numbers, link)?;
    }
    Ok(kept)
}
