//! The data that the links of a process lead to and from, by label.

ghost use Rattle.std.specs.Prelude.{◌≡◌, [], OnOk, IfOk, slice_get, option_to_list};
ghost use Rattle.wc_world.specs.Trees.{inputs_after, outputs_after, values_alone};
ghost use Rattle.wc_world.specs.Linked.{plain_after};

use crate::linked::{places_from, places_into};
use std::alloc::{AllocError, Global};
use wc_fits::{input_by, output_by};
use wc_graph::Graph;
use wc_state::{Named, NodeValue};
use wc_value::{Duplicate, Fields};

/// Puts the input that the link at a place leads from, where it is one of this process.
fn put_input(named: &mut Named, graph: &Graph, pid: u32, place: usize) -> Result<(), AllocError>
    ensures { OnOk result (named.new ≡ inputs_after graph.now.nodes pid (option_to_list (slice_get graph.now.links place)) named.old) }
{
    let Some(link) = graph.links().get(place) else {
        return Ok(());
    };
    if let Some(value) = input_by(graph.nodes().as_slice(), pid, link) {
        let held = NodeValue {
            node: link.source,
            value: value.copy()?,
        };
        named.set(link.label.copy()?, held)?;
    }
    Ok(())
}

/// The inputs of a process, each with its node.
#[tactic(auto, using(crate::proofs::Linking::inputs_begin, crate::proofs::Linking::inputs_step))]
pub fn inputs_of(alloc: Global, graph: &Graph, pid: u32) -> Result<Named, AllocError>
    ensures { IfOk result (λ named. named ≡ inputs_after graph.now.nodes pid graph.now.links []) }
{
    let mut named = Named::new(alloc);
    let mut places = places_into(alloc, graph, pid)?;
    while let Some(place) = places.pop() {
        put_input(&mut named, graph, pid, place)?;
    }
    Ok(named)
}

/// Puts the output that the link at a place leads to, where it is one of this process.
fn put_output(named: &mut Named, graph: &Graph, pid: u32, place: usize) -> Result<(), AllocError>
    ensures { OnOk result (named.new ≡ outputs_after graph.now.nodes pid (option_to_list (slice_get graph.now.links place)) named.old) }
{
    let Some(link) = graph.links().get(place) else {
        return Ok(());
    };
    if let Some(value) = output_by(graph.nodes().as_slice(), pid, link) {
        let held = NodeValue {
            node: link.target,
            value: value.copy()?,
        };
        named.set(link.label.copy()?, held)?;
    }
    Ok(())
}

/// The outputs of a process, each with its node.
#[tactic(auto, using(crate::proofs::Linking::outputs_begin, crate::proofs::Linking::outputs_step))]
pub fn outputs_of(alloc: Global, graph: &Graph, pid: u32) -> Result<Named, AllocError>
    ensures { IfOk result (λ named. named ≡ outputs_after graph.now.nodes pid graph.now.links []) }
{
    let mut named = Named::new(alloc);
    let mut places = places_from(alloc, graph, pid)?;
    while let Some(place) = places.pop() {
        put_output(&mut named, graph, pid, place)?;
    }
    Ok(named)
}

/// Puts the value of the output that the link at a place leads to, where it is one of this process.
fn put_value(fields: &mut Fields, graph: &Graph, pid: u32, place: usize) -> Result<(), AllocError>
    ensures { OnOk result (fields.new ≡ plain_after graph.now.nodes pid (option_to_list (slice_get graph.now.links place)) fields.old) }
{
    let Some(link) = graph.links().get(place) else {
        return Ok(());
    };
    if let Some(value) = output_by(graph.nodes().as_slice(), pid, link) {
        fields.set(link.label.copy()?, value.copy()?)?;
    }
    Ok(())
}

/// The outputs of a process, as values alone.
#[tactic(auto, using(crate::proofs::Linking::plain_begin, crate::proofs::Linking::plain_step))]
pub fn output_values(alloc: Global, graph: &Graph, pid: u32) -> Result<Fields, AllocError>
    ensures { IfOk result (λ fields. fields ≡ values_alone (outputs_after graph.now.nodes pid graph.now.links [])) }
{
    let mut fields = Fields::new(alloc);
    let mut places = places_from(alloc, graph, pid)?;
    while let Some(place) = places.pop() {
        put_value(&mut fields, graph, pid, place)?;
    }
    Ok(fields)
}
