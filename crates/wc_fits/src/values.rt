//! The values of the data that the links of a process lead to and from.

ghost use Rattle.std.specs.Prelude.{◌≡◌, if◌then◌else◌};
ghost use Rattle.std.specs.Option.{option_copied};
ghost use Rattle.wc_fits.specs.Records.{takes_input, is_output_of, is_input_of};
ghost use Rattle.wc_fits.specs.Values.{value_of};

use crate::processes::is_output_of;
use wc_graph::{Link, LinkType, NodeKind};
use wc_value::Value;

/// The value of the data node with this number, if there is one.
pub fn value_of(nodes: &[NodeKind], id: u32) -> Option<&Value>
    ensures { option_copied result ≡ value_of nodes.now id }
{
    if id == 0 {
        return None;
    }
    match nodes.get(id as usize - 1) {
        Some(NodeKind::Data(value)) => Some(value),
        _ => None,
    }
}

/// Whether links of this type lead from an input to a process.
fn takes_input(link: LinkType) -> bool
    ensures { result ≡ takes_input link }
{
    matches!(link, LinkType::InputCalc | LinkType::InputWork)
}

/// The value of the output that a link of this process leads to.
pub fn output_by<'a>(nodes: &'a [NodeKind], pid: u32, link: &Link) -> Option<&'a Value>
    ensures { option_copied result ≡ (if is_output_of pid link.now then value_of nodes.now link.now.target else None) }
{
    if is_output_of(pid, link) {
        value_of(nodes, link.target)
    } else {
        None
    }
}

/// The value of the input that a link of this process leads from.
pub fn input_by<'a>(nodes: &'a [NodeKind], pid: u32, link: &Link) -> Option<&'a Value>
    ensures { option_copied result ≡ (if is_input_of pid link.now then value_of nodes.now link.now.source else None) }
{
    if takes_input(link.link) && link.target == pid {
        value_of(nodes, link.source)
    } else {
        None
    }
}
