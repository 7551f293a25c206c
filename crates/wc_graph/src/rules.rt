//! The rules of links, and whether a graph allows a link by them.

ghost use Rattle.std.specs.Prelude.{◌≡◌, ℕ, ◌↔◌, IsTrue, MatchResult, OnOk, IsErrOf, Any};
ghost use Rattle.wc_graph.specs.Rules.{node_of, Leaves, Enters, TakesTriple, TakesLabel, SharesCreated, SharesCalled, IsCall};
ghost use Rattle.wc_graph.specs.Refusals.{IsAllowed, Refuses};
ghost use Rattle.wc_graph.specs.Broken.{Breaks, CanBreak, is_at_source};

use crate::error::GraphError;
use crate::graph::Graph;
use crate::link::{Link, LinkType};
use crate::node::NodeKind;

/// Whether links of this type leave nodes of this kind.
pub fn leaves(link: LinkType, kind: &NodeKind) -> bool
    ensures { IsTrue result ↔ Leaves link kind.now }
{
    match link {
        LinkType::InputCalc | LinkType::InputWork => matches!(kind, NodeKind::Data(_)),
        LinkType::Create => matches!(kind, NodeKind::Calculation),
        LinkType::Return | LinkType::CallCalc | LinkType::CallWork => {
            matches!(kind, NodeKind::Workflow)
        }
    }
}

/// Whether links of this type enter nodes of this kind.
pub fn enters(link: LinkType, kind: &NodeKind) -> bool
    ensures { IsTrue result ↔ Enters link kind.now }
{
    match link {
        LinkType::InputCalc | LinkType::CallCalc => matches!(kind, NodeKind::Calculation),
        LinkType::InputWork | LinkType::CallWork => matches!(kind, NodeKind::Workflow),
        LinkType::Create | LinkType::Return => matches!(kind, NodeKind::Data(_)),
    }
}

fn same_label(a: &Link, b: &Link) -> bool
    ensures { IsTrue result ↔ (a.now.label ≡ b.now.label) }
{
    a.label.bytes() == b.label.bytes()
}

/// Whether a link, beside an earlier one, breaks the rule on triples of its type.
pub fn takes_triple(a: &Link, b: &Link) -> bool
    ensures { IsTrue result ↔ TakesTriple b.now.link a.now b.now }
{
    b.link != LinkType::Create
        && a.link == b.link
        && a.source == b.source
        && a.target == b.target
        && same_label(a, b)
}

/// Whether a link, beside an earlier one, breaks the rule on labels of its type.
pub fn takes_label(a: &Link, b: &Link) -> bool
    ensures { IsTrue result ↔ TakesLabel b.now.link a.now b.now }
{
    let same_end = match b.link {
        LinkType::InputCalc | LinkType::InputWork => a.target == b.target,
        LinkType::Create | LinkType::Return => a.source == b.source,
        LinkType::CallCalc | LinkType::CallWork => false,
    };
    same_end && a.link == b.link && same_label(a, b)
}

/// Whether both links create the same data.
pub fn shares_created(a: &Link, b: &Link) -> bool
    ensures { IsTrue result ↔ SharesCreated a.now b.now }
{
    a.link == LinkType::Create && b.link == LinkType::Create && a.target == b.target
}

/// Whether links of this type are calls.
pub fn is_call(link: LinkType) -> bool
    ensures { IsTrue result ↔ IsCall link }
{
    matches!(link, LinkType::CallCalc | LinkType::CallWork)
}

/// Whether both links call the same process.
pub fn shares_called(a: &Link, b: &Link) -> bool
    ensures { IsTrue result ↔ SharesCalled a.now b.now }
{
    is_call(a.link) && is_call(b.link) && a.target == b.target
}

/// A rule that a link may break beside another.
#[derive(Clone, Copy, Debug, PartialEq, Eq)]
pub(crate) enum Rule {
    /// No triple twice.
    Triple,
    /// A label stands once at its end.
    Label,
    /// Data has at most one creator.
    Creator,
    /// A process has at most one caller.
    Caller,
}

/// Whether a link, beside an earlier one, breaks the rule.
fn breaks(rule: Rule, a: &Link, b: &Link) -> bool
    ensures { IsTrue result ↔ Breaks rule a.now b.now }
{
    match rule {
        Rule::Triple => takes_triple(a, b),
        Rule::Label => takes_label(a, b),
        Rule::Creator => shares_created(a, b),
        Rule::Caller => shares_called(a, b),
    }
}

/// Whether links of this type can break the rule.
fn can_break(rule: Rule, link: LinkType) -> bool
    ensures { IsTrue result ↔ CanBreak rule link }
{
    match rule {
        Rule::Triple => link != LinkType::Create,
        Rule::Label => !is_call(link),
        Rule::Creator => link == LinkType::Create,
        Rule::Caller => is_call(link),
    }
}

/// Whether links of this type break the rule beside links from the same source alone. Else it is beside links to the same
/// target alone.
fn is_at_source(rule: Rule, link: LinkType) -> bool
    ensures { result ≡ is_at_source rule link }
{
    match rule {
        Rule::Triple => matches!(link, LinkType::Return),
        Rule::Label => matches!(link, LinkType::Create | LinkType::Return),
        Rule::Creator | Rule::Caller => false,
    }
}

/// Whether a link would break the rule beside one to its target.
fn is_broken_into(graph: &Graph, rule: Rule, link: &Link) -> bool
    requires { (a : Link) → Breaks rule a link.now → a.target ≡ link.now.target }
    ensures { IsTrue result ↔ Any (λ a. Breaks rule a link.now) graph.now.links }
{
    let links = graph.links().as_slice();
    let mut at = graph.last_into(link.target);
    while at > 0 {
        let other = &links[at - 1];
        if breaks(rule, other, link) {
            return true;
        }
        at = graph.before_into(link.target, at);
    }
    false
}

/// Whether a link would break the rule beside one from its source.
fn is_broken_from(graph: &Graph, rule: Rule, link: &Link) -> bool
    requires { (a : Link) → Breaks rule a link.now → a.source ≡ link.now.source }
    ensures { IsTrue result ↔ Any (λ a. Breaks rule a link.now) graph.now.links }
{
    let links = graph.links().as_slice();
    let mut at = graph.last_from(link.source);
    while at > 0 {
        let other = &links[at - 1];
        if breaks(rule, other, link) {
            return true;
        }
        at = graph.before_from(link.source, at);
    }
    false
}

/// Whether the labels of a busy node tell that a link breaks the rule beside none of the graph.
fn is_free(graph: &Graph, rule: Rule, link: &Link) -> bool
    ensures { IsTrue result → ¬ Any (λ a. Breaks rule a link.now) graph.now.links }
{
    match rule {
        Rule::Triple | Rule::Label => graph.is_label_free(link),
        Rule::Creator | Rule::Caller => false,
    }
}

/// Whether a link would break the rule beside one of the graph.
fn is_broken(graph: &Graph, rule: Rule, link: &Link) -> bool
    ensures { IsTrue result ↔ Any (λ a. Breaks rule a link.now) graph.now.links }
{
    if !can_break(rule, link.link) {
        return false;
    }
    if is_free(graph, rule, link) {
        return false;
    }
    if is_at_source(rule, link.link) {
        is_broken_from(graph, rule, link)
    } else {
        is_broken_into(graph, rule, link)
    }
}

/// The node with this number.
fn node_at(nodes: &[NodeKind], id: u32) -> Result<&NodeKind, GraphError>
    ensures { MatchResult result (λ kind. node_of nodes.now id ≡ Some kind.now)
        (λ e. (e ≡ GraphError.NoNode id) × (node_of nodes.now id ≡ None)) }
{
    if id == 0 {
        return Err(GraphError::NoNode(id));
    }
    match nodes.get(id as usize - 1) {
        Some(kind) => Ok(kind),
        None => Err(GraphError::NoNode(id)),
    }
}

/// Whether the link may go to the end of the links, or else the first rule that it would break.
pub(crate) fn allow(graph: &Graph, link: &Link) -> Result<(), GraphError>
    ensures ok { OnOk result (IsAllowed graph.now.nodes graph.now.links link.now) }
    ensures no_node { (id : ℕ) → IsErrOf result (GraphError.NoNode id)
        ↔ Refuses graph.now.nodes graph.now.links link.now (GraphError.NoNode id) }
    ensures wrong_ends { IsErrOf result GraphError.WrongEnds
        ↔ Refuses graph.now.nodes graph.now.links link.now GraphError.WrongEnds }
    ensures triple { IsErrOf result GraphError.TripleTaken
        ↔ Refuses graph.now.nodes graph.now.links link.now GraphError.TripleTaken }
    ensures label { IsErrOf result GraphError.LabelTaken
        ↔ Refuses graph.now.nodes graph.now.links link.now GraphError.LabelTaken }
    ensures creator { IsErrOf result GraphError.HasCreator
        ↔ Refuses graph.now.nodes graph.now.links link.now GraphError.HasCreator }
    ensures caller { IsErrOf result GraphError.HasCaller
        ↔ Refuses graph.now.nodes graph.now.links link.now GraphError.HasCaller }
    ensures memory { ¬ IsErrOf result GraphError.OutOfMemory }
    ensures full { IsErrOf result GraphError.Full
        ↔ Refuses graph.now.nodes graph.now.links link.now GraphError.Full }
{
    let nodes = graph.nodes().as_slice();
    let source = node_at(nodes, link.source)?;
    let target = node_at(nodes, link.target)?;
    if !leaves(link.link, source) || !enters(link.link, target) {
        return Err(GraphError::WrongEnds);
    }
    if is_broken(graph, Rule::Triple, link) {
        return Err(GraphError::TripleTaken);
    }
    if is_broken(graph, Rule::Label, link) {
        return Err(GraphError::LabelTaken);
    }
    if is_broken(graph, Rule::Creator, link) {
        return Err(GraphError::HasCreator);
    }
    if is_broken(graph, Rule::Caller, link) {
        return Err(GraphError::HasCaller);
    }
    Ok(())
}
