//! The words that stand in a query, and what each means.

ghost use Rattle.std.specs.Prelude.{◌≡◌, option_map};
ghost use Rattle.wc_query.specs.Names.{is_kind, is_state, link_type_of, field_of, op_of, way_of, is_order};

use crate::pieces::behind;
use crate::query::{Field, Op};
use wc_graph::LinkType;

/// Whether a word is a kind of nodes.
#[tactic(auto, unfolding(crate::specs::Names::is_kind))]
pub(crate) fn is_kind(word: &str) -> bool
    ensures { result ≡ is_kind word.now }
{
    [
        "any",
        "data",
        "process",
        "int",
        "bool",
        "text",
        "list",
        "dict",
        "folder",
        "calcfunction",
        "calcjob",
        "workchain",
    ]
    .contains(&word)
}

/// Whether a word is the first of a state.
#[tactic(auto, unfolding(crate::specs::Names::is_state))]
pub(crate) fn is_state(word: &str) -> bool
    ensures { result ≡ is_state word.now }
{
    [
        "created", "running", "waiting", "finished", "excepted", "killed",
    ]
    .contains(&word)
}

/// The link type that a word names.
#[tactic(auto, unfolding(crate::specs::Names::link_type_of))]
pub(crate) fn link_type_of(word: &str) -> Option<LinkType>
    ensures { result ≡ link_type_of word.now }
{
    if word == "INPUT_CALC" {
        Some(LinkType::InputCalc)
    } else if word == "INPUT_WORK" {
        Some(LinkType::InputWork)
    } else if word == "CREATE" {
        Some(LinkType::Create)
    } else if word == "RETURN" {
        Some(LinkType::Return)
    } else if word == "CALL_CALC" {
        Some(LinkType::CallCalc)
    } else if word == "CALL_WORK" {
        Some(LinkType::CallWork)
    } else {
        None
    }
}

/// The field that a text begins with the name of, and what is behind it.
#[tactic(auto, unfolding(crate::specs::Names::field_of))]
pub(crate) fn field_of(text: &str) -> Option<(Field, &str)>
    ensures { option_map (λ found. (found.0, found.1.now)) result ≡ field_of text.now }
{
    if let Some(rest) = behind(text, "name") {
        Some((Field::Name, rest))
    } else if let Some(rest) = behind(text, "state") {
        Some((Field::State, rest))
    } else if let Some(rest) = behind(text, "id") {
        Some((Field::Id, rest))
    } else if let Some(rest) = behind(text, "status") {
        Some((Field::Status, rest))
    } else if let Some(rest) = behind(text, "value") {
        Some((Field::Value, rest))
    } else {
        None
    }
}

/// The comparison that a text begins with, and what is behind it.
#[tactic(auto, unfolding(crate::specs::Names::op_of))]
pub(crate) fn op_of(text: &str) -> Option<(Op, &str)>
    ensures { option_map (λ found. (found.0, found.1.now)) result ≡ op_of text.now }
{
    if let Some(rest) = behind(text, "=") {
        Some((Op::Equal, rest))
    } else if let Some(rest) = behind(text, "!=") {
        Some((Op::Differs, rest))
    } else if let Some(rest) = behind(text, "<") {
        Some((Op::Below, rest))
    } else if let Some(rest) = behind(text, ">") {
        Some((Op::Above, rest))
    } else {
        None
    }
}

/// The way that a text begins with, true for from the node before to the node after, and what is behind it.
#[tactic(auto, unfolding(crate::specs::Names::way_of))]
pub(crate) fn way_of(text: &str) -> Option<(bool, &str)>
    ensures { option_map (λ found. (found.0, found.1.now)) result ≡ way_of text.now }
{
    if let Some(rest) = behind(text, ">") {
        Some((true, rest))
    } else if let Some(rest) = behind(text, "<") {
        Some((false, rest))
    } else {
        None
    }
}

/// Whether a comparison asks for an order.
pub(crate) fn is_order(op: Op) -> bool
    ensures { result ≡ is_order op }
{
    match op {
        Op::Equal | Op::Differs => false,
        Op::Below | Op::Above => true,
    }
}
