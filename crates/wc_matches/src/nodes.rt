//! Which nodes meet a test.

ghost use Rattle.std.specs.Prelude.{◌≡◌, pos};
ghost use Rattle.std.specs.Option.{option_copied};
ghost use Rattle.wc_graph.specs.Rules.{node_of};
ghost use Rattle.wc_query.specs.declared.query.Operand.TheVariants.{Word as W, Number as N};
ghost use Rattle.wc_matches.specs.Meets.{state_word, compares, compares_text, holds, passes, is_process_kind, is_node_kind, is_of_kind, meets};

use wc_graph::NodeKind;
use wc_query::{Field, Filter, NodeTest, Op, Operand};
use wc_report::{kind_name, process_kind_name};
use wc_value::{ProcessState, Value};
use wc_world::World;

/// The first word of a state.
fn state_word(state: ProcessState) -> &'static str
    ensures { result.now ≡ state_word state }
{
    match state {
        ProcessState::Created => "created",
        ProcessState::Running => "running",
        ProcessState::Waiting => "waiting",
        ProcessState::Finished(_) => "finished",
        ProcessState::Excepted(_) => "excepted",
        ProcessState::Killed => "killed",
    }
}

/// The node with this number, if it is there.
fn node_of(world: &World, node: u32) -> Option<&NodeKind>
    ensures { option_copied result ≡ node_of world.now.world.nodes node }
{
    if node == 0 {
        return None;
    }
    world.graph().nodes().get(node as usize - 1)
}

/// Whether two numbers compare so.
fn compares(op: Op, left: i64, right: i64) -> bool
    ensures { result ≡ compares op left right }
{
    match op {
        Op::Equal => left == right,
        Op::Differs => left != right,
        Op::Below => left < right,
        Op::Above => left > right,
    }
}

/// Whether a number compares so with an operand.
fn number_holds(op: Op, number: i64, operand: &Operand) -> bool
    ensures { result ≡ holds op (N number) operand.now }
{
    match operand {
        Operand::Number(other) => compares(op, number, *other),
        Operand::Word(_) => false,
    }
}

/// Whether a text compares so with an operand.
fn text_holds(op: Op, text: &str, operand: &Operand) -> bool
    ensures { result ≡ holds op (W text.now) operand.now }
{
    match operand {
        Operand::Number(_) => false,
        Operand::Word(other) => match op {
            Op::Equal => text == other.as_str(),
            Op::Differs => text != other.as_str(),
            Op::Below | Op::Above => false,
        },
    }
}

/// Whether a node has the field of a filter, and what it has there compares so.
fn passes(world: &World, node: u32, filter: &Filter) -> bool
    ensures { result ≡ passes world.now.world node filter.now }
{
    let op = filter.op;
    let operand = &filter.operand;
    let record = world.record_of(node);
    match (filter.field, record) {
        (Field::Id, _) => number_holds(op, i64::from(node), operand),
        (Field::Value, _) => match node_of(world, node) {
            Some(NodeKind::Data(Value::Int(number))) => number_holds(op, *number, operand),
            _ => false,
        },
        (_, None) => false,
        (Field::Name, Some(process)) => text_holds(op, process.definition.as_str(), operand),
        (Field::State, Some(process)) => text_holds(op, state_word(process.state), operand),
        (Field::Status, Some(process)) => match process.state {
            ProcessState::Finished(status) => number_holds(op, i64::from(status), operand),
            _ => false,
        },
    }
}

/// Whether a process with this number is of a kind.
fn is_process_kind(world: &World, node: u32, kind: &str) -> bool
    ensures { result ≡ is_process_kind world.now.world node kind.now }
{
    match world.record_of(node) {
        Some(process) => kind == process_kind_name(process.kind),
        None => false,
    }
}

/// Whether a node is there and of a kind.
fn is_of_kind(world: &World, node: u32, kind: &str) -> bool
    ensures { result ≡ is_of_kind world.now.world node kind.now }
{
    match node_of(world, node) {
        None => false,
        Some(_) if kind == "any" => true,
        Some(NodeKind::Data(value)) => kind == "data" || kind == kind_name(value.kind()),
        Some(NodeKind::Calculation | NodeKind::Workflow) => {
            kind == "process" || is_process_kind(world, node, kind)
        }
    }
}

/// Whether a node is there, is of the kind of a test, and has in each filter's field what the filter asks.
#[tactic(auto, unfolding(crate::specs::Meets::meets))]
pub fn meets(world: &World, test: &NodeTest, node: u32) -> bool
    ensures { result ≡ meets world.now.world test.now node }
{
    if !is_of_kind(world, node, test.kind.as_str()) {
        return false;
    }
    for filter in test.filters.as_slice() {
        if !passes(world, node, filter) {
            return false;
        }
    }
    true
}
