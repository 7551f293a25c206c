//! Tests of nodes, read from words.

ghost use Rattle.std.specs.Prelude.{◌≡◌, IfOk};
ghost use Rattle.std.specs.Option.{option_copied};
ghost use Rattle.wc_query.specs.Pieces.{pieces_of};
ghost use Rattle.wc_query.specs.Words.{operand_of, compared, filter_of, read_all, node_of};

use crate::names::{field_of, is_kind, is_order, is_state, op_of};
use crate::pieces::first_piece;
use crate::query::{Field, Filter, Filters, NodeTest, Op, Operand};
use std::alloc::{AllocError, Global};
use wc_expression::read_number;
use wc_value::Text;

/// What a field is compared with.
fn operand_of(
    alloc: Global,
    field: Field,
    op: Op,
    text: &str,
) -> Result<Option<Operand>, AllocError>
    ensures { IfOk result (λ operand. operand ≡ operand_of field op text.now) }
{
    match field {
        Field::Name if is_order(op) => Ok(None),
        Field::Name => Ok(Some(Operand::Word(Text::of_str(alloc, text)?))),
        Field::State if is_order(op) || !is_state(text) => Ok(None),
        Field::State => Ok(Some(Operand::Word(Text::of_str(alloc, text)?))),
        Field::Id | Field::Status | Field::Value => Ok(read_number(text).map(Operand::Number)),
    }
}

/// The filter of a field behind which this text stands.
fn compared(alloc: Global, field: Field, text: &str) -> Result<Option<Filter>, AllocError>
    ensures { IfOk result (λ filter. filter ≡ compared field text.now) }
{
    let Some((op, rest)) = op_of(text) else {
        return Ok(None);
    };
    match operand_of(alloc, field, op, rest)? {
        Some(operand) => Ok(Some(Filter { field, op, operand })),
        None => Ok(None),
    }
}

/// The filter that a text is.
#[tactic(auto, unfolding(crate::specs::Words::filter_of))]
fn filter_of(alloc: Global, text: &str) -> Result<Option<Filter>, AllocError>
    ensures { IfOk result (λ filter. filter ≡ filter_of text.now) }
{
    match field_of(text) {
        Some((field, rest)) => compared(alloc, field, rest),
        None => Ok(None),
    }
}

/// The filters that a text joins by commas; none where there is no text.
fn filters_of(alloc: Global, text: Option<&str>) -> Result<Option<Filters>, AllocError>
    ensures { IfOk result (λ filters. filters ≡ read_all filter_of (pieces_of (option_copied text.entry))) }
{
    let mut filters = Filters::new(alloc);
    let mut left = text;
    while let Some(text) = left {
        let (piece, rest) = first_piece(text);
        match filter_of(alloc, piece)? {
            Some(filter) => filters.push(filter)?,
            None => return Ok(None),
        }
        left = rest;
    }
    Ok(Some(filters))
}

/// The test of a node that a word is.
#[tactic(auto, unfolding(crate::specs::Words::node_of))]
pub(crate) fn node_of(alloc: Global, word: &str) -> Result<Option<NodeTest>, AllocError>
    ensures { IfOk result (λ test. test ≡ node_of word.now) }
{
    let (kind, rest) = first_piece(word);
    if !is_kind(kind) {
        return Ok(None);
    }
    match filters_of(alloc, rest)? {
        Some(filters) => Ok(Some(NodeTest {
            kind: Text::of_str(alloc, kind)?,
            filters,
        })),
        None => Ok(None),
    }
}
