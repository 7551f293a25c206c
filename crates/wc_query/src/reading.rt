//! Queries, read from the words of a command line.

ghost use Rattle.std.specs.Prelude.{◌≡◌, ◌⊎◌, ◌<◌, ◌^◌, length, Ok, Err, Some, None, IfOk, IfErr, MatchResult};
ghost use Rattle.wc_query.specs.Words.{node_of, link_of, joins_of, query_of};

use crate::error::QueryError;
use crate::filters::node_of;
use crate::links::link_of;
use crate::query::{Joins, LinkTest, MOST_NODES, NodeTest, Query};
use std::alloc::Global;
use wc_value::{Text, Words};

/// The test of a node that the word at a place is.
fn node_at(alloc: Global, at: u32, word: &Text) -> Result<NodeTest, QueryError>
    ensures { MatchResult result (λ test. node_of word.now ≡ Some test)
        (λ e. (e ≡ QueryError.OutOfMemory) ⊎ ((node_of word.now ≡ None) × (e ≡ QueryError.BadWord at))) }
{
    match node_of(alloc, word.as_str())? {
        Some(test) => Ok(test),
        None => Err(QueryError::BadWord(at)),
    }
}

/// The link that the word at a place is.
fn link_at(alloc: Global, at: u32, word: &Text) -> Result<LinkTest, QueryError>
    ensures { MatchResult result (λ link. link_of word.now ≡ Some link)
        (λ e. (e ≡ QueryError.OutOfMemory) ⊎ ((link_of word.now ≡ None) × (e ≡ QueryError.BadWord at))) }
{
    match link_of(alloc, word.as_str())? {
        Some(link) => Ok(link),
        None => Err(QueryError::BadWord(at)),
    }
}

/// The links with the nodes behind them that words are, of which the first is the word at place 1.
fn joins_of(alloc: Global, words: &[Text]) -> Result<Joins, QueryError>
    requires { length words.now < 2 ^ 16 }
    ensures ok { IfOk result (λ joins. joins_of 1 words.now ≡ Ok joins) }
    ensures refused { IfErr result (λ e. (e ≡ QueryError.OutOfMemory) ⊎ (joins_of 1 words.now ≡ Err e)) }
{
    let mut joins = Joins::new(alloc);
    let mut left = words;
    let mut at = 1;
    while let [link, node, rest @ ..] = left {
        let link = link_at(alloc, at, link)?;
        let node = node_at(alloc, at + 1, node)?;
        joins.push((link, node))?;
        left = rest;
        at += 2;
    }
    Ok(joins)
}

/// The query that words are. Words of a node and of a link take turns, with one of a node at both ends.
pub fn parse_query(alloc: Global, words: &Words) -> Result<Query, QueryError>
    ensures ok { IfOk result (λ query. query_of words.now ≡ Ok query) }
    ensures refused { IfErr result (λ e. (e ≡ QueryError.OutOfMemory) ⊎ (query_of words.now ≡ Err e)) }
{
    let words = words.as_slice();
    if words.len() % 2 == 0 {
        return Err(QueryError::Shape);
    }
    if words.len() >= 2 * MOST_NODES {
        return Err(QueryError::TooLong);
    }
    let [node, rest @ ..] = words else {
        return Err(QueryError::Shape);
    };
    let first = node_at(alloc, 0, node)?;
    let more = joins_of(alloc, rest)?;
    Ok(Query { first, more })
}
