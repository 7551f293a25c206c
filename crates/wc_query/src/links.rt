//! Links, read from words.

ghost use Rattle.std.specs.Prelude.{◌≡◌, IfOk};
ghost use Rattle.wc_query.specs.Words.{types_of, link_of};

use crate::names::{link_type_of, way_of};
use crate::pieces::{first_piece, without_star};
use crate::query::LinkTest;
use std::alloc::{AllocError, Global};
use wc_graph::LinkSet;

/// The link types that a text joins by commas.
fn types_of(alloc: Global, text: &str) -> Result<Option<LinkSet>, AllocError>
    ensures { IfOk result (λ types. types ≡ types_of text.now) }
{
    let mut types = LinkSet::new(alloc);
    let mut left = Some(text);
    while let Some(text) = left {
        let (piece, rest) = first_piece(text);
        match link_type_of(piece) {
            Some(link) => types.push(link)?,
            None => return Ok(None),
        }
        left = rest;
    }
    Ok(Some(types))
}

/// The link that a word is.
#[tactic(auto, unfolding(crate::specs::Words::link_of))]
pub(crate) fn link_of(alloc: Global, word: &str) -> Result<Option<LinkTest>, AllocError>
    ensures { IfOk result (λ link. link ≡ link_of word.now) }
{
    let Some((forward, text)) = way_of(word) else {
        return Ok(None);
    };
    let (text, walk) = match without_star(text) {
        Some(types) => (types, true),
        None => (text, false),
    };
    match types_of(alloc, text)? {
        Some(types) => Ok(Some(LinkTest {
            forward,
            types,
            walk,
        })),
        None => Ok(None),
    }
}
