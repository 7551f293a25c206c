//! Texts, and their tokens. A number behind `@` is an offset.

use crate::shown::Shown;
use std::alloc::Global;
use wc_lexer::{Spot, Token, tokens};
use wc_value::Text;

/// Puts a token.
fn put_token(shown: &mut Shown, token: &Token) {
    match token {
        Token::Name(name) => shown.put(name.as_str()),
        Token::Number(number) => shown.put_item(number),
        Token::Quoted(content) => {
            shown.put("<");
            shown.put(content.as_str());
            shown.put(">");
        }
        Token::Word(word) => shown.put_word(word),
        Token::Symbol(symbol) => shown.put_word(symbol),
    }
}

/// Puts tokens with their offsets.
fn put_list(shown: &mut Shown, list: &[Spot]) {
    for (token, at) in list {
        put_token(shown, token);
        shown.put("@");
        shown.put_item(at);
        shown.put(" ");
    }
}

/// Puts the tokens of a text, or why it has none.
pub fn put_tokens(alloc: Global, shown: &mut Shown, text: &Text) {
    match tokens(alloc, text) {
        Ok(list) => put_list(shown, list.as_slice()),
        Err(error) => shown.put_item(&error),
    }
}
