//! Bytes and results that have a name.

use crate::content::Content;
use crate::mistake::Mistake;
use crate::source::Source;
use wc_value::{List, let_go};

/// Bytes and results that have names, in the order in which they were named.
#[derive(Drop)]
pub struct Names<'a> {
    /// The bytes.
    pub named: List<(&'a str, Content)>,
    /// The results: the text that begins with their lines.
    pub tables: List<(&'a str, &'a str)>,
}

/// What has this name.
pub fn find<'n, T>(named: &'n [(&str, T)], name: &str) -> Option<&'n T> {
    for (known, item) in named {
        if *known == name {
            return Some(item);
        }
    }
    None
}

/// Gives what has none a name that nothing has.
pub fn add<'a, T: Drop>(
    source: &mut Source<'a>,
    named: &mut List<(&'a str, T)>,
    name: &'a str,
    item: T,
) {
    if find(named.as_slice(), name).is_some() {
        source.fail(Mistake::Twice);
        let_go(item);
    } else {
        source.keep(named.push((name, item)));
    }
}
