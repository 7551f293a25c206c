//! The words of the command line.
ghost use Rattle.std.specs.Prelude.{◌≡◌, ◌++◌, [], map, string_bytes, IfOk, OnOk};
ghost use Rattle.std.specs.Vec.Iter.{into_iter_items};
ghost use Rattle.wc_app.specs.Words.{words_behind, AreWords};

use std::alloc::{AllocError, Global};
use std::env::Args;
use std::io;
use wc_value::{List, Text, Words, filled};

/// Puts texts behind others.
fn put_texts(texts: Args, words: &mut Words) -> Result<(), AllocError>
    ensures { OnOk result (words.new ≡ words.old ++ map string_bytes (into_iter_items texts)) }
{
    for text in texts {
        words.push(Text::of_string(text)?)?;
    }
    Ok(())
}

/// The texts behind the first one, which is the program's name.
fn behind_name(alloc: Global, texts: Args) -> Result<Words, AllocError>
    ensures { IfOk result (λ words. words ≡ words_behind (map string_bytes (into_iter_items texts))) }
{
    let mut texts = texts;
    let _ = texts.next();
    let mut words: Words = List::new(alloc);
    let put = put_texts(texts, &mut words);
    filled(words, put)
}

/// The words of the command line, without the program's name. Those that aren't text are no command, as no words at all.
pub fn words_of(alloc: Global, told: io::Result<Args>) -> Result<Words, AllocError>
    ensures { IfOk result (λ words. AreWords (λ texts. map string_bytes (into_iter_items texts)) told words) }
{
    match told {
        Ok(texts) => behind_name(alloc, texts),
        Err(error) if error.kind() == io::ErrorKind::InvalidData => Ok(List::new(alloc)),
        Err(_) => Err(AllocError),
    }
}
