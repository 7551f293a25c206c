//! Libraries in the bytes of changes.

ghost use Rattle.std.specs.Prelude.{◌≡◌, ◌↔◌, ◌≤◌, length, IsTrue, Ok, IfOk, IfSome};
ghost use Rattle.wc_syntax.specs.Writable.{IsWritable};
ghost use Rattle.wc_parser.specs.Parsing.{TextSays};
ghost use Rattle.wc_parser.specs.declared.error.ParseError.TheVariants as refusal;
ghost use Rattle.wc_check.specs.declared.error.CheckError.TheVariants as finding;
ghost use Rattle.wc_world.specs.Fits.{comes_after};
ghost use Rattle.wc_record.specs.Readers.{Answers, counted, last_of, name};
ghost use Rattle.wc_record.specs.Fields.{names};
ghost use Rattle.wc_record.specs.Reading.{IsPrinted, library, Told};
ghost use Rattle.wc_record.specs.Libraries.{Prints};

use crate::error::RecordError;
use crate::pieces::{text_at, u32_at};
use std::alloc::{AllocError, Global};
use std::collections::BTreeMap;
use std::marker::Model;
use wc_check::{CheckError, check};
use wc_parser::{ParseError, parse};
use wc_syntax::{Checked, Printed};
use wc_value::{Text, Words, same_text};

/// Whether memory ran out in checking.
fn is_unchecked(error: &CheckError) -> bool
    ensures { IsTrue result ↔ (error.now ≡ finding.OutOfMemory) }
{
    matches!(error, CheckError::OutOfMemory)
}

/// Whether memory ran out in parsing.
fn is_unparsed(error: &ParseError) -> bool
    ensures { IsTrue result ↔ (error.now ≡ refusal.OutOfMemory) }
{
    matches!(error, ParseError::OutOfMemory)
}

/// A library that was parsed, where it meets the rules and prints as the text that it was parsed from.
fn checked_of(alloc: Global, text: &Text, library: Printed) -> Result<Option<Checked>, AllocError>
    requires says { TextSays text.now (Ok library) }
    requires writable { IsWritable library }
    ensures { IfOk result (λ found. Prints text.now found) }
{
    let printed = library.text(alloc)?;
    if !same_text(&printed, text) {
        return Ok(None);
    }
    match check(alloc, library) {
        Ok(checked) => Ok(Some(checked)),
        Err(error) => {
            if is_unchecked(&error) {
                return Err(AllocError);
            }
            Ok(None)
        }
    }
}

/// The library whose printed text this is, if there is one.
fn library_of(alloc: Global, text: &Text) -> Result<Option<Checked>, AllocError>
    ensures { IfOk result (λ found. Prints text.now found) }
{
    match parse(alloc, text) {
        Ok(library) => checked_of(alloc, text, library),
        Err(error) => {
            if is_unparsed(&error) {
                return Err(AllocError);
            }
            Ok(None)
        }
    }
}

/// The libraries that were read, each by the text that prints it. Where a text comes again, it stands for the same library, which is
/// shared and not read once more: a store has few files, and many processes of each. Contracts see how many there are.
#[derive(Drop)]
pub struct SharedLibraries {
    read: BTreeMap<Vec<u8>, Checked>,
}

impl Model for SharedLibraries {
    ghost use Rattle.std.specs.Prelude.{ℕ, length};
    ghost use Rattle.wc_record.specs.Libraries.{ArePrinted};

    ghost Value = { ℕ };

    ghost view = { λ l. length l.read.entries };

    ghost invariant = { λ l. ArePrinted l.read.entries };
}

impl SharedLibraries {
    /// None was read yet. This takes no memory.
    pub fn new(alloc: Global) -> SharedLibraries {
        SharedLibraries {
            read: BTreeMap::new(alloc),
        }
    }

    /// The library that is kept for this text.
    fn kept(&self, text: &Text) -> Option<&Checked>
        ensures { IfSome result (λ l. IsPrinted text.now l.now) }
    {
        self.read.get(text.bytes())
    }

    /// The library that this text prints, where it was read.
    fn shared(&self, text: &Text) -> Result<Option<Checked>, AllocError>
        ensures { IfOk result (λ found. IfSome found (λ l. IsPrinted text.now l)) }
    {
        match self.kept(text) {
            Some(library) => Ok(Some(library.clone()?)),
            None => Ok(None),
        }
    }

    /// Keeps what a text prints.
    fn keep(&mut self, alloc: Global, text: &Text, library: Checked) -> Result<(), AllocError>
        requires { IsPrinted text.now library }
    {
        let key = Vec::from_slice(alloc, text.bytes())?;
        self.read.insert(key, library)?;
        Ok(())
    }

    /// The library whose printed text this is, if there is one.
    fn library_of(&mut self, alloc: Global, text: &Text) -> Result<Option<Checked>, AllocError>
        ensures { IfOk result (λ found. Prints text.now found) }
    {
        if let Some(library) = self.shared(text)? {
            return Ok(Some(library));
        }
        let found = library_of(alloc, text)?;
        if let Some(library) = &found {
            self.keep(alloc, text, library.clone()?)?;
        }
        Ok(found)
    }
}

/// The library whose printed text stands at a place, and the place behind it.
pub fn library_at(
    alloc: Global,
    bytes: &[u8],
    at: usize,
    read: &mut SharedLibraries,
) -> Result<(Checked, usize), RecordError>
    requires { at ≤ length bytes.now }
    ensures answer { Told result (library bytes.now at) }
    ensures within { IfOk result (λ x. x.1 ≤ length bytes.now) }
{
    let (text, next) = text_at(alloc, bytes, at)?;
    match read.library_of(alloc, &text)? {
        Some(library) => Ok((library, next)),
        None => Err(RecordError::BadLibrary(at + 4)),
    }
}

/// Whether a name comes after the last of those in front.
fn comes_after(front: &Words, name: &Text) -> bool
    ensures { result ≡ comes_after (last_of front.now) name.now }
{
    match front.as_slice().last() {
        None => true,
        Some(last) => last.bytes().cmp(&name.bytes()).is_lt(),
    }
}

/// A name that comes after those in front.
fn name_at(
    alloc: Global,
    front: &Words,
    bytes: &[u8],
    at: usize,
) -> Result<(Text, usize), RecordError>
    requires { at ≤ length bytes.now }
    ensures answer { Answers result (name front.now bytes.now at) }
    ensures within { IfOk result (λ x. x.1 ≤ length bytes.now) }
{
    let (name, next) = text_at(alloc, bytes, at)?;
    if comes_after(front, &name) {
        Ok((name, next))
    } else {
        Err(RecordError::Unsorted(at))
    }
}

/// The names of a library's definitions that have caching on.
#[tactic(auto, using(crate::proofs::Readings::several_at))]
pub fn names_at(alloc: Global, bytes: &[u8], at: usize) -> Result<(Words, usize), RecordError>
    requires { at ≤ length bytes.now }
    ensures answer { Answers result (names bytes.now at) }
    ensures within { IfOk result (λ x. x.1 ≤ length bytes.now) }
{
    let (count, start) = u32_at(bytes, at)?;
    let mut found = Words::new(alloc);
    let mut place = start;
    for _item in 0..count {
        let (name, next) = name_at(alloc, &found, bytes, place)?;
        found.push(name)?;
        place = next;
    }
    Ok((found, place))
}
