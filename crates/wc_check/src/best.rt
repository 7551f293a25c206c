//! What is found wrong, and which of the findings comes first.

ghost use Rattle.std.specs.Prelude.{◌≡◌, None, IfOk};
ghost use Rattle.wc_syntax.specs.Findings.{unless};
ghost use Rattle.wc_check.specs.Least.{least_after, lesser, number_of, stands_before, told};
ghost use Rattle.wc_check.specs.Refusals.{finding_seen, Says, SaysBest};

use crate::error::CheckError;
use std::alloc::{AllocError, Global};
use std::marker::Model;
use wc_value::Text;

/// A rule of a checked library, by what a refusal says of it.
#[derive(Clone, Copy)]
pub enum Fault {
    /// A name stands twice.
    Twice,
    /// A name stands for nothing.
    Unknown,
    /// A call lacks a port.
    PortMissing,
    /// A call gives a port that isn't there.
    PortUnknown,
    /// An output of a work chain isn't data.
    NotData,
    /// A status may not be declared, or isn't.
    BadStatus,
    /// There are too many items.
    TooMany,
    /// A name isn't one that may be.
    BadName,
}

impl Fault {
    /// Its number in the order of refusals at one place.
    fn number(self) -> u8
        ensures { result ≡ number_of self }
    {
        match self {
            Fault::Twice => 1,
            Fault::Unknown => 2,
            Fault::PortMissing => 3,
            Fault::PortUnknown => 4,
            Fault::NotData => 5,
            Fault::BadStatus => 6,
            Fault::TooMany => 7,
            Fault::BadName => 8,
        }
    }
}

/// What a finding names.
#[derive(Drop)]
pub enum Told<'a> {
    /// A name that stands in the file, a word, or nothing.
    Name(&'a str),
    /// The digits of a number.
    Digits(Text),
}

impl<'a> Told<'a> {
    /// The bytes of what a refusal names.
    fn bytes(&self) -> &[u8]
        ensures { result.now ≡ told self.now }
    {
        match self {
            Told::Name(name) => name.as_bytes(),
            Told::Digits(digits) => digits.bytes(),
        }
    }

    /// What a refusal names, as a text of its own.
    fn text(self, alloc: Global) -> Result<Text, AllocError>
        ensures { IfOk result (λ text. text ≡ told self.entry) }
    {
        match self {
            Told::Name(name) => Text::of_str(alloc, name),
            Told::Digits(digits) => Ok(digits),
        }
    }
}

/// A rule that is broken at a place of the file, with the name that stands there or none.
#[derive(Drop)]
pub struct Finding<'a> {
    /// The rule that is broken.
    pub fault: Fault,
    /// What the refusal names.
    pub name: Told<'a>,
    /// The offset of the place.
    pub at: u32,
}

impl<'a> Finding<'a> {
    /// The refusal that says this finding.
    fn refusal(self, alloc: Global) -> Result<CheckError, AllocError>
        ensures { IfOk result (λ e. Says e (finding_seen self.entry)) }
    {
        let Finding { fault, name, at } = self;
        let name = name.text(alloc)?;
        Ok(refusal_of(fault, name, at))
    }
}

/// The refusal for a fault, with the name and the place that it says.
fn refusal_of(fault: Fault, name: Text, at: u32) -> CheckError
    ensures { Says result (record { number = number_of fault; name = name; at = at }) }
{
    match fault {
        Fault::Twice => CheckError::Twice(name, at),
        Fault::Unknown => CheckError::Unknown(name, at),
        Fault::PortMissing => CheckError::PortMissing(name, at),
        Fault::PortUnknown => CheckError::PortUnknown(name, at),
        Fault::NotData => CheckError::NotData(at),
        Fault::BadStatus => CheckError::BadStatus(at),
        Fault::TooMany => CheckError::TooMany(at),
        Fault::BadName => CheckError::BadName(name, at),
    }
}

/// The first of the findings so far: that of the least place, then of the lowest number, then of the least name.
#[derive(Drop)]
pub struct Best<'a> {
    found: Option<Finding<'a>>,
}

impl<'a> Model for Best<'a> {
    ghost use Rattle.std.specs.Prelude.{Option};
    ghost use Rattle.std.specs.Option.{option_map};
    ghost use Rattle.wc_syntax.specs.Findings.{Finding};
    ghost use Rattle.wc_check.specs.Least.{number_of, told};

    ghost Value = { Option Finding };

    ghost view = { λ b. option_map (λ f. record { number = number_of f.fault; name = told f.name; at = f.at }) b.found };
}

impl<'a> Best<'a> {
    /// No finding.
    pub fn none() -> Best<'a>
        ensures { result ≡ None }
    {
        Best { found: None }
    }

    /// Whether the first so far stands before a place.
    pub fn is_before(&self, at: u32) -> bool
        ensures { result ≡ stands_before self.now at }
    {
        match &self.found {
            None => false,
            Some(found) => found.at < at,
        }
    }

    /// Takes the finding, where it comes before the first so far.
    pub fn offer_told(&mut self, fault: Fault, name: Told<'a>, at: u32)
        ensures { self.new ≡ lesser self.old (record { number = number_of fault; name = told name.entry; at = at }) }
    {
        let comes_before = match &self.found {
            None => true,
            Some(found) => at
                .cmp(&found.at)
                .then(fault.number().cmp(&found.fault.number()))
                .then(name.bytes().cmp(&found.name.bytes()))
                .is_lt(),
        };
        if comes_before {
            self.found = Some(Finding { fault, name, at });
        }
    }

    /// Takes the finding of a name, where it comes before the first so far.
    pub fn offer(&mut self, fault: Fault, name: &'a str, at: u32)
        ensures { self.new ≡ lesser self.old (record { number = number_of fault; name = name.now; at = at }) }
    {
        self.offer_told(fault, Told::Name(name), at);
    }

    /// Takes the finding of a name, unless the rule is kept.
    pub fn offer_unless(&mut self, is_kept: bool, fault: Fault, name: &'a str, at: u32)
        ensures { self.new ≡ least_after self.old (unless is_kept (record { number = number_of fault; name = name.now; at = at })) }
    {
        if !is_kept {
            self.offer(fault, name, at);
        }
    }

    /// The refusal that the first finding is, if there is one.
    pub fn refusal(self, alloc: Global) -> Result<Option<CheckError>, AllocError>
        ensures { IfOk result (λ found. SaysBest found self.entry) }
    {
        let Best { found } = self;
        match found {
            None => Ok(None),
            Some(finding) => {
                let error = finding.refusal(alloc)?;
                Ok(Some(error))
            }
        }
    }
}
