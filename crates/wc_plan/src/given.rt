//! Inputs that are given in words, beside those of a file.

ghost use Rattle.std.specs.Prelude.{◌≡◌, IfOk};
ghost use Rattle.std.specs.Option.{option_copied};
ghost use Rattle.wc_meaning.specs.Inputs.{least, least_after};
ghost use Rattle.wc_expression.specs.Val.{is_allowed};
ghost use Rattle.wc_plan.specs.Given.{bool_in_words, value_in_words, allowed, given_value, times_given, unread, ill_given, fields_of, IsGiven};

use std::alloc::AllocError;
use wc_cli::Given;
use wc_expression::read_number;
use wc_meaning::lesser_name;
use wc_semantics::port_kind;
use wc_syntax::Port;
use wc_value::{Duplicate, Fields, Kind, Text, Value, is_within};

/// The most canonical bytes of a value in words.
const MOST_BYTES: usize = 4_194_304;

/// The most levels of a value in words.
const MOST_LEVELS: u32 = 32;

/// The truth value that a text writes, if it writes one.
fn bool_of(text: &str) -> Option<bool>
    ensures { result ≡ bool_in_words text.now }
{
    match text {
        "true" => Some(true),
        "false" => Some(false),
        _ => None,
    }
}

/// The value of a kind that a text writes, if it writes one. Lists, dictionaries and folders have no form in words.
fn value_of(kind: Kind, text: &Text) -> Result<Option<Value>, AllocError>
    ensures { IfOk result (λ v. v ≡ value_in_words kind text.now) }
{
    match kind {
        Kind::Int => match read_number(text.as_str()) {
            Some(n) => Ok(Some(Value::Int(n))),
            None => Ok(None),
        },
        Kind::Bool => match bool_of(text.as_str()) {
            Some(b) => Ok(Some(Value::Bool(b))),
            None => Ok(None),
        },
        Kind::Text => Ok(Some(Value::Text(text.copy()?))),
        _ => Ok(None),
    }
}

/// Whether a value is within the limits.
fn is_allowed(value: &Value) -> bool
    ensures { result ≡ is_allowed value.now }
{
    is_within(value, MOST_BYTES, MOST_LEVELS)
}

/// The value, if it is within the limits.
fn allowed(value: Option<Value>) -> Option<Value>
    ensures { result ≡ allowed value }
{
    match value {
        Some(value) => {
            if is_allowed(&value) {
                Some(value)
            } else {
                None
            }
        }
        None => None,
    }
}

/// The value that a word gives to its port, if there is such a port and the word writes a value of its kind within the limits.
fn value_given(ports: &[Port], given: &Given) -> Result<Option<Value>, AllocError>
    ensures { IfOk result (λ v. v ≡ given_value ports.now given.now) }
{
    match port_kind(ports, given.0.bytes()) {
        Some(kind) => Ok(allowed(value_of(kind, &given.1)?)),
        None => Ok(None),
    }
}

/// How often a name is given.
fn count_given(given: &[Given], name: &[u8]) -> usize
    ensures { result ≡ times_given name.now given.now }
{
    let mut count = 0;
    for (port, _) in given {
        if port.bytes() == name {
            count += 1;
        }
    }
    count
}

/// The least of the ports that are given more than once, in words or in words and a file, or are required and not given.
fn least_ill_given<'a>(ports: &'a [Port], given: &[Given], file: &Fields) -> Option<&'a Text>
    ensures { option_copied result ≡ least (ill_given ports.entry.now given.now file.now) }
{
    let mut best = None;
    for port in ports {
        let count = count_given(given, port.name.text.bytes());
        let filed = file.find(port.name.text.bytes()).is_some();
        if count > 1 || (count > 0 && filed) || (count == 0 && !filed && !port.optional) {
            best = lesser_name(best, &port.name.text);
        }
    }
    best
}

/// The inputs that the words give, by port, beside those of a file, and the least of a name and those that are given and have no value so.
fn take_given<'a>(
    ports: &[Port],
    given: &'a [Given],
    file: Fields,
    bad: Option<&'a Text>,
) -> Result<(Fields, Option<&'a Text>), AllocError>
    ensures fields { IfOk result (λ r. r.0 ≡ fields_of ports.now given.entry.now file) }
    ensures bad { IfOk result (λ r. option_copied r.1 ≡ least_after (option_copied bad.entry) (unread ports.now given.entry.now)) }
{
    let mut fields = file;
    let mut bad = bad;
    for one in given {
        match value_given(ports, one)? {
            Some(value) => fields.set(one.0.copy()?, value)?,
            None => bad = lesser_name(bad, &one.0),
        }
    }
    Ok((fields, bad))
}

/// The inputs that the words give, by port, beside those of a file, or else the least port, by the bytes of its name, that is given badly: it
/// isn't there, is given twice, in words or in words and the file, isn't given a value of its kind, or is required and not given. Each word
/// is read once.
#[tactic(auto, using(crate::proofs::GivenBadly::bad_is))]
pub fn read_given(
    ports: &[Port],
    given: &[Given],
    file: Fields,
) -> Result<Result<Fields, Text>, AllocError>
    ensures { IfOk result (IsGiven ports.now given.now file) }
{
    let ill = least_ill_given(ports, given, &file);
    let (fields, bad) = take_given(ports, given, file, ill)?;
    match bad {
        Some(port) => Ok(Err(port.copy()?)),
        None => Ok(Ok(fields)),
    }
}
