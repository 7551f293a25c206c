//! Arithmetic on whole numbers of 64 bits.

ghost use Rattle.std.specs.Prelude.{◌≡◌};
ghost use Rattle.wc_value.specs.declared.process.Reason.TheVariants.{Overflow};
ghost use Rattle.wc_expression.specs.Outcomes.{found};
ghost use Rattle.wc_expression.specs.Whole.{sum, difference, product, opposite, quotient, remainder, number_of};

use crate::outcome::Outcome;
use wc_value::Reason;

/// The number, or the reason that there is none of 64 bits.
fn or_overflow(number: Option<i64>) -> Outcome<i64>
    ensures { result ≡ found Overflow number }
{
    match number {
        Some(n) => Outcome::Gives(n),
        None => Outcome::Faults(Reason::Overflow),
    }
}

/// The sum.
pub fn add(a: i64, b: i64) -> Outcome<i64>
    ensures { result ≡ sum a b }
{
    or_overflow(a.checked_add(b))
}

/// The difference.
pub fn subtract(a: i64, b: i64) -> Outcome<i64>
    ensures { result ≡ difference a b }
{
    or_overflow(a.checked_sub(b))
}

/// The product.
pub fn multiply(a: i64, b: i64) -> Outcome<i64>
    ensures { result ≡ product a b }
{
    or_overflow(a.checked_mul(b))
}

/// The number with the other sign.
pub fn negate(a: i64) -> Outcome<i64>
    ensures { result ≡ opposite a }
{
    or_overflow(a.checked_neg())
}

/// The quotient, cut toward zero.
pub fn divide(a: i64, b: i64) -> Outcome<i64>
    ensures { result ≡ quotient a b }
{
    if b == 0 {
        return Outcome::Faults(Reason::DivideByZero);
    }
    or_overflow(a.checked_div(b))
}

/// What the quotient, cut toward zero, leaves. It is 0 for every number by -1.
pub fn remain(a: i64, b: i64) -> Outcome<i64>
    ensures { result ≡ remainder a b }
{
    if b == 0 {
        return Outcome::Faults(Reason::DivideByZero);
    }
    if b == -1 {
        return Outcome::Gives(0);
    }
    Outcome::Gives(a % b)
}

/// The whole number that a text spells: an optional `-` and one or more digits, within 64 bits.
pub fn read_number(text: &str) -> Option<i64>
    ensures { result ≡ number_of text.now }
{
    let bytes = text.as_bytes();
    if bytes.is_empty() || bytes[0] == b'+' {
        return None;
    }
    text.parse::<i64>().ok()
}
