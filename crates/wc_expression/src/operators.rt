//! The values of operators and words at the values of their operands.

ghost use Rattle.std.specs.Prelude.{◌≡◌, ◌++◌, IfOk, not, ◌&&◌, ◌||◌};
ghost use Rattle.std.specs.Int.{int_min, int_max};
ghost use Rattle.std.specs.Ordering.{is_lt, is_le, is_gt, is_ge};
ghost use Rattle.wc_value.specs.declared.value.Value.{out-Value};
ghost use Rattle.wc_expression.specs.Outcomes.{mapped};
ghost use Rattle.wc_expression.specs.Whole.{difference, product, quotient, remainder};
ghost use Rattle.wc_expression.specs.Contents.{ints_of};
ghost use Rattle.wc_expression.specs.Operators.{plus, counted, decided, order, compared, equality, operated, settles, prefixed, of_one, of_two};

use crate::contents::{
    as_bools, as_ints, as_whole, contains, file, get, has, is_of_kind, line, print, size_of,
    trim_text,
};
use crate::outcome::Outcome;
use crate::whole::{add, divide, multiply, negate, remain, subtract};
use std::alloc::{AllocError, Global};
use std::cmp::Ordering;
use wc_syntax::{BinaryOp, OneOf, TwoOf, UnaryOp};
use wc_value::{Duplicate, Reason, Text, Value, Values, same_value};

/// A whole number as a value.
pub fn int_value(number: Outcome<i64>) -> Outcome<Value>
    ensures { result ≡ mapped (λ n. Value.Int n) number }
{
    match number {
        Outcome::Gives(n) => Outcome::Gives(Value::Int(n)),
        Outcome::Faults(reason) => Outcome::Faults(reason),
    }
}

/// A truth value as a value.
pub fn bool_value(truth: Outcome<bool>) -> Outcome<Value>
    ensures { result ≡ mapped (λ b. Value.Bool b) truth }
{
    match truth {
        Outcome::Gives(b) => Outcome::Gives(Value::Bool(b)),
        Outcome::Faults(reason) => Outcome::Faults(reason),
    }
}

/// A text as a value.
pub fn text_value(text: Outcome<Text>) -> Outcome<Value>
    ensures { result ≡ mapped (λ t. Value.Text t) text }
{
    match text {
        Outcome::Gives(text) => Outcome::Gives(Value::Text(text)),
        Outcome::Faults(reason) => Outcome::Faults(reason),
    }
}

// ---- operators between two values

/// The second text behind the first.
fn joined_texts(alloc: Global, left: &Text, right: &Text) -> Result<Text, AllocError>
    ensures { IfOk result (λ text. text ≡ left.now ++ right.now) }
{
    let mut joined = String::from_str(alloc, left.as_str())?;
    joined.push_str(right.as_str())?;
    Text::of_string(joined)
}

/// The second list behind the first.
fn joined_lists(left: Values, right: &Values) -> Result<Values, AllocError>
    ensures { IfOk result (λ values. values ≡ left ++ right.now) }
{
    let mut joined = left;
    for value in right.as_slice() {
        joined.push(value.copy()?)?;
    }
    Ok(joined)
}

/// The sum of two values: of whole numbers, or one text or list behind another.
fn add_values(alloc: Global, left: Value, right: &Value) -> Result<Outcome<Value>, AllocError>
    ensures { IfOk result (λ o. o ≡ plus (out-Value left) (out-Value right.now)) }
{
    match left {
        Value::Int(a) => match right {
            Value::Int(b) => Ok(int_value(add(a, *b))),
            _ => Ok(Outcome::Faults(Reason::WrongKind)),
        },
        Value::Text(a) => match right {
            Value::Text(b) => Ok(Outcome::Gives(Value::Text(joined_texts(alloc, &a, b)?))),
            _ => Ok(Outcome::Faults(Reason::WrongKind)),
        },
        Value::List(a) => match right {
            Value::List(b) => Ok(Outcome::Gives(Value::List(joined_lists(a, b)?))),
            _ => Ok(Outcome::Faults(Reason::WrongKind)),
        },
        _ => Ok(Outcome::Faults(Reason::WrongKind)),
    }
}

/// The difference of two values.
fn subtract_values(left: &Value, right: &Value) -> Outcome<Value>
    ensures { result ≡ counted difference (out-Value left.now) (out-Value right.now) }
{
    match as_ints(left, right) {
        Outcome::Gives((a, b)) => int_value(subtract(a, b)),
        Outcome::Faults(reason) => Outcome::Faults(reason),
    }
}

/// The product of two values.
fn multiply_values(left: &Value, right: &Value) -> Outcome<Value>
    ensures { result ≡ counted product (out-Value left.now) (out-Value right.now) }
{
    match as_ints(left, right) {
        Outcome::Gives((a, b)) => int_value(multiply(a, b)),
        Outcome::Faults(reason) => Outcome::Faults(reason),
    }
}

/// The quotient of two values.
fn divide_values(left: &Value, right: &Value) -> Outcome<Value>
    ensures { result ≡ counted quotient (out-Value left.now) (out-Value right.now) }
{
    match as_ints(left, right) {
        Outcome::Gives((a, b)) => int_value(divide(a, b)),
        Outcome::Faults(reason) => Outcome::Faults(reason),
    }
}

/// What the quotient of two values leaves.
fn remain_values(left: &Value, right: &Value) -> Outcome<Value>
    ensures { result ≡ counted remainder (out-Value left.now) (out-Value right.now) }
{
    match as_ints(left, right) {
        Outcome::Gives((a, b)) => int_value(remain(a, b)),
        Outcome::Faults(reason) => Outcome::Faults(reason),
    }
}

/// Whether both of two values hold.
fn both_hold(left: &Value, right: &Value) -> Outcome<Value>
    ensures { result ≡ decided (λ x y. x && y) (out-Value left.now) (out-Value right.now) }
{
    match as_bools(left, right) {
        Outcome::Gives((a, b)) => Outcome::Gives(Value::Bool(a && b)),
        Outcome::Faults(reason) => Outcome::Faults(reason),
    }
}

/// Whether one of two values holds.
fn either_holds(left: &Value, right: &Value) -> Outcome<Value>
    ensures { result ≡ decided (λ x y. x || y) (out-Value left.now) (out-Value right.now) }
{
    match as_bools(left, right) {
        Outcome::Gives((a, b)) => Outcome::Gives(Value::Bool(a || b)),
        Outcome::Faults(reason) => Outcome::Faults(reason),
    }
}

/// Whether two values of one kind are equal.
fn are_equal(left: &Value, right: &Value) -> Outcome<bool>
    ensures { result ≡ equality left.now right.now }
{
    if is_of_kind(right, left.kind()) {
        Outcome::Gives(same_value(left, right))
    } else {
        Outcome::Faults(Reason::WrongKind)
    }
}

/// Whether two values of one kind differ.
fn differ(left: &Value, right: &Value) -> Outcome<Value>
    ensures { result ≡ mapped (λ same. Value.Bool (not same)) (equality left.now right.now) }
{
    match are_equal(left, right) {
        Outcome::Gives(same) => Outcome::Gives(Value::Bool(!same)),
        Outcome::Faults(reason) => Outcome::Faults(reason),
    }
}

/// How two whole numbers compare, or two texts by their bytes.
fn compare(left: &Value, right: &Value) -> Outcome<Ordering>
    ensures { result ≡ order (out-Value left.now) (out-Value right.now) }
{
    match left {
        Value::Int(a) => match right {
            Value::Int(b) => Outcome::Gives(a.cmp(b)),
            _ => Outcome::Faults(Reason::WrongKind),
        },
        Value::Text(a) => match right {
            Value::Text(b) => Outcome::Gives(a.bytes().cmp(&b.bytes())),
            _ => Outcome::Faults(Reason::WrongKind),
        },
        _ => Outcome::Faults(Reason::WrongKind),
    }
}

/// Whether the first value is less.
fn is_less(left: &Value, right: &Value) -> Outcome<Value>
    ensures { result ≡ compared is_lt (out-Value left.now) (out-Value right.now) }
{
    match compare(left, right) {
        Outcome::Gives(order) => Outcome::Gives(Value::Bool(order.is_lt())),
        Outcome::Faults(reason) => Outcome::Faults(reason),
    }
}

/// Whether the first value is less, or they are equal.
fn is_at_most(left: &Value, right: &Value) -> Outcome<Value>
    ensures { result ≡ compared is_le (out-Value left.now) (out-Value right.now) }
{
    match compare(left, right) {
        Outcome::Gives(order) => Outcome::Gives(Value::Bool(order.is_le())),
        Outcome::Faults(reason) => Outcome::Faults(reason),
    }
}

/// Whether the first value is greater.
fn is_greater(left: &Value, right: &Value) -> Outcome<Value>
    ensures { result ≡ compared is_gt (out-Value left.now) (out-Value right.now) }
{
    match compare(left, right) {
        Outcome::Gives(order) => Outcome::Gives(Value::Bool(order.is_gt())),
        Outcome::Faults(reason) => Outcome::Faults(reason),
    }
}

/// Whether the first value is greater, or they are equal.
fn is_at_least(left: &Value, right: &Value) -> Outcome<Value>
    ensures { result ≡ compared is_ge (out-Value left.now) (out-Value right.now) }
{
    match compare(left, right) {
        Outcome::Gives(order) => Outcome::Gives(Value::Bool(order.is_ge())),
        Outcome::Faults(reason) => Outcome::Faults(reason),
    }
}

/// The value of an operator between two values.
pub fn operate(
    alloc: Global,
    op: BinaryOp,
    left: Value,
    right: &Value,
) -> Result<Outcome<Value>, AllocError>
    ensures { IfOk result (λ o. o ≡ operated op left right.now) }
{
    match op {
        BinaryOp::Or => Ok(either_holds(&left, right)),
        BinaryOp::And => Ok(both_hold(&left, right)),
        BinaryOp::Equal => Ok(bool_value(are_equal(&left, right))),
        BinaryOp::Differs => Ok(differ(&left, right)),
        BinaryOp::Less => Ok(is_less(&left, right)),
        BinaryOp::AtMost => Ok(is_at_most(&left, right)),
        BinaryOp::Greater => Ok(is_greater(&left, right)),
        BinaryOp::AtLeast => Ok(is_at_least(&left, right)),
        BinaryOp::Add => add_values(alloc, left, right),
        BinaryOp::Subtract => Ok(subtract_values(&left, right)),
        BinaryOp::Multiply => Ok(multiply_values(&left, right)),
        BinaryOp::Divide => Ok(divide_values(&left, right)),
        BinaryOp::Remainder => Ok(remain_values(&left, right)),
    }
}

/// Whether the left operand is the value of the operator, so that the right one isn't evaluated.
pub fn settles(op: BinaryOp, left: &Value) -> bool
    ensures { result ≡ settles op (out-Value left.now) }
{
    match op {
        BinaryOp::And => match left {
            Value::Bool(b) => !*b,
            _ => false,
        },
        BinaryOp::Or => match left {
            Value::Bool(b) => *b,
            _ => false,
        },
        _ => false,
    }
}

// ---- operators and words of one value

/// The value of an operator before a value.
pub fn prefix(op: UnaryOp, value: &Value) -> Outcome<Value>
    ensures { result ≡ prefixed op (out-Value value.now) }
{
    match op {
        UnaryOp::Negate => match value {
            Value::Int(n) => int_value(negate(*n)),
            _ => Outcome::Faults(Reason::WrongKind),
        },
        UnaryOp::Not => match value {
            Value::Bool(b) => Outcome::Gives(Value::Bool(!*b)),
            _ => Outcome::Faults(Reason::WrongKind),
        },
    }
}

/// The value of a word with one argument.
pub fn apply_one(alloc: Global, word: OneOf, value: &Value) -> Result<Outcome<Value>, AllocError>
    ensures { IfOk result (λ o. o ≡ of_one word (out-Value value.now)) }
{
    match word {
        OneOf::Text => Ok(text_value(print(alloc, value)?)),
        OneOf::Int => Ok(int_value(as_whole(value))),
        OneOf::Trim => Ok(text_value(trim_text(alloc, value)?)),
        OneOf::Len => Ok(int_value(size_of(value))),
    }
}

// ---- words of two values

/// The lesser of two whole numbers.
fn least(left: &Value, right: &Value) -> Outcome<Value>
    ensures { result ≡ mapped (λ p. Value.Int (int_min p.0 p.1)) (ints_of (out-Value left.now) (out-Value right.now)) }
{
    match as_ints(left, right) {
        Outcome::Gives((a, b)) => Outcome::Gives(Value::Int(a.min(b))),
        Outcome::Faults(reason) => Outcome::Faults(reason),
    }
}

/// The greater of two whole numbers.
fn greatest(left: &Value, right: &Value) -> Outcome<Value>
    ensures { result ≡ mapped (λ p. Value.Int (int_max p.0 p.1)) (ints_of (out-Value left.now) (out-Value right.now)) }
{
    match as_ints(left, right) {
        Outcome::Gives((a, b)) => Outcome::Gives(Value::Int(a.max(b))),
        Outcome::Faults(reason) => Outcome::Faults(reason),
    }
}

/// The value of a word with two arguments.
pub fn apply_two(
    alloc: Global,
    word: TwoOf,
    first: &Value,
    second: &Value,
) -> Result<Outcome<Value>, AllocError>
    ensures { IfOk result (λ o. o ≡ of_two word (out-Value first.now) (out-Value second.now)) }
{
    match word {
        TwoOf::Get => get(first, second),
        TwoOf::Has => Ok(bool_value(has(first, second))),
        TwoOf::File => Ok(text_value(file(first, second)?)),
        TwoOf::Line => Ok(text_value(line(alloc, first, second)?)),
        TwoOf::Contains => Ok(bool_value(contains(first, second))),
        TwoOf::Min => Ok(least(first, second)),
        TwoOf::Max => Ok(greatest(first, second)),
    }
}
