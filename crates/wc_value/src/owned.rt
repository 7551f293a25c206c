//! Values that are handed on, put in a place or let go, written once for every type. Their types aren't taken apart here, so
//! whoever calls these is cheaper to prove than where a `?` writes out how a tree is let go.

ghost use Rattle.std.specs.Prelude.{◌≡◌, Ok, Err, IsOk, IfOk, IfErr, OnOk};

use std::mem;

/// A value, where it was filled. Else it is let go.
pub fn filled<T: Drop, E>(value: T, filling: Result<(), E>) -> Result<T, E>
    ensures given { IfOk result (λ given. given ≡ value) }
    ensures filled { OnOk result (IsOk filling) }
    ensures error { IfErr result (λ e. filling ≡ Err e) }
{
    match filling {
        Ok(()) => Ok(value),
        Err(error) => Err(error),
    }
}

/// Both, where there is the second. Where there is none the first is let go.
pub fn both<A: Drop, B, E>(first: A, second: Result<B, E>) -> Result<(A, B), E>
    ensures given { IfOk result (λ given. (given.0 ≡ first) × (second ≡ Ok given.1)) }
    ensures error { IfErr result (λ e. second ≡ Err e) }
{
    match second {
        Ok(second) => Ok((first, second)),
        Err(error) => Err(error),
    }
}

/// Whether something came. What came is let go.
pub fn done<T: Drop, E>(outcome: Result<T, E>) -> Result<(), E>
    ensures given { OnOk result (IsOk outcome) }
    ensures error { IfErr result (λ e. outcome ≡ Err e) }
{
    match outcome {
        Ok(_) => Ok(()),
        Err(error) => Err(error),
    }
}

/// Lets a value go.
pub fn let_go<T: Drop>(_value: T) {}

/// Puts a value in the place of another, which is let go.
pub fn put<T: Drop>(place: &mut T, value: T)
    ensures { place.new ≡ value }
{
    let_go(mem::replace(place, value));
}

/// Puts a value in the place of another, where there is one. Else what is there stays.
pub fn put_given<T: Drop, E>(place: &mut T, value: Result<T, E>) -> Result<(), E>
    ensures given { OnOk result (value ≡ Ok place.new) }
    ensures error { IfErr result (λ e. (value ≡ Err e) × (place.new ≡ place.old)) }
{
    match value {
        Ok(value) => {
            put(place, value);
            Ok(())
        }
        Err(error) => Err(error),
    }
}
