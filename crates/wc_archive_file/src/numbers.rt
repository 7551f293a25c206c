//! The numbers of an archive.

ghost use Rattle.std.specs.Prelude.{◌≡◌, ◌<◌, ◌^◌, FitsSigned};
ghost use Rattle.std.specs.Int.{w64};
ghost use Rattle.serde_json.specs.View.{view};
ghost use Rattle.wc_archive_file.specs.Archives.{code_data, number_data};
ghost use Rattle.wc_archive_file.specs.Reads.{Reads, below_zero, is_written_so};

use crate::misread::Misread;
use serde_json::Value as Json;

/// A whole number within 64 bits without sign.
pub(crate) fn u64_of(json: &Json) -> Result<u64, Misread>
    ensures { Reads number_data (λ n. n < 2 ^ 64) (view json.now) result }
{
    match json.as_u64() {
        Some(number) => Ok(number),
        None => Err(Misread::Shape),
    }
}

/// A whole number within 32 bits without sign.
pub(crate) fn u32_of(json: &Json) -> Result<u32, Misread>
    ensures { Reads number_data (λ n. n < 2 ^ 32) (view json.now) result }
{
    let number = u64_of(json)?;
    if number <= u64::from(u32::MAX) {
        Ok(number as u32)
    } else {
        Err(Misread::Shape)
    }
}

/// Whether there is a number, and it is below zero.
fn is_below_zero(code: Option<i64>) -> bool
    ensures { result ≡ below_zero code }
{
    match code {
        Some(code) => code < 0,
        None => false,
    }
}

/// Whether the number is read as it is written: below zero, or with no sign.
fn is_written_so(json: &Json) -> bool
    ensures { result ≡ is_written_so (view json.now) }
{
    is_below_zero(json.as_i64()) || json.is_u64()
}

/// A whole number within 64 bits with sign.
pub(crate) fn code_of(json: &Json) -> Result<i64, Misread>
    ensures { Reads code_data (FitsSigned w64) (view json.now) result }
{
    match json.as_i64() {
        Some(code) => {
            if is_written_so(json) {
                Ok(code)
            } else {
                Err(Misread::Shape)
            }
        }
        None => Err(Misread::Shape),
    }
}
