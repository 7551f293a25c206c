//! The text of a value.

ghost use Rattle.std.specs.Prelude.{◌≡◌, ◌++◌, IfOk, OnOk, string_bytes};
ghost use Rattle.wc_report.specs.Names.{value_text};

use crate::names::kind_name;
use std::alloc::{AllocError, Global};
use wc_json::to_json;
use wc_value::{Text, Value};

/// A value with its kind: `KIND JSON`.
pub fn value_text(alloc: Global, value: &Value) -> Result<Text, AllocError>
    ensures { IfOk result (λ text. text ≡ value_text value.now) }
{
    let mut out = String::new(alloc);
    put_value(alloc, &mut out, value)?;
    Text::of_string(out)
}

/// Writes a value with its kind.
pub fn put_value(alloc: Global, out: &mut String, value: &Value) -> Result<(), AllocError>
    ensures { OnOk result (string_bytes out.new ≡ string_bytes out.old ++ value_text value.now) }
{
    out.push_str(kind_name(value.kind()))?;
    out.push_str(" ")?;
    let json = to_json(alloc, value)?;
    out.push_str(json.as_str())
}
