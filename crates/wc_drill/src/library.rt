//! The library of generated chains.

ghost use Rattle.std.specs.Prelude.{◌≡◌, IfOk};
ghost use Rattle.wc_syntax.specs.Bare.{bare_library};
ghost use Rattle.wc_syntax.specs.Printing.{printed};
ghost use Rattle.wc_syntax.specs.Writable.{IsWritable};
ghost use Rattle.wc_drill.specs.Library.{library};
ghost use Rattle.wc_drill.specs.GeneratedRefusals.{IsParseMemory, IsCheckMemory};

use std::alloc::{AllocError, Global};
use wc_check::{CheckError, check};
use wc_parser::{ParseError, parse};
use wc_syntax::{Checked, Printed};
use wc_value::Text;

/// The printed text of the library.
fn library_text(alloc: Global) -> Result<Text, AllocError>
    ensures { IfOk result (λ text. text ≡ printed library) }
{
    Text::of_str(
        alloc,
        "calcjob square(x: int) -> (y: int) {
  program \"square\";
  arg text(x);
  fetch \"y\";
  parse {
    out y = int(trim(file(retrieved, \"y\")));
  }
}
calcfunction total(a: int, b: int) -> (s: int) {
  out s = (a + b);
}
workchain pair(a: int, b: int) -> (s: int) {
  step first {
    call square(x: inputs.a) to ctx.a;
    call square(x: inputs.b) to ctx.b;
  }
  step second {
    call total(a: ctx.a.outputs.y, b: ctx.b.outputs.y) to ctx.t;
  }
  step last {
    out s = ctx.t.outputs.s;
  }
}
",
    )
}

/// What the parser may refuse of the library's text: its memory alone.
fn parse_memory(error: ParseError) -> AllocError
    requires { IsParseMemory error }
{
    match error {
        ParseError::OutOfMemory => AllocError,
        _ => unreachable!(),
    }
}

/// What the check may refuse of the library: its memory alone.
fn check_memory(error: CheckError) -> AllocError
    requires { IsCheckMemory error }
{
    match error {
        CheckError::OutOfMemory => AllocError,
        _ => unreachable!(),
    }
}

/// The library, with the offsets of its printed text.
fn parsed_library(alloc: Global) -> Result<Printed, AllocError>
    ensures value { IfOk result (λ l. bare_library l ≡ library) }
    ensures writable { IfOk result IsWritable }
{
    let text = library_text(alloc)?;
    match parse(alloc, &text) {
        Ok(parsed) => Ok(parsed),
        Err(error) => Err(parse_memory(error)),
    }
}

/// The library of generated chains.
pub fn chain_library(alloc: Global) -> Result<Checked, AllocError>
    ensures { IfOk result (λ l. l ≡ library) }
{
    let parsed = parsed_library(alloc)?;
    match check(alloc, parsed) {
        Ok(checked) => Ok(checked),
        Err(error) => Err(check_memory(error)),
    }
}
