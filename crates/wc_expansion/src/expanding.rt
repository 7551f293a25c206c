//! The chain of a spec, put behind a checked library.

ghost use Rattle.std.specs.Prelude.{◌≡◌, ◌⊎◌, ◌<◌, ◌≤◌, ◌++◌, List, length, None, Some, Ok, IfOk, IfErr, OnOk};
ghost use Rattle.wc_attempts.specs.Laws.{Restarts};
ghost use Rattle.wc_handlers.specs.declared.error.RestartError.TheVariants.{OutOfMemory, TooMany};
ghost use Rattle.wc_handlers.specs.declared.spec.Spec.{Spec};
ghost use Rattle.wc_handlers.specs.Reading.{spec_in};
ghost use Rattle.wc_handlers.specs.Specs.{IsSpec};
ghost use Rattle.wc_parser.specs.Parsing.{TextSays};
ghost use Rattle.wc_restart.specs.Chains.{expanded};
ghost use Rattle.wc_restart.specs.Judging.{misnamed, refusal, refusal_of};
ghost use Rattle.wc_syntax.specs.Bare.{bare_library};
ghost use Rattle.wc_syntax.specs.declared.definition.Definition.{Definition};
ghost use Rattle.wc_syntax.specs.Printing.{printed};
ghost use Rattle.wc_expansion.specs.Texts.{IsCheckedText, ReadsAs};

use std::alloc::{AllocError, Global};
use wc_check::share;
use wc_handlers::{RestartError, Spec, read_spec};
use wc_parser::{ParseError, parse};
use wc_restart::{chain_of, misnamed};
use wc_syntax::{Checked, Definition, print_definition};
use wc_value::Text;

/// The most definitions of a library.
const MOST_DEFINITIONS: usize = 64;

/// The most bytes of a library's text.
const MOST_BYTES: usize = 1_048_576;

/// One text behind another.
fn joined(alloc: Global, front: &Text, back: &Text) -> Result<Text, AllocError>
    ensures { IfOk result (λ text. text ≡ front.now ++ back.now) }
{
    let mut out = String::new(alloc);
    out.push_str(front.as_str())?;
    out.push_str(back.as_str())?;
    Text::of_string(out)
}

/// The text of the library with the chain of a spec behind it.
fn text_with(alloc: Global, library: &Checked, spec: &Spec) -> Result<Text, AllocError>
    ensures { IfOk result (λ text. text ≡ printed (expanded library.now spec.now)) }
{
    let chain = chain_of(alloc, library.library(), spec)?;
    let last = print_definition(alloc, &Definition::Chain(chain))?;
    let front = library.text(alloc)?;
    joined(alloc, &front, &last)
}

/// What the parser may refuse of a text that is known to be a library's: its memory alone.
fn parse_memory(error: ParseError) -> AllocError
    requires { error ≡ ParseError.OutOfMemory }
{
    match error {
        ParseError::OutOfMemory => AllocError,
        _ => unreachable!(),
    }
}

/// The library of a text that is known to be one's which keeps the rules.
fn library_of(alloc: Global, text: &Text) -> Result<Checked, AllocError>
    requires { IsCheckedText text.now }
    ensures { IfOk result (λ c. (library : List Definition) → TextSays text.now (Ok library) → c ≡ bare_library library) }
{
    match parse(alloc, text) {
        Ok(library) => share(alloc, library),
        Err(error) => Err(parse_memory(error)),
    }
}

/// The library with the chain, if its text isn't too long.
fn with_chain(alloc: Global, library: &Checked, spec: &Spec) -> Result<Checked, RestartError>
    requires named { misnamed library.now spec.now ≡ None }
    requires few { length library.now < 64 }
    requires readable { length (printed (expanded library.now spec.now)) ≤ 1048576 → ReadsAs (printed (expanded library.now spec.now)) (expanded library.now spec.now) }
    ensures adds { IfOk result (λ c. c ≡ expanded library.now spec.now) }
    ensures refused { IfErr result (λ e. (e ≡ OutOfMemory) ⊎ (refusal library.now spec.now ≡ Some e)) }
    ensures taken { OnOk result (refusal library.now spec.now ≡ None) }
{
    let text = text_with(alloc, library, spec)?;
    if text.bytes().len() > MOST_BYTES {
        return Err(RestartError::TooMany);
    }
    Ok(library_of(alloc, &text)?)
}

/// The library with the chain of a spec that was read.
fn with_spec(alloc: Global, library: &Checked, spec: &Spec) -> Result<Checked, RestartError>
    requires is_spec { IsSpec spec.now }
    ensures adds { IfOk result (λ c. c ≡ expanded library.now spec.now) }
    ensures refused { IfErr result (λ e. (e ≡ OutOfMemory) ⊎ (refusal library.now spec.now ≡ Some e)) }
    ensures taken { OnOk result (refusal library.now spec.now ≡ None) }
    ensures restarts { IfOk result (λ c. Restarts library.now spec.now c) }
{
    let definitions = library.library();
    match misnamed(alloc, definitions, spec)? {
        Some(refused) => Err(refused),
        None => {
            if definitions.len() >= MOST_DEFINITIONS {
                return Err(RestartError::TooMany);
            }
            with_chain(alloc, library, spec)
        }
    }
}

/// The library with one more work chain, which runs a job until it succeeds, as the bytes of a spec file say. Refusals come in this
/// order: those of the spec file; an unknown name; a name that is taken; bad ports; one priority twice; too many definitions or too
/// long a text.
pub fn expand(alloc: Global, library: &Checked, spec: &[u8]) -> Result<Checked, RestartError>
    // What is answered is the library with the one chain added.
    ensures adds { IfOk result (λ c. (s : Spec) × (spec_in spec.now ≡ Ok s) × (c ≡ expanded library.now s)) }
    // What is refused is refused for the first of these reasons, or memory ran out.
    ensures refused { IfErr result (λ e. (e ≡ OutOfMemory) ⊎ (refusal_of library.now spec.now ≡ Some e)) }
    // What there is a reason to refuse isn't answered.
    ensures taken { OnOk result (refusal_of library.now spec.now ≡ None) }
    // The chain comes to what the attempts at its job do.
    ensures restarts { IfOk result (λ c. (s : Spec) × (spec_in spec.now ≡ Ok s) × Restarts library.now s c) }
{
    let read = read_spec(alloc, spec)?;
    with_spec(alloc, library, &read)
}
