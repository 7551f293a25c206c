//! A library by all rules: the first place where one is broken, or the checked library.

ghost use Rattle.std.specs.Prelude.{◌≡◌, ◌++◌, None, flat_map, OnOk, IfOk, IfErr};
ghost use Rattle.wc_syntax.specs.declared.definition.Definition.{Definition};
ghost use Rattle.wc_syntax.specs.Bare.{bare_library};
ghost use Rattle.wc_syntax.specs.Findings.{repeated_ports, reserved_ports, repeated_statuses, repeated_files, bad_declared, bad_exits, over_counts, long_names, bad_file_names};
ghost use Rattle.wc_syntax.specs.Checked.{IsChecked, KeepsRules, findings_in, findings};
ghost use Rattle.wc_syntax.specs.Writable.{IsWritable};
ghost use Rattle.wc_check.specs.Least.{least_after};
ghost use Rattle.wc_check.specs.Refusals.{IsFirstFinding, IsRefused};

use crate::best::Best;
use crate::called::bad_calls;
use crate::calls::Signatures;
use crate::error::CheckError;
use crate::files::{bad_file_names, repeated_files};
use crate::heads::{bad_declared, repeated_ports, repeated_statuses, reserved_ports};
use crate::lengths::long_names;
use crate::parts::Parts;
use crate::repeats::repeats;
use crate::rules::{bad_exits, bad_outputs, over_counts, over_definitions};
use crate::scopes::unknown_names;
use std::alloc::{AllocError, Global};
use std::rc::Rc;
use wc_syntax::{Checked, Definition, Printed};

/// Finds what stands twice among the ports, statuses and files of a definition.
#[tactic(auto, using(crate::proofs::Leasts::least_joined))]
fn repeated_in<'a>(
    alloc: Global,
    best: &mut Best<'a>,
    definition: &'a Definition,
) -> Result<(), AllocError>
    ensures { OnOk result (best.new ≡ least_after best.old (repeated_ports definition.now ++ (reserved_ports definition.now ++ (repeated_statuses definition.now ++ repeated_files definition.now)))) }
{
    repeated_ports(alloc, best, definition)?;
    reserved_ports(best, definition);
    repeated_statuses(alloc, best, definition)?;
    repeated_files(alloc, best, definition)
}

/// Finds what has a wrong form in a definition.
#[tactic(auto, using(crate::proofs::Leasts::least_joined))]
fn misformed_in<'a>(alloc: Global, best: &mut Best<'a>, parts: &Parts<'a>) -> Result<(), AllocError>
    ensures { OnOk result (best.new ≡ least_after best.old (bad_declared parts.now ++ (bad_exits parts.now ++ (over_counts parts.now ++ (long_names parts.now ++ bad_file_names parts.now))))) }
{
    bad_declared(best, parts.definition());
    bad_exits(alloc, best, parts)?;
    over_counts(alloc, best, parts)?;
    long_names(best, parts);
    bad_file_names(best, parts.definition());
    Ok(())
}

/// Offers all that is wrong with one definition that was taken apart.
fn findings_among<'a>(
    alloc: Global,
    best: &mut Best<'a>,
    signatures: &Signatures<'a>,
    parts: &Parts<'a>,
) -> Result<(), AllocError>
    ensures { OnOk result (best.new ≡ least_after best.old (findings_in signatures.now parts.now)) }
{
    repeated_in(alloc, best, parts.definition())?;
    unknown_names(alloc, best, parts)?;
    bad_calls(alloc, best, signatures, parts.pieces())?;
    bad_outputs(alloc, best, parts)?;
    misformed_in(alloc, best, parts)
}

/// Finds everything that a definition breaks.
fn findings_in<'a>(
    alloc: Global,
    best: &mut Best<'a>,
    signatures: &Signatures<'a>,
    definition: &'a Definition,
) -> Result<(), AllocError>
    ensures { OnOk result (best.new ≡ least_after best.old (findings_in signatures.now definition.now)) }
{
    let parts = Parts::of(alloc, definition)?;
    findings_among(alloc, best, signatures, &parts)
}

/// Offers all that is wrong with each definition of a library.
fn findings_in_each<'a>(
    alloc: Global,
    best: &mut Best<'a>,
    signatures: &Signatures<'a>,
    definitions: &'a [Definition],
) -> Result<(), AllocError>
    ensures { OnOk result (best.new ≡ least_after best.old (flat_map (findings_in signatures.now) definitions.now)) }
{
    for definition in definitions {
        findings_in(alloc, best, signatures, definition)?;
    }
    Ok(())
}

/// Finds everything that a library breaks.
#[tactic(auto, using(crate::proofs::Leasts::least_joined))]
fn find_all<'a>(
    alloc: Global,
    best: &mut Best<'a>,
    library: &'a [Definition],
) -> Result<(), AllocError>
    ensures { OnOk result (best.new ≡ least_after best.old (findings library.now)) }
{
    repeats(alloc, best, library)?;
    over_definitions(best, library);
    let signatures = Signatures::of(alloc, library)?;
    findings_in_each(alloc, best, &signatures, library)
}

/// The first place at which a library breaks a rule of checked libraries, if there is one.
pub fn first_finding(alloc: Global, library: &Printed) -> Result<Option<CheckError>, AllocError>
    ensures { IfOk result (λ found. IsFirstFinding library.now found) }
{
    let mut best = Best::none();
    find_all(alloc, &mut best, library.library().as_slice())?;
    best.refusal(alloc)
}

/// A library that is known to be checked, put where its clones share it.
pub fn share(alloc: Global, library: Printed) -> Result<Checked, AllocError>
    requires { IsChecked library }
    ensures { IfOk result (λ checked. checked ≡ bare_library library) }
{
    Ok(Checked::of(Rc::new(alloc, library)?))
}

/// Takes a library, as `parse` gives it, that meets the rules of checked libraries.
pub fn check(alloc: Global, library: Printed) -> Result<Checked, CheckError>
    requires { IsWritable library }
    ensures value { IfOk result (λ checked. checked ≡ bare_library library) }
    ensures ok { IfOk result (λ checked. KeepsRules library) }
    ensures err { IfErr result (λ e. IsRefused library e) }
{
    match first_finding(alloc, &library)? {
        None => Ok(share(alloc, library)?),
        Some(error) => Err(error),
    }
}
