//! The ports and the exit statuses that a definition declares.

ghost use Rattle.std.specs.Prelude.{◌≡◌, [], ◌∷◌, ◌++◌, not, flat_map, OnOk, IfOk, map};
ghost use Rattle.std.specs.Fmt.{signed_decimal};
ghost use Rattle.wc_syntax.specs.Findings.{is_among, is_status, result_names, head_of, repeated_ports, reserved_port, reserved_ports, repeated_statuses, repeated_statuses_after, bad_range, bad_declared, declared_numbers, unless, twice};
ghost use Rattle.wc_check.specs.Least.{least_after, AgreeAt};

use crate::best::{Best, Fault, Told};
use crate::names::is_either;
use crate::repeats::{head_of, repeats};
use crate::statuses::Statuses;
use std::alloc::{AllocError, Global};
use wc_syntax::{Definition, ExitCode, Number, Port};
use wc_value::Text;

const LEAST_STATUS: i64 = 100;

const MOST_STATUS: i64 = 9999;

/// Port names differ in one list.
#[tactic(auto, using(crate::proofs::Leasts::least_joined))]
pub fn repeated_ports<'a>(
    alloc: Global,
    best: &mut Best<'a>,
    definition: &'a Definition,
) -> Result<(), AllocError>
    ensures { OnOk result (best.new ≡ least_after best.old (repeated_ports definition.now)) }
{
    let head = head_of(definition);
    repeats(alloc, best, head.inputs.as_slice())?;
    repeats(alloc, best, head.outputs.as_slice())?;
    Ok(())
}

/// Whether a name is one that the rules of a job know beside its inputs.
pub fn is_reserved(name: &str) -> bool
    ensures { result ≡ is_among name.now result_names }
{
    is_either(name, "retrieved", "code")
}

/// No port of a job is named `retrieved` or `code`.
#[tactic(auto, using(crate::proofs::Leasts::least_joined))]
pub fn reserved_ports<'a>(best: &mut Best<'a>, definition: &'a Definition)
    ensures { best.new ≡ least_after best.old (reserved_ports definition.now) }
{
    match definition {
        Definition::Function(_) => {}
        Definition::Job(job) => {
            reserved_in(best, job.head.inputs.as_slice());
            reserved_in(best, job.head.outputs.as_slice());
        }
        Definition::Chain(_) => {}
    }
}

/// Offers each port that has a reserved name.
fn reserved_in<'a>(best: &mut Best<'a>, ports: &'a [Port])
    ensures { best.new ≡ least_after best.old (flat_map reserved_port ports.now) }
{
    for port in ports {
        let name = port.name.text.as_str();
        best.offer_unless(!is_reserved(name), Fault::Twice, name, port.name.at);
    }
}

/// A declared status is 100 to 9999.
pub fn bad_declared(best: &mut Best<'_>, definition: &Definition)
    ensures { best.new ≡ least_after best.old (bad_declared definition.now) }
{
    bad_ranges(best, head_of(definition).codes.as_slice());
}

/// Offers each declared status that lies outside of the range of statuses.
fn bad_ranges(best: &mut Best<'_>, codes: &[ExitCode])
    ensures { best.new ≡ least_after best.old (flat_map bad_range (map (λ c. c.status) codes.now)) }
{
    for code in codes {
        let status = code.status;
        let is_kept = LEAST_STATUS <= status.value && status.value <= MOST_STATUS;
        best.offer_unless(is_kept, Fault::BadStatus, "", status.at);
    }
}

/// Exit statuses differ.
pub fn repeated_statuses(
    alloc: Global,
    best: &mut Best<'_>,
    definition: &Definition,
) -> Result<(), AllocError>
    ensures { OnOk result (best.new ≡ least_after best.old (repeated_statuses definition.now)) }
{
    repeated_codes(alloc, best, head_of(definition).codes.as_slice())
}

/// Offers each status that was declared before.
fn repeated_codes(alloc: Global, best: &mut Best<'_>, codes: &[ExitCode]) -> Result<(), AllocError>
    ensures { OnOk result (best.new ≡ least_after best.old (repeated_statuses_after [] (map (λ c. c.status) codes.now))) }
{
    let mut statuses = Statuses::new(alloc);
    for code in codes {
        meet_status(alloc, best, &mut statuses, code.status)?;
    }
    Ok(())
}

/// Adds a status to those before it, and finds it where it is one of them.
fn meet_status(
    alloc: Global,
    best: &mut Best<'_>,
    statuses: &mut Statuses,
    status: Number,
) -> Result<(), AllocError>
    ensures best { OnOk result (best.new ≡ least_after best.old (unless (not (is_status status.value statuses.old)) (twice (signed_decimal status.value) status.at))) }
    ensures statuses { OnOk result (AgreeAt is_status statuses.new (statuses.old ++ status.value ∷ [])) }
{
    if !statuses.add(status.value)? {
        let digits = Text::of_string(format!(in alloc; "{}", status.value)?)?;
        best.offer_told(Fault::Twice, Told::Digits(digits), status.at);
    }
    Ok(())
}

/// The statuses that a definition declares.
pub fn declared(alloc: Global, definition: &Definition) -> Result<Statuses, AllocError>
    ensures { IfOk result (λ statuses. AgreeAt is_status statuses (map (λ n. n.value) (declared_numbers definition.now))) }
{
    let mut statuses = Statuses::new(alloc);
    for code in head_of(definition).codes.as_slice() {
        statuses.add(code.status.value)?;
    }
    Ok(statuses)
}
