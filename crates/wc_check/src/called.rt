//! What the calls of an outline break: which definition they name, and which ports they give.

ghost use Rattle.std.specs.Prelude.{◌≡◌, flat_map, OnOk};
ghost use Rattle.wc_syntax.specs.Findings.{callee_of, called_ports, missing_of, missing_port, unknown_of, unknown_port};
ghost use Rattle.wc_check.specs.Flat.{behind, seen_piece, seen_pieces};
ghost use Rattle.wc_check.specs.Least.{least_after};
ghost use Rattle.wc_check.specs.Sought.{call_found, calls_at};

use crate::best::{Best, Fault};
use crate::calls::Signatures;
use crate::names::Names;
use crate::pieces::Piece;
use crate::repeats::{names_of, repeats};
use std::alloc::{AllocError, Global};
use wc_syntax::{CallArg, CallStmt, Stmt};

/// Finds a call of what isn't there.
fn unknown_callee<'a>(best: &mut Best<'a>, signatures: &Signatures<'a>, call: &'a CallStmt)
    ensures { best.new ≡ least_after best.old (callee_of call.now (called_ports signatures.now call.now)) }
{
    match signatures.called(call) {
        Some(_) => {}
        None => best.offer(Fault::Unknown, call.callee.text.as_str(), call.callee.at),
    }
}

/// Offers that a call at a place doesn't give one required port.
fn missing_port<'a>(best: &mut Best<'a>, given: &Names, at: u32, name: &'a str)
    ensures { best.new ≡ least_after best.old (missing_port given.now at name.now) }
{
    best.offer_unless(given.has(name), Fault::PortMissing, name, at);
}

/// Offers each required port that a call at a place doesn't give, in their order.
fn missing_among<'a>(best: &mut Best<'a>, given: &Names, at: u32, required: &[&'a str])
    ensures { best.new ≡ least_after best.old (flat_map (missing_port given.now at) (behind required.now)) }
{
    for name in required {
        missing_port(best, given, at, *name);
    }
}

/// Finds the ports that a call lacks. They don't matter where something is found before the call.
fn missing_of<'a>(
    alloc: Global,
    best: &mut Best<'a>,
    signatures: &Signatures<'a>,
    call: &'a CallStmt,
) -> Result<(), AllocError>
    ensures { OnOk result (best.new ≡ least_after best.old (missing_of call.now (called_ports signatures.now call.now))) }
{
    match signatures.called(call) {
        Some(signature) => {
            if best.is_before(call.at) {
                return Ok(());
            }
            let given = names_of(alloc, call.args.as_slice())?;
            missing_among(best, &given, call.at, signature.required.as_slice());
            Ok(())
        }
        None => Ok(()),
    }
}

/// Offers the port of one argument where the called definition has none of the name.
fn unknown_port<'a>(best: &mut Best<'a>, ports: &Names, arg: &'a CallArg)
    ensures { best.new ≡ least_after best.old (unknown_port ports.now arg.now) }
{
    let name = arg.port.text.as_str();
    best.offer_unless(ports.has(name), Fault::PortUnknown, name, arg.port.at);
}

/// Offers each argument whose port the called definition doesn't have.
fn unknown_among<'a>(best: &mut Best<'a>, ports: &Names, args: &'a [CallArg])
    ensures { best.new ≡ least_after best.old (flat_map (unknown_port ports.now) args.now) }
{
    for arg in args {
        unknown_port(best, ports, arg);
    }
}

/// Finds the ports that a call gives and that aren't there.
fn unknown_of<'a>(best: &mut Best<'a>, signatures: &Signatures<'a>, call: &'a CallStmt)
    ensures { best.new ≡ least_after best.old (unknown_of call.now (called_ports signatures.now call.now)) }
{
    match signatures.called(call) {
        Some(signature) => unknown_among(best, &signature.ports, call.args.as_slice()),
        None => {}
    }
}

/// Finds everything that a call breaks: it names a definition, and gives every required input port of it, none that isn't there
/// and none twice.
#[tactic(auto, using(crate::proofs::Leasts::least_joined))]
fn find_in_call<'a>(
    alloc: Global,
    best: &mut Best<'a>,
    signatures: &Signatures<'a>,
    call: &'a CallStmt,
) -> Result<(), AllocError>
    ensures { OnOk result (best.new ≡ least_after best.old (call_found signatures.now call.now)) }
{
    unknown_callee(best, signatures, call);
    missing_of(alloc, best, signatures, call)?;
    unknown_of(best, signatures, call);
    repeats(alloc, best, call.args.as_slice())
}

/// Offers what is wrong with the call of a piece, where the piece is one.
#[tactic(auto, using(crate::proofs::Leasts::least_ended))]
fn call_of_piece<'a>(
    alloc: Global,
    best: &mut Best<'a>,
    signatures: &Signatures<'a>,
    piece: Piece<'a>,
) -> Result<(), AllocError>
    ensures { OnOk result (best.new ≡ least_after best.old (calls_at signatures.now (seen_piece piece.entry))) }
{
    match piece {
        Piece::Does(Stmt::Call(call)) => find_in_call(alloc, best, signatures, call),
        _ => Ok(()),
    }
}

/// Finds everything that the calls of an outline break.
pub fn bad_calls<'a>(
    alloc: Global,
    best: &mut Best<'a>,
    signatures: &Signatures<'a>,
    pieces: &[Piece<'a>],
) -> Result<(), AllocError>
    ensures { OnOk result (best.new ≡ least_after best.old (flat_map (calls_at signatures.now) (seen_pieces pieces.now))) }
{
    for piece in pieces {
        call_of_piece(alloc, best, signatures, *piece)?;
    }
    Ok(())
}
