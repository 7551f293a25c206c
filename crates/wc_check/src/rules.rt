//! The outputs that a definition sets, the statuses that it ends with, and how many items it and a library have.

ghost use Rattle.std.specs.Prelude.{◌≡◌, ◌++◌, map, flat_map, OnOk};
ghost use Rattle.wc_syntax.specs.Findings.{over, over_counts, over_definitions, is_data, not_nodes, unknown_output, unknown_outputs, undeclared, bad_exits, rule_output, rule_status, piece_status};
ghost use Rattle.wc_syntax.specs.declared.expression.Form.{out-Form};
ghost use Rattle.wc_check.specs.Flat.{seen_piece, seen_pieces};
ghost use Rattle.wc_check.specs.Least.{least_after};
ghost use Rattle.wc_check.specs.Sought.{outputs_at};

use crate::best::{Best, Fault};
use crate::heads::declared;
use crate::names::Names;
use crate::parts::Parts;
use crate::pieces::Piece;
use crate::places::places;
use crate::repeats::{head_of, names_of};
use crate::statuses::Statuses;
use std::alloc::{AllocError, Global};
use wc_syntax::{ChildPart, Definition, ExitCode, Expr, Form, Name, Number, Port, Rule, Stmt};

const MOST_DEFINITIONS: usize = 64;

const MOST_PORTS: usize = 32;

const MOST_CODES: usize = 64;

const MOST_ITEMS: usize = 512;

/// Offers a name that is no output.
fn unknown_output<'a>(best: &mut Best<'a>, outputs: &Names, name: &'a Name)
    ensures { best.new ≡ least_after best.old (unknown_output outputs.now name.now) }
{
    let text = name.text.as_str();
    best.offer_unless(outputs.has(text), Fault::Unknown, text, name.at);
}

/// Offers the output that a rule sets, where there is none of the name.
#[tactic(auto, using(crate::proofs::Leasts::least_ended))]
fn output_of_rule<'a>(best: &mut Best<'a>, outputs: &Names, rule: &'a Rule)
    ensures { best.new ≡ least_after best.old (flat_map (unknown_output outputs.now) (rule_output rule.now)) }
{
    match rule {
        Rule::Let(_, _, _) => {}
        Rule::Out(_, name, _) => unknown_output(best, outputs, name),
        Rule::Exit(_) => {}
    }
}

/// Offers each output that rules set and that isn't there.
fn outputs_of_rules<'a>(best: &mut Best<'a>, outputs: &Names, rules: &'a [Rule])
    ensures { best.new ≡ least_after best.old (flat_map (λ r. flat_map (unknown_output outputs.now) (rule_output r)) rules.now) }
{
    for rule in rules {
        output_of_rule(best, outputs, rule);
    }
}

/// Whether an expression passes a node: `inputs.N`, or a path that ends in `outputs.N`.
fn is_data(value: &Expr) -> bool
    ensures { result ≡ is_data (out-Form value.now.form) }
{
    match &value.form {
        Form::Input(_, _) => true,
        Form::Child(_, _, _, part) => match part {
            ChildPart::Outputs(_) => true,
            ChildPart::Status => false,
            ChildPart::Ok => false,
        },
        _ => false,
    }
}

/// Finds an output of a work chain that names no output port, or that isn't data.
#[tactic(auto, using(crate::proofs::Leasts::least_ended, crate::proofs::Leasts::least_joined))]
fn output_of_piece<'a>(best: &mut Best<'a>, outputs: &Names, piece: Piece<'a>)
    ensures { best.new ≡ least_after best.old (outputs_at outputs.now (seen_piece piece.entry)) }
{
    if let Piece::Does(Stmt::Out(_, name, value)) = piece {
        unknown_output(best, outputs, name);
        best.offer_unless(is_data(value), Fault::NotData, "", value.at);
    }
}

/// Offers each output that an outline sets and that isn't there.
fn outputs_of_pieces<'a>(best: &mut Best<'a>, outputs: &Names, pieces: &[Piece<'a>])
    ensures { best.new ≡ least_after best.old (flat_map (outputs_at outputs.now) (seen_pieces pieces.now)) }
{
    for piece in pieces {
        output_of_piece(best, outputs, *piece);
    }
}

/// `out` names an output port, and its expression in a work chain is `inputs.N`, or a path that ends in `outputs.N`.
pub fn bad_outputs<'a>(
    alloc: Global,
    best: &mut Best<'a>,
    parts: &Parts<'a>,
) -> Result<(), AllocError>
    ensures { OnOk result (best.new ≡ least_after best.old (unknown_outputs parts.now ++ not_nodes parts.now)) }
{
    let outputs = names_of(alloc, head_of(parts.definition()).outputs.as_slice())?;
    outputs_of_rules(best, &outputs, parts.rules());
    outputs_of_pieces(best, &outputs, parts.pieces());
    Ok(())
}

/// Offers a status that is neither 0 nor declared.
fn undeclared(best: &mut Best<'_>, declared: &Statuses, status: Number)
    ensures { best.new ≡ least_after best.old (undeclared declared.now status) }
{
    let is_known = status.value == 0 || declared.has(status.value);
    best.offer_unless(is_known, Fault::BadStatus, "", status.at);
}

/// Offers the status of a rule's exit, where it isn't declared.
#[tactic(auto, using(crate::proofs::Leasts::least_ended))]
fn exit_of_rule(best: &mut Best<'_>, declared: &Statuses, rule: &Rule)
    ensures { best.new ≡ least_after best.old (flat_map (undeclared declared.now) (rule_status rule.now)) }
{
    match rule {
        Rule::Let(_, _, _) => {}
        Rule::Out(_, _, _) => {}
        Rule::Exit(exit) => undeclared(best, declared, exit.status),
    }
}

/// Offers each status that rules end with and that isn't declared.
fn exits_of_rules(best: &mut Best<'_>, declared: &Statuses, rules: &[Rule])
    ensures { best.new ≡ least_after best.old (flat_map (λ r. flat_map (undeclared declared.now) (rule_status r)) rules.now) }
{
    for rule in rules {
        exit_of_rule(best, declared, rule);
    }
}

/// Offers the status that a piece ends with, where it isn't declared.
#[tactic(auto, using(crate::proofs::Leasts::least_ended))]
fn exit_of_piece(best: &mut Best<'_>, declared: &Statuses, piece: &Piece<'_>)
    ensures { best.new ≡ least_after best.old (flat_map (undeclared declared.now) (piece_status (seen_piece piece.now))) }
{
    match *piece {
        Piece::Begins(_) => {}
        Piece::Named(_) => {}
        Piece::Does(stmt) => {
            if let Stmt::Exit(exit) = stmt {
                undeclared(best, declared, exit.status);
            }
        }
        Piece::Tests(_) => {}
        Piece::Returns(status) => undeclared(best, declared, *status),
    }
}

/// Offers each status that an outline ends with and that isn't declared.
fn exits_of_pieces(best: &mut Best<'_>, declared: &Statuses, pieces: &[Piece<'_>])
    ensures { best.new ≡ least_after best.old (flat_map (λ p. flat_map (undeclared declared.now) (piece_status p)) (seen_pieces pieces.now)) }
{
    for piece in pieces {
        exit_of_piece(best, declared, piece);
    }
}

/// A number after `exit` or `return` is 0 or declared.
pub fn bad_exits(alloc: Global, best: &mut Best<'_>, parts: &Parts<'_>) -> Result<(), AllocError>
    ensures { OnOk result (best.new ≡ least_after best.old (bad_exits parts.now)) }
{
    let declared = declared(alloc, parts.definition())?;
    exits_of_rules(best, &declared, parts.rules());
    exits_of_pieces(best, &declared, parts.pieces());
    Ok(())
}

/// Offers the first port above the greatest number of them.
fn over_ports(best: &mut Best<'_>, ports: &[Port])
    ensures { best.new ≡ least_after best.old (over 32 (map (λ p. p.at) ports.now)) }
{
    if ports.len() > MOST_PORTS {
        best.offer(Fault::TooMany, "", ports[MOST_PORTS].at);
    }
}

/// Offers the first exit code above the greatest number of them.
fn over_codes(best: &mut Best<'_>, codes: &[ExitCode])
    ensures { best.new ≡ least_after best.old (over 64 (map (λ c. c.at) codes.now)) }
{
    if codes.len() > MOST_CODES {
        best.offer(Fault::TooMany, "", codes[MOST_CODES].at);
    }
}

/// Offers the place of the first item above the greatest number of them.
fn over_items(best: &mut Best<'_>, places: &[u32])
    ensures { best.new ≡ least_after best.old (over 512 places.now) }
{
    if places.len() > MOST_ITEMS {
        best.offer(Fault::TooMany, "", places[MOST_ITEMS]);
    }
}

/// At most 32 ports in a list, 64 exit codes, and 512 instructions, statements, rules and job lines together.
#[tactic(auto, using(crate::proofs::Leasts::least_joined))]
pub fn over_counts(alloc: Global, best: &mut Best<'_>, parts: &Parts<'_>) -> Result<(), AllocError>
    ensures { OnOk result (best.new ≡ least_after best.old (over_counts parts.now)) }
{
    let head = head_of(parts.definition());
    let places = places(alloc, parts)?;
    over_ports(best, head.inputs.as_slice());
    over_ports(best, head.outputs.as_slice());
    over_codes(best, head.codes.as_slice());
    over_items(best, places.as_slice());
    Ok(())
}

/// At most 64 definitions.
pub fn over_definitions(best: &mut Best<'_>, library: &[Definition])
    ensures { best.new ≡ least_after best.old (over_definitions library.now) }
{
    if library.len() > MOST_DEFINITIONS {
        best.offer(Fault::TooMany, "", head_of(&library[MOST_DEFINITIONS]).at);
    }
}
