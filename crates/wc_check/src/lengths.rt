//! Names that have too many bytes.

ghost use Rattle.std.specs.Prelude.{◌≡◌, ◌++◌, map, flat_map};
ghost use Rattle.wc_syntax.specs.Findings.{long_name, long_names, piece_names, rule_name, stmt_names};
ghost use Rattle.wc_check.specs.Flat.{seen_piece, seen_pieces};
ghost use Rattle.wc_check.specs.Least.{least_after};
ghost use Rattle.wc_check.specs.Sought.{long_in_rule, long_in_piece};

use crate::best::{Best, Fault};
use crate::mentions::{Search, find_in_lines, find_in_piece, find_in_rule};
use crate::parts::Parts;
use crate::pieces::Piece;
use crate::repeats::head_of;
use wc_syntax::{CallArg, Head, Name, Port, Rule, Stmt};

const MOST_NAME_BYTES: usize = 64;

/// Names have at most 64 bytes.
pub fn long_names<'a>(best: &mut Best<'a>, parts: &Parts<'a>)
    ensures { best.new ≡ least_after best.old (long_names parts.now) }
{
    long_in_head(best, head_of(parts.definition()));
    find_in_lines(best, &Search::Long, parts.definition());
    long_in_rules(best, parts.rules());
    long_in_pieces(best, parts.pieces());
}

/// Finds a name that has too many bytes.
pub fn long_name<'a>(best: &mut Best<'a>, name: &'a Name)
    ensures { best.new ≡ least_after best.old (long_name name.now) }
{
    let is_short = name.text.bytes().len() <= MOST_NAME_BYTES;
    best.offer_unless(is_short, Fault::BadName, name.text.as_str(), name.at);
}

/// Offers what is too long among the names of a definition and its ports.
#[tactic(auto, using(crate::proofs::Leasts::least_joined))]
fn long_in_head<'a>(best: &mut Best<'a>, head: &'a Head)
    ensures { best.new ≡ least_after best.old (long_name head.now.name ++ (flat_map (λ p. long_name p.name) head.now.inputs ++ flat_map (λ p. long_name p.name) head.now.outputs)) }
{
    long_name(best, &head.name);
    long_in_ports(best, head.inputs.as_slice());
    long_in_ports(best, head.outputs.as_slice());
}

/// Offers each port whose name is too long.
fn long_in_ports<'a>(best: &mut Best<'a>, ports: &'a [Port])
    ensures { best.new ≡ least_after best.old (flat_map (λ p. long_name p.name) ports.now) }
{
    for port in ports {
        long_name(best, &port.name);
    }
}

/// Offers the name that a rule sets, where it is too long.
#[tactic(auto, using(crate::proofs::Leasts::least_ended))]
fn long_rule_name<'a>(best: &mut Best<'a>, rule: &'a Rule)
    ensures { best.new ≡ least_after best.old (flat_map long_name (rule_name rule.now)) }
{
    match rule {
        Rule::Let(_, name, _) => long_name(best, name),
        Rule::Out(_, name, _) => long_name(best, name),
        Rule::Exit(_) => {}
    }
}

/// Offers what is too long among the names that a rule sets and mentions.
#[tactic(auto, using(crate::proofs::Leasts::least_joined))]
fn long_in_rule<'a>(best: &mut Best<'a>, rule: &'a Rule)
    ensures { best.new ≡ least_after best.old (long_in_rule rule.now) }
{
    long_rule_name(best, rule);
    find_in_rule(best, &Search::Long, rule);
}

/// Offers what is too long among the names of rules.
fn long_in_rules<'a>(best: &mut Best<'a>, rules: &'a [Rule])
    ensures { best.new ≡ least_after best.old (flat_map long_in_rule rules.now) }
{
    for rule in rules {
        long_in_rule(best, rule);
    }
}

/// Offers each argument whose port has too long a name.
fn long_in_args<'a>(best: &mut Best<'a>, args: &'a [CallArg])
    ensures { best.new ≡ least_after best.old (flat_map long_name (map (λ a. a.port) args.now)) }
{
    for arg in args {
        long_name(best, &arg.port);
    }
}

/// Offers what is too long among the names that a statement sets, calls or gives.
#[tactic(auto, using(crate::proofs::Leasts::least_ended, crate::proofs::Leasts::least_both))]
fn long_stmt_names<'a>(best: &mut Best<'a>, stmt: &'a Stmt)
    ensures { best.new ≡ least_after best.old (flat_map long_name (stmt_names stmt.now)) }
{
    match stmt {
        Stmt::Ctx(_, name, _) => long_name(best, name),
        Stmt::Out(_, name, _) => long_name(best, name),
        Stmt::Exit(_) => {}
        Stmt::Call(call) => {
            long_name(best, &call.callee);
            long_in_args(best, call.args.as_slice());
            long_name(best, &call.key);
        }
    }
}

/// Offers what is too long among the names that a piece has beside its expressions.
#[tactic(auto, using(crate::proofs::Leasts::least_ended))]
fn long_piece_names<'a>(best: &mut Best<'a>, piece: Piece<'a>)
    ensures { best.new ≡ least_after best.old (flat_map long_name (piece_names (seen_piece piece.entry))) }
{
    match piece {
        Piece::Begins(_) => {}
        Piece::Named(name) => long_name(best, name),
        Piece::Does(stmt) => long_stmt_names(best, stmt),
        Piece::Tests(_) => {}
        Piece::Returns(_) => {}
    }
}

/// Offers what is too long among all names of a piece, those in its expressions too.
#[tactic(auto, using(crate::proofs::Leasts::least_joined))]
fn long_in_piece<'a>(best: &mut Best<'a>, piece: Piece<'a>)
    ensures { best.new ≡ least_after best.old (long_in_piece (seen_piece piece.entry)) }
{
    long_piece_names(best, piece);
    find_in_piece(best, &Search::Long, piece);
}

/// Offers what is too long among the names of an outline's pieces.
fn long_in_pieces<'a>(best: &mut Best<'a>, pieces: &[Piece<'a>])
    ensures { best.new ≡ least_after best.old (flat_map long_in_piece (seen_pieces pieces.now)) }
{
    for piece in pieces {
        long_in_piece(best, *piece);
    }
}
