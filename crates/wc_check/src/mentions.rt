//! The names in expressions, and what is wrong with one.

ghost use Rattle.std.specs.Prelude.{◌≡◌, [], ◌∷◌, flat_map};
ghost use Rattle.wc_syntax.specs.Mentions.{mentions, mentioned, part_mentions, condition_mentions, rule_mentions, stmt_mentions};
ghost use Rattle.wc_syntax.specs.Findings.{line_exprs, piece_mentions};
ghost use Rattle.wc_check.specs.Flat.{seen_mention, seen_piece, seen_pieces};
ghost use Rattle.wc_check.specs.Least.{least_after};
ghost use Rattle.wc_check.specs.Sought.{found_at};

use crate::best::Best;
use crate::lengths::long_name;
use crate::pieces::Piece;
use crate::scopes::{Scope, unknown_mention};
use wc_syntax::{
    CallArg, ChildPart, Definition, Expr, Exprs, Form, JobFile, JobLine, Name, Rule, Stmt,
};

/// A name in an expression, and how it stands there. An offset is that of the word `inputs` or `ctx`.
#[derive(Clone, Copy)]
pub enum Mention<'a> {
    /// A bare name.
    Bare(&'a Name),
    /// `given(NAME)`
    Given(&'a Name),
    /// `inputs.NAME`, also within `given`.
    Input(u32, &'a Name),
    /// `ctx.NAME`, also within `count`.
    Context(u32, &'a Name),
    /// `.outputs.NAME`
    Label(&'a Name),
}

/// What is sought among the names in expressions.
#[derive(Clone, Copy)]
pub enum Search<'s, 'p> {
    /// A name that may not stand in the scope.
    Unknown(&'s Scope<'p>),
    /// A name that has too many bytes.
    Long,
}

/// The name that is mentioned.
fn mentioned<'a>(mention: Mention<'a>) -> &'a Name
    ensures { result.now ≡ mentioned (seen_mention mention.entry) }
{
    match mention {
        Mention::Bare(name) => name,
        Mention::Given(name) => name,
        Mention::Input(_, name) => name,
        Mention::Context(_, name) => name,
        Mention::Label(name) => name,
    }
}

/// Finds what is wrong with a name.
#[tactic(auto, using(crate::proofs::Leasts::least_ended))]
fn find_at<'a>(best: &mut Best<'a>, search: &Search<'_, '_>, mention: Mention<'a>)
    ensures { best.new ≡ least_after best.old (flat_map (found_at search.now) (seen_mention mention.entry ∷ [])) }
{
    match *search {
        Search::Unknown(scope) => unknown_mention(best, scope, mention),
        Search::Long => long_name(best, mentioned(mention)),
    }
}

/// Finds what is wrong with the names in an expression.
#[cycle(mentions)]
#[tactic(auto, using(crate::proofs::Flats::mentions_list))]
pub fn find_in_expr<'a>(best: &mut Best<'a>, search: &Search<'_, '_>, value: &'a Expr)
    ensures { best.new ≡ least_after best.old (flat_map (found_at search.now) (mentions value.now)) }
{
    match &value.form {
        Form::Number(_) => {}
        Form::Quoted(_) => {}
        Form::Truth(_) => {}
        Form::Bare(name) => find_at(best, search, Mention::Bare(name)),
        Form::Input(at, name) => find_at(best, search, Mention::Input(*at, name)),
        Form::Plain(at, name) => find_at(best, search, Mention::Context(*at, name)),
        Form::Child(at, name, index, part) => {
            find_at(best, search, Mention::Context(*at, name));
            match index {
                Some(index) => find_in_expr(best, search, index.get()),
                None => {}
            }
            find_in_part(best, search, part);
        }
        Form::Unary(_, operand) => find_in_expr(best, search, operand.get()),
        Form::Binary(_, left, right) => {
            find_in_expr(best, search, left.get());
            find_in_expr(best, search, right.get());
        }
        Form::One(_, argument) => find_in_expr(best, search, argument.get()),
        Form::Two(_, first, second) => {
            find_in_expr(best, search, first.get());
            find_in_expr(best, search, second.get());
        }
        Form::GivenBare(name) => find_at(best, search, Mention::Given(name)),
        Form::GivenInput(at, name) => find_at(best, search, Mention::Input(*at, name)),
        Form::Count(at, name) => find_at(best, search, Mention::Context(*at, name)),
        Form::List(items) => find_in_all(best, search, items),
    }
}

/// Finds what is wrong with the names in each of the expressions.
#[cycle(mentions)]
fn find_in_all<'a>(best: &mut Best<'a>, search: &Search<'_, '_>, values: &'a Exprs)
    ensures { best.new ≡ least_after best.old (flat_map (found_at search.now) (flat_map mentions values.now)) }
{
    for value in values.as_slice() {
        find_in_expr(best, search, value);
    }
}

/// Finds what is wrong with the name of an output, if the part of a child is one.
fn find_in_part<'a>(best: &mut Best<'a>, search: &Search<'_, '_>, part: &'a ChildPart)
    ensures { best.new ≡ least_after best.old (flat_map (found_at search.now) (part_mentions part.now)) }
{
    match part {
        ChildPart::Outputs(name) => find_at(best, search, Mention::Label(name)),
        ChildPart::Status => {}
        ChildPart::Ok => {}
    }
}

/// Finds what is wrong with the names in a rule's expressions.
pub fn find_in_rule<'a>(best: &mut Best<'a>, search: &Search<'_, '_>, rule: &'a Rule)
    ensures { best.new ≡ least_after best.old (flat_map (found_at search.now) (rule_mentions rule.now)) }
{
    match rule {
        Rule::Let(_, _, value) => find_in_expr(best, search, value),
        Rule::Out(_, _, value) => find_in_expr(best, search, value),
        Rule::Exit(exit) => find_in_condition(best, search, &exit.condition),
    }
}

/// Offers what is searched for in a condition, where there is one.
fn find_in_condition<'a>(best: &mut Best<'a>, search: &Search<'_, '_>, condition: &'a Option<Expr>)
    ensures { best.new ≡ least_after best.old (flat_map (found_at search.now) (condition_mentions condition.now)) }
{
    match condition {
        None => {}
        Some(condition) => find_in_expr(best, search, condition),
    }
}

/// Offers what is searched for in the values of a call's arguments.
fn find_in_args<'a>(best: &mut Best<'a>, search: &Search<'_, '_>, args: &'a [CallArg])
    ensures { best.new ≡ least_after best.old (flat_map (found_at search.now) (flat_map (λ a. mentions a.value) args.now)) }
{
    for arg in args {
        find_in_expr(best, search, &arg.value);
    }
}

/// Offers what is searched for in the expressions of a statement.
fn find_in_stmt<'a>(best: &mut Best<'a>, search: &Search<'_, '_>, stmt: &'a Stmt)
    ensures { best.new ≡ least_after best.old (flat_map (found_at search.now) (stmt_mentions stmt.now)) }
{
    match stmt {
        Stmt::Ctx(_, _, value) => find_in_expr(best, search, value),
        Stmt::Out(_, _, value) => find_in_expr(best, search, value),
        Stmt::Exit(exit) => find_in_condition(best, search, &exit.condition),
        Stmt::Call(call) => find_in_args(best, search, call.args.as_slice()),
    }
}

/// Finds what is wrong with the names in the expressions of a piece.
pub fn find_in_piece<'a>(best: &mut Best<'a>, search: &Search<'_, '_>, piece: Piece<'a>)
    ensures { best.new ≡ least_after best.old (flat_map (found_at search.now) (piece_mentions (seen_piece piece.entry))) }
{
    match piece {
        Piece::Begins(_) => {}
        Piece::Named(_) => {}
        Piece::Does(stmt) => find_in_stmt(best, search, stmt),
        Piece::Tests(condition) => find_in_expr(best, search, condition),
        Piece::Returns(_) => {}
    }
}

/// Finds what is wrong with the names in the expressions of the pieces.
pub fn find_in_pieces<'a>(best: &mut Best<'a>, search: &Search<'_, '_>, pieces: &[Piece<'a>])
    ensures { best.new ≡ least_after best.old (flat_map (λ p. flat_map (found_at search.now) (piece_mentions p)) (seen_pieces pieces.now)) }
{
    for piece in pieces {
        find_in_piece(best, search, *piece);
    }
}

/// Finds what is wrong with the names in the expressions of a job's lines.
pub fn find_in_lines<'a>(best: &mut Best<'a>, search: &Search<'_, '_>, definition: &'a Definition)
    ensures { best.new ≡ least_after best.old (flat_map (λ e. flat_map (found_at search.now) (mentions e)) (line_exprs definition.now)) }
{
    match definition {
        Definition::Function(_) => {}
        Definition::Job(job) => {
            find_in_expr(best, search, &job.program.value);
            find_in_job_args(best, search, job.args.as_slice());
            find_in_files(best, search, job.files.as_slice());
        }
        Definition::Chain(_) => {}
    }
}

/// Offers what is searched for in the expressions of a job's arguments.
fn find_in_job_args<'a>(best: &mut Best<'a>, search: &Search<'_, '_>, lines: &'a [JobLine])
    ensures { best.new ≡ least_after best.old (flat_map (λ l. flat_map (found_at search.now) (mentions l.value)) lines.now) }
{
    for line in lines {
        find_in_expr(best, search, &line.value);
    }
}

/// Offers what is searched for in the contents of the files that a job writes.
fn find_in_files<'a>(best: &mut Best<'a>, search: &Search<'_, '_>, files: &'a [JobFile])
    ensures { best.new ≡ least_after best.old (flat_map (λ f. flat_map (found_at search.now) (mentions f.value)) files.now) }
{
    for file in files {
        find_in_expr(best, search, &file.value);
    }
}
