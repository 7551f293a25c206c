//! The statements of the chain's steps, and its conditions.

ghost use Rattle.std.specs.Prelude.{◌≡◌, IfOk};
ghost use Rattle.wc_restart.specs.Statements.{goes_on, has_succeeded, has_status, or_one_of, is_one_of, setting, counting, passed_on_as, passing, ending, mending, failing, closing};

use crate::pieces::{
    child, exit, joined, name_of, negated, numeral, one, output_of, plain, set, truth,
};
use std::alloc::{AllocError, Global};
use wc_handlers::Statuses;
use wc_syntax::{BinaryOp, ChildPart, Expr, PortList, Stmt, Stmts};
use wc_value::{List, Text};

/// `((not ctx.done) and (ctx.n < most))`
pub fn goes_on(alloc: Global, most: u32) -> Result<Expr, AllocError>
    ensures { IfOk result (λ e. e ≡ goes_on most) }
{
    let undone = negated(alloc, plain(alloc, "done")?)?;
    let below = joined(alloc, BinaryOp::Less, plain(alloc, "n")?, numeral(most))?;
    joined(alloc, BinaryOp::And, undone, below)
}

/// `ctx.job.ok`
pub fn has_succeeded(alloc: Global) -> Result<Expr, AllocError>
    ensures { IfOk result (λ e. e ≡ has_succeeded) }
{
    child(alloc, "job", ChildPart::Ok)
}

/// `(ctx.job.status == n)`
fn has_status(alloc: Global, n: u32) -> Result<Expr, AllocError>
    ensures { IfOk result (λ e. e ≡ has_status n) }
{
    let status = child(alloc, "job", ChildPart::Status)?;
    joined(alloc, BinaryOp::Equal, status, numeral(n))
}

/// One of these statuses too, grouped to the left.
fn or_one_of(alloc: Global, first: Expr, statuses: &[u32]) -> Result<Expr, AllocError>
    ensures { IfOk result (λ e. e ≡ or_one_of first statuses.now) }
{
    let mut found = first;
    for status in statuses {
        let next = has_status(alloc, *status)?;
        found = joined(alloc, BinaryOp::Or, found, next)?;
    }
    Ok(found)
}

/// Whether the status is one of these, of which there is one, grouped to the left.
pub fn is_one_of(alloc: Global, statuses: &Statuses) -> Result<Expr, AllocError>
    ensures { IfOk result (λ e. e ≡ is_one_of statuses.now) }
{
    match statuses.as_slice() {
        [] => Ok(truth(false)),
        [first, rest @ ..] => or_one_of(alloc, has_status(alloc, *first)?, rest),
    }
}

/// No attempt was made, none failed, the inputs are the chain's own, and the job didn't succeed.
pub fn setting(alloc: Global) -> Result<Stmts, AllocError>
    ensures { IfOk result (λ ss. ss ≡ setting) }
{
    let mut stmts = one(alloc, set(alloc, "n", numeral(0))?)?;
    stmts.push(set(alloc, "bad", truth(false))?)?;
    stmts.push(set(alloc, "fresh", truth(true))?)?;
    stmts.push(set(alloc, "done", truth(false))?)?;
    Ok(stmts)
}

/// `ctx.n = (ctx.n + 1);`
pub fn counting(alloc: Global) -> Result<Stmts, AllocError>
    ensures { IfOk result (λ ss. ss ≡ counting) }
{
    let more = joined(alloc, BinaryOp::Add, plain(alloc, "n")?, numeral(1))?;
    one(alloc, set(alloc, "n", more)?)
}

/// `out name = ctx.job.outputs.name;`
fn passed_on(alloc: Global, name: &Text) -> Result<Stmt, AllocError>
    ensures { IfOk result (λ s. s ≡ passed_on_as name.now) }
{
    let value = output_of(alloc, "job", name)?;
    Ok(Stmt::Out(0, name_of(name)?, value))
}

/// The outputs of the job are the chain's.
pub fn passing(alloc: Global, outputs: &PortList) -> Result<Stmts, AllocError>
    ensures { IfOk result (λ ss. ss ≡ passing outputs.now) }
{
    let mut stmts = List::new(alloc);
    for port in outputs.as_slice() {
        stmts.push(passed_on(alloc, &port.name.text)?)?;
    }
    stmts.push(set(alloc, "done", truth(true))?)?;
    Ok(stmts)
}

/// `exit status;`
pub fn ending(alloc: Global, status: u32) -> Result<Stmts, AllocError>
    ensures { IfOk result (λ ss. ss ≡ ending status) }
{
    one(alloc, exit(status, None))
}

/// The next inputs are a function's outputs.
pub fn mending(alloc: Global) -> Result<Stmts, AllocError>
    ensures { IfOk result (λ ss. ss ≡ mending) }
{
    let mut stmts = one(alloc, set(alloc, "fresh", truth(false))?)?;
    stmts.push(set(alloc, "bad", truth(false))?)?;
    Ok(stmts)
}

/// A second failure ends the chain.
pub fn failing(alloc: Global) -> Result<Stmts, AllocError>
    ensures { IfOk result (λ ss. ss ≡ failing) }
{
    let mut stmts = one(alloc, exit(402, Some(plain(alloc, "bad")?)))?;
    stmts.push(set(alloc, "bad", truth(true))?)?;
    Ok(stmts)
}

/// `exit 401 if (not ctx.done);`
pub fn closing(alloc: Global) -> Result<Stmts, AllocError>
    ensures { IfOk result (λ ss. ss ≡ closing) }
{
    let undone = negated(alloc, plain(alloc, "done")?)?;
    one(alloc, exit(401, Some(undone)))
}
