//! The pieces of an outline, in the order of the file.

ghost use Rattle.std.specs.Prelude.{◌≡◌, [], ◌∷◌, ◌++◌, map, flat_map, OnOk, IfOk};
ghost use Rattle.wc_syntax.specs.Mentions.{Does, pieces, step_pieces};
ghost use Rattle.wc_check.specs.Flat.{seen_piece, seen_pieces, pieces_of_instr, pieces_of_arm};

use std::alloc::{AllocError, Global};
use wc_syntax::{Arms, Block, Expr, Instr, Name, Number, Step, Stmt};

/// What an outline consists of, piece by piece.
#[derive(Clone, Copy)]
pub enum Piece<'a> {
    /// An instruction begins here.
    Begins(u32),
    /// The name of a step.
    Named(&'a Name),
    /// A statement of a step.
    Does(&'a Stmt),
    /// The condition of an `if`, an `elif` or a `while`.
    Tests(&'a Expr),
    /// The number behind `return`.
    Returns(&'a Number),
}

/// The pieces of an outline, in the order of the file.
pub fn pieces_of_block<'a>(alloc: Global, outline: &'a Block) -> Result<Vec<Piece<'a>>, AllocError>
    ensures { IfOk result (λ ps. seen_pieces ps.items ≡ pieces outline.now) }
{
    let mut found = Vec::new(alloc);
    put_block(&mut found, outline)?;
    Ok(found)
}

/// Puts a piece at the end.
fn put_piece<'a>(found: &mut Vec<Piece<'a>>, piece: Piece<'a>) -> Result<(), AllocError>
    ensures { OnOk result (seen_pieces found.new.items ≡ seen_pieces found.old.items ++ seen_piece piece.entry ∷ []) }
{
    found.push(piece)?;
    Ok(())
}

/// Puts the pieces of a block behind those that were found.
#[cycle(pieces)]
fn put_block<'a>(found: &mut Vec<Piece<'a>>, block: &'a Block) -> Result<(), AllocError>
    ensures { OnOk result (seen_pieces found.new.items ≡ seen_pieces found.old.items ++ pieces block.now) }
{
    for instr in block.instrs.as_slice() {
        put_instr(found, instr)?;
    }
    Ok(())
}

/// Puts the pieces of an instruction behind those that were found.
#[cycle(pieces)]
fn put_instr<'a>(found: &mut Vec<Piece<'a>>, instr: &'a Instr) -> Result<(), AllocError>
    ensures { OnOk result (seen_pieces found.new.items ≡ seen_pieces found.old.items ++ pieces_of_instr instr.now) }
{
    match instr {
        Instr::Step(step) => put_step(found, step),
        Instr::If(at, arms, other) => {
            put_piece(found, Piece::Begins(*at))?;
            put_arms(found, arms)?;
            match other {
                Some(block) => {
                    put_block(found, block)?;
                    Ok(())
                }
                None => Ok(()),
            }
        }
        Instr::While(at, condition, block) => {
            put_piece(found, Piece::Begins(*at))?;
            put_piece(found, Piece::Tests(condition))?;
            put_block(found, block)?;
            Ok(())
        }
        Instr::Return(at, status) => {
            put_piece(found, Piece::Begins(*at))?;
            match status {
                Some(status) => {
                    put_piece(found, Piece::Returns(status))?;
                    Ok(())
                }
                None => Ok(()),
            }
        }
    }
}

/// Puts the pieces of the arms of an `if` behind those that were found.
#[cycle(pieces)]
fn put_arms<'a>(found: &mut Vec<Piece<'a>>, arms: &'a Arms) -> Result<(), AllocError>
    ensures { OnOk result (seen_pieces found.new.items ≡ seen_pieces found.old.items ++ flat_map pieces_of_arm arms.now) }
{
    for arm in arms.as_slice() {
        put_piece(found, Piece::Tests(&arm.condition))?;
        put_block(found, &arm.block)?;
    }
    Ok(())
}

/// Puts the pieces of a step behind those that were found.
fn put_step<'a>(found: &mut Vec<Piece<'a>>, step: &'a Step) -> Result<(), AllocError>
    ensures { OnOk result (seen_pieces found.new.items ≡ seen_pieces found.old.items ++ step_pieces step.now) }
{
    put_piece(found, Piece::Begins(step.at))?;
    put_piece(found, Piece::Named(&step.name))?;
    put_stmts(found, step.stmts.as_slice())?;
    Ok(())
}

/// Puts a piece for each statement behind those that were found.
fn put_stmts<'a>(found: &mut Vec<Piece<'a>>, stmts: &'a [Stmt]) -> Result<(), AllocError>
    ensures { OnOk result (seen_pieces found.new.items ≡ seen_pieces found.old.items ++ map Does stmts.now) }
{
    for stmt in stmts {
        put_piece(found, Piece::Does(stmt))?;
    }
    Ok(())
}
