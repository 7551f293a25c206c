//! Where the instructions, statements, rules and job lines of a definition begin.

ghost use Rattle.std.specs.Prelude.{◌≡◌, ◌++◌, map, flat_map, OnOk, IfOk};
ghost use Rattle.wc_syntax.specs.Findings.{places, line_places, rule_at, stmt_at, piece_places};
ghost use Rattle.wc_check.specs.Flat.{seen_piece, seen_pieces};

use crate::parts::Parts;
use crate::pieces::Piece;
use std::alloc::{AllocError, Global};
use wc_syntax::{Definition, Fetch, JobFile, JobLine, Rule, Stmt};

/// Where the instructions, statements, rules and job lines of a definition begin.
pub fn places(alloc: Global, parts: &Parts<'_>) -> Result<Vec<u32>, AllocError>
    ensures { IfOk result (λ ats. ats.items ≡ places parts.now) }
{
    let mut found = Vec::new(alloc);
    put_line_places(&mut found, parts.definition())?;
    put_rule_places(&mut found, parts.rules())?;
    put_piece_places(&mut found, parts.pieces())?;
    Ok(found)
}

/// Puts where the lines of a job begin behind the places that were found; other definitions have none.
fn put_line_places(found: &mut Vec<u32>, definition: &Definition) -> Result<(), AllocError>
    ensures { OnOk result (found.new.items ≡ found.old.items ++ line_places definition.now) }
{
    match definition {
        Definition::Function(_) => Ok(()),
        Definition::Job(job) => {
            found.push(job.program.at)?;
            put_arg_places(found, job.args.as_slice())?;
            put_file_places(found, job.files.as_slice())?;
            put_fetch_places(found, job.fetch.as_slice())?;
            Ok(())
        }
        Definition::Chain(_) => Ok(()),
    }
}

/// Puts where a job's arguments begin behind the places that were found.
fn put_arg_places(found: &mut Vec<u32>, lines: &[JobLine]) -> Result<(), AllocError>
    ensures { OnOk result (found.new.items ≡ found.old.items ++ map (λ l. l.at) lines.now) }
{
    for line in lines {
        found.push(line.at)?;
    }
    Ok(())
}

/// Puts where the lines of written files begin behind the places that were found.
fn put_file_places(found: &mut Vec<u32>, files: &[JobFile]) -> Result<(), AllocError>
    ensures { OnOk result (found.new.items ≡ found.old.items ++ map (λ f. f.at) files.now) }
{
    for file in files {
        found.push(file.at)?;
    }
    Ok(())
}

/// Puts where the lines of fetched files begin behind the places that were found.
fn put_fetch_places(found: &mut Vec<u32>, files: &[Fetch]) -> Result<(), AllocError>
    ensures { OnOk result (found.new.items ≡ found.old.items ++ map (λ f. f.at) files.now) }
{
    for file in files {
        found.push(file.at)?;
    }
    Ok(())
}

/// Puts where rules begin behind the places that were found.
fn put_rule_places(found: &mut Vec<u32>, rules: &[Rule]) -> Result<(), AllocError>
    ensures { OnOk result (found.new.items ≡ found.old.items ++ map rule_at rules.now) }
{
    for rule in rules {
        found.push(rule_at(rule))?;
    }
    Ok(())
}

/// Where a rule begins, in bytes.
fn rule_at(rule: &Rule) -> u32
    ensures { result ≡ rule_at rule.now }
{
    match rule {
        Rule::Let(at, _, _) => *at,
        Rule::Out(at, _, _) => *at,
        Rule::Exit(exit) => exit.at,
    }
}

/// Puts where the instructions and statements of an outline begin behind the places that were found.
fn put_piece_places(found: &mut Vec<u32>, pieces: &[Piece<'_>]) -> Result<(), AllocError>
    ensures { OnOk result (found.new.items ≡ found.old.items ++ flat_map piece_places (seen_pieces pieces.now)) }
{
    for piece in pieces {
        put_piece_place(found, piece)?;
    }
    Ok(())
}

/// Puts where a piece begins behind the places that were found, where it is an instruction or a statement.
fn put_piece_place(found: &mut Vec<u32>, piece: &Piece<'_>) -> Result<(), AllocError>
    ensures { OnOk result (found.new.items ≡ found.old.items ++ piece_places (seen_piece piece.now)) }
{
    match *piece {
        Piece::Begins(at) => {
            found.push(at)?;
            Ok(())
        }
        Piece::Named(_) => Ok(()),
        Piece::Does(stmt) => {
            found.push(stmt_at(stmt))?;
            Ok(())
        }
        Piece::Tests(_) => Ok(()),
        Piece::Returns(_) => Ok(()),
    }
}

/// Where a statement begins, in bytes.
fn stmt_at(stmt: &Stmt) -> u32
    ensures { result ≡ stmt_at stmt.now }
{
    match stmt {
        Stmt::Ctx(at, _, _) => *at,
        Stmt::Out(at, _, _) => *at,
        Stmt::Exit(exit) => exit.at,
        Stmt::Call(call) => call.at,
    }
}
