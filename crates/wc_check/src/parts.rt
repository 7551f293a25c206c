//! A definition taken apart: its inputs, its rules and the pieces of its outline.

ghost use Rattle.std.specs.Prelude.{◌≡◌, IfOk};
ghost use Rattle.wc_syntax.specs.Findings.{inputs_of, pieces_of, rules_of};
ghost use Rattle.wc_check.specs.Flat.{seen_pieces};
ghost use Rattle.wc_check.specs.Least.{Agree};

use crate::names::Names;
use crate::pieces::{Piece, pieces_of_block};
use crate::repeats::{head_of, names_of};
use std::alloc::{AllocError, Global};
use std::marker::Model;
use wc_syntax::{Definition, Rule};

/// A definition taken apart. Contracts see the definition.
#[derive(Drop)]
pub struct Parts<'a> {
    definition: &'a Definition,
    inputs: Names,
    pieces: Vec<Piece<'a>>,
}

impl<'a> Model for Parts<'a> {
    ghost use Rattle.std.specs.Prelude.{◌≡◌};
    ghost use Rattle.wc_syntax.specs.declared.definition.Definition.{Definition};
    ghost use Rattle.wc_syntax.specs.Findings.{inputs_of, pieces_of};
    ghost use Rattle.wc_check.specs.Flat.{seen_pieces};
    ghost use Rattle.wc_check.specs.Least.{Agree};

    ghost Value = { Definition };

    ghost use Rattle.wc_syntax.specs.contracts.definition.Definition as row;

    ghost coded = { row.the_row.coded };

    ghost view = { λ p. p.definition.now };

    ghost invariant = { λ p. (Agree p.inputs (inputs_of p.definition.now)) × (seen_pieces p.pieces.items ≡ pieces_of p.definition.now) };
}

impl<'a> Parts<'a> {
    /// The parts of a definition.
    pub fn of(alloc: Global, definition: &'a Definition) -> Result<Parts<'a>, AllocError>
        ensures { IfOk result (λ parts. parts ≡ definition.now) }
    {
        let pieces = pieces_of(alloc, definition)?;
        let inputs = names_of(alloc, head_of(definition).inputs.as_slice())?;
        Ok(Parts {
            definition,
            inputs,
            pieces,
        })
    }

    /// The definition.
    pub fn definition(&self) -> &'a Definition
        ensures { result.now ≡ self.now }
    {
        self.definition
    }

    /// The names of its input ports.
    pub fn inputs(&self) -> &Names
        ensures { Agree result.now (inputs_of self.now) }
    {
        &self.inputs
    }

    /// The rules of a function, or those of a job's `parse`.
    pub fn rules(&self) -> &'a [Rule]
        ensures { result.now ≡ rules_of self.now }
    {
        rules_of(self.definition)
    }

    /// The pieces of a work chain's outline.
    pub fn pieces(&self) -> &[Piece<'a>]
        ensures { seen_pieces result.now ≡ pieces_of self.now }
    {
        self.pieces.as_slice()
    }
}

/// The rules of a function, or those of a job's `parse`.
fn rules_of(definition: &Definition) -> &[Rule]
    ensures { result.now ≡ rules_of definition.now }
{
    match definition {
        Definition::Function(function) => function.rules.as_slice(),
        Definition::Job(job) => job.parse.as_slice(),
        Definition::Chain(_) => &[],
    }
}

/// The pieces of a work chain's outline.
fn pieces_of<'a>(alloc: Global, definition: &'a Definition) -> Result<Vec<Piece<'a>>, AllocError>
    ensures { IfOk result (λ ps. seen_pieces ps.items ≡ pieces_of definition.now) }
{
    match definition {
        Definition::Function(_) => Ok(Vec::new(alloc)),
        Definition::Job(_) => Ok(Vec::new(alloc)),
        Definition::Chain(chain) => pieces_of_block(alloc, &chain.outline),
    }
}
