//! How many instructions each block of an outline has.

ghost use Rattle.std.specs.Prelude.{◌≡◌, [], ◌∷◌, ◌++◌, flat_map, OnOk, IfOk};
ghost use Rattle.wc_fits.specs.Blocks.{block_lengths, lengths_of};
ghost use Rattle.wc_fits.specs.Levels.{lengths_in_instr, lengths_in_arm};

use std::alloc::{AllocError, Global};
use wc_syntax::{Arms, Block, Definition, Instr};

/// How many instructions each block of a definition has, by number.
pub(crate) fn lengths_of(alloc: Global, definition: &Definition) -> Result<Vec<u32>, AllocError>
    ensures { IfOk result (λ lengths. lengths.items ≡ lengths_of definition.now) }
{
    let mut found = Vec::new(alloc);
    match definition {
        Definition::Chain(chain) => {
            put_block(&mut found, &chain.outline)?;
            Ok(found)
        }
        _ => Ok(found),
    }
}

#[cycle(lengths)]
fn put_block(found: &mut Vec<u32>, block: &Block) -> Result<(), AllocError>
    ensures { OnOk result (found.new.items ≡ found.old.items ++ block_lengths block.now) }
{
    found.push(block.instrs.len() as u32)?;
    for instr in block.instrs.as_slice() {
        put_instr(found, instr)?;
    }
    Ok(())
}

#[cycle(lengths)]
fn put_instr(found: &mut Vec<u32>, instr: &Instr) -> Result<(), AllocError>
    ensures { OnOk result (found.new.items ≡ found.old.items ++ lengths_in_instr instr.now) }
{
    match instr {
        Instr::Step(_) => Ok(()),
        Instr::If(_, arms, other) => {
            put_arms(found, arms)?;
            match other {
                Some(block) => {
                    put_block(found, block)?;
                    Ok(())
                }
                None => Ok(()),
            }
        }
        Instr::While(_, _, block) => {
            put_block(found, block)?;
            Ok(())
        }
        Instr::Return(_, _) => Ok(()),
    }
}

#[cycle(lengths)]
fn put_arms(found: &mut Vec<u32>, arms: &Arms) -> Result<(), AllocError>
    ensures { OnOk result (found.new.items ≡ found.old.items ++ flat_map lengths_in_arm arms.now) }
{
    for arm in arms.as_slice() {
        put_block(found, &arm.block)?;
    }
    Ok(())
}
