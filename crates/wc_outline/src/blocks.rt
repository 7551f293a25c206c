//! The blocks of an outline in the order of their opening braces.

ghost use Rattle.std.specs.Prelude.{◌≡◌, ◌+◌, ◌^◌, ◌<◌, ◌++◌, length, suc, flat_map, OnOk};
ghost use Rattle.wc_machine.specs.Outlines.{blocks, blocks_in};
ghost use Rattle.wc_outline.specs.Places.{behind, arm_blocks};

use std::alloc::AllocError;
use wc_state::Frame;
use wc_syntax::{Arms, Block, Instr, Instrs};
use wc_value::List;

/// Puts a block and those in it behind others.
#[cycle(blocks)]
pub fn put_block<'a>(found: &mut List<&'a Instrs>, block: &'a Block) -> Result<(), AllocError>
    ensures { OnOk result (behind found.new ≡ behind found.old ++ blocks block.now) }
{
    found.push(&block.instrs)?;
    put_blocks(found, block.instrs.as_slice())
}

/// Puts the blocks in instructions behind others.
#[cycle(blocks)]
pub fn put_blocks<'a>(found: &mut List<&'a Instrs>, instrs: &'a [Instr]) -> Result<(), AllocError>
    ensures { OnOk result (behind found.new ≡ behind found.old ++ flat_map blocks_in instrs.now) }
{
    for instr in instrs {
        put_blocks_in(found, instr)?;
    }
    Ok(())
}

/// Puts the blocks in an instruction behind others.
#[cycle(blocks)]
fn put_blocks_in<'a>(found: &mut List<&'a Instrs>, instr: &'a Instr) -> Result<(), AllocError>
    ensures { OnOk result (behind found.new ≡ behind found.old ++ blocks_in instr.now) }
{
    match instr {
        Instr::Step(_) => Ok(()),
        Instr::If(_, arms, other) => {
            put_arms(found, arms)?;
            match other {
                Some(block) => put_block(found, block),
                None => Ok(()),
            }
        }
        Instr::While(_, _, body) => put_block(found, body),
        Instr::Return(_, _) => Ok(()),
    }
}

/// Puts the blocks of arms behind others.
#[cycle(blocks)]
fn put_arms<'a>(found: &mut List<&'a Instrs>, arms: &'a Arms) -> Result<(), AllocError>
    ensures { OnOk result (behind found.new ≡ behind found.old ++ arm_blocks arms.now) }
{
    for arm in arms.as_slice() {
        put_block(found, &arm.block)?;
    }
    Ok(())
}

/// The number of the block that follows a frame's own and these.
pub fn number_behind(frame: Frame, passed: &[&Instrs]) -> u32
    requires { suc frame.block + length passed.now < 2 ^ 32 }
    ensures { result ≡ suc frame.block + length passed.now }
{
    frame.block + 1 + passed.len() as u32
}
