//! Live processes.

ghost use Rattle.std.specs.Prelude.{◌≡◌, false, Some, IfOk, IfErr};
ghost use Rattle.wc_world.specs.Records.{find_record, has_ended};
ghost use Rattle.wc_machine.specs.Refusals.{RefusesLive};

use crate::error::TurnError;
use wc_state::ProcessRecord;
use wc_world::{World, has_ended};

/// The live process with this number.
pub fn live_process(world: &World, pid: u32) -> Result<&ProcessRecord, TurnError>
    ensures found { IfOk result (λ process. find_record pid world.now.world.records ≡ Some process.now) }
    ensures live { IfOk result (λ process. has_ended process.now.state ≡ false) }
    ensures refused { IfErr result (RefusesLive world.now.world pid) }
{
    match world.record_of(pid) {
        None => Err(TurnError::UnknownProcess),
        Some(process) => {
            if has_ended(process.state) {
                Err(TurnError::Ended(process.state))
            } else {
                Ok(process)
            }
        }
    }
}
