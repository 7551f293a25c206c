//! What a work chain is from now on.

ghost use Rattle.std.specs.Prelude.{◌≡◌};
ghost use Rattle.wc_changes.specs.Advances.{is_now};

use wc_state::{Part, ProcessRecord};
use wc_value::ProcessState;
use wc_world::{Change, SetProcess};

/// A work chain that is in this state from now on, with this fuel, and stands here.
pub fn is_now(process: &ProcessRecord, state: ProcessState, fuel: u64, part: Part) -> Change
    ensures { result ≡ is_now process.now state fuel part }
{
    Change::Set(SetProcess {
        pid: process.node,
        state,
        paused: false,
        cached_from: 0,
        fuel,
        code: None,
        part,
    })
}
