//! What is told of a drill.

ghost use Rattle.std.specs.Prelude.{◌≡◌, ◌≤◌, IfOk};
ghost use Rattle.wc_drill.specs.Texts.{drilled_text};

use std::alloc::{AllocError, Global};
use wc_value::Text;

/// The text of a drill: so many chains, with two jobs and a function each, what all squares add up to, and how many batches were committed.
pub fn drilled_text(
    alloc: Global,
    chains: u32,
    sum: u64,
    committed: u32,
) -> Result<Text, AllocError>
    requires few { chains ≤ 10000 }
    ensures { IfOk result (λ text. text ≡ drilled_text chains sum committed) }
{
    let jobs = 2 * chains;
    Text::of_string(format!(in alloc;
        "chains {chains} jobs {jobs} functions {chains}\nsum {sum}\ncommitted {committed}\n"
    )?)
}
