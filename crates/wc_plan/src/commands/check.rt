//! Whether a file holds a checked library.

ghost use Rattle.std.specs.Prelude.{◌≡◌, IfOk};
ghost use Rattle.wc_plan.specs.Dry.{owed_check};

use crate::libraries::Read;
use crate::reply::{Reply, print, refuse};
use crate::text::definitions_line;
use std::alloc::{AllocError, Global};

/// The reply of `check` for a file that is read as this.
pub(crate) fn reply_to_check(alloc: Global, read: Read) -> Result<Reply, AllocError>
    ensures { IfOk result (λ r. r ≡ owed_check read) }
{
    match read {
        Read::Refused(cause) => refuse(alloc, cause),
        Read::Library(library) => { Ok(print(definitions_line(alloc, library.library().len())?)) }
    }
}
