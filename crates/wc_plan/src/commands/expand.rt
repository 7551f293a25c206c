//! A library with a restart chain added, with no store.

ghost use Rattle.std.specs.Prelude.{◌≡◌, [], ◌∷◌, ◌++◌, IfOk};
ghost use Rattle.wc_handlers.specs.Reading.{spec_in};
ghost use Rattle.wc_plan.specs.Counts.{CountsShelf};
ghost use Rattle.wc_plan.specs.Expand.{asked_behind, owed_content, owed_spec, OwesExpand};
ghost use Rattle.wc_plan.specs.Naming.{AsksFirst};

use crate::error::PlanError;
use crate::further::content_from;
use crate::libraries::Read;
use crate::reply::{Reply, print, refuse};
use crate::status::Cause;
use std::alloc::{AllocError, Global};
use wc_expansion::{RestartError, expand};
use wc_io::Shelf;
use wc_syntax::Checked;
use wc_value::{Bytes, Duplicate, Text};

/// The reply of `expand` for a library and the bytes of a spec file.
fn reply_for_bytes(alloc: Global, library: &Checked, bytes: &Bytes) -> Result<Reply, AllocError>
    ensures { IfOk result (λ r. r ≡ owed_spec library.now (spec_in bytes.now)) }
{
    match expand(alloc, library, bytes.bytes()) {
        Ok(expanded) => Ok(print(expanded.text(alloc)?)),
        Err(RestartError::OutOfMemory) => Err(AllocError),
        Err(error) => refuse(alloc, Cause::Restart(error)),
    }
}

/// The reply of `expand` for a library and the content of the spec file of this name, none where there is no such file.
fn reply_for_content(
    alloc: Global,
    library: &Checked,
    spec: &Text,
    content: Option<Bytes>,
) -> Result<Reply, AllocError>
    ensures { IfOk result (λ r. r ≡ owed_content library.now spec.now content) }
{
    match content {
        None => refuse(alloc, Cause::NoFile(spec.copy()?)),
        Some(bytes) => reply_for_bytes(alloc, library, &bytes),
    }
}

/// The reply of `expand` for a library's file that is read as this. The spec file is read then, unless that one is refused.
#[tactic(auto, using(crate::proofs::Naming::asks_nothing))]
pub(crate) fn reply_to_expand<R: Shelf>(
    alloc: Global,
    shelf: &mut R,
    read: Read,
    spec: &Text,
) -> Result<Reply, PlanError>
    ensures owes { IfOk result (λ r. OwesExpand (R.contents shelf.old) spec.now read r) }
    ensures counts { CountsShelf result (R.faults shelf.old) (R.faults shelf.new) (R.failed shelf.new) }
    ensures kept { R.contents shelf.new ≡ R.contents shelf.old }
    ensures asked { R.asked shelf.new ≡ R.asked shelf.old ++ asked_behind spec.now read }
{
    match read {
        Read::Refused(cause) => Ok(refuse(alloc, cause)?),
        Read::Library(library) => {
            let content = content_from(alloc, shelf, spec)?;
            Ok(reply_for_content(alloc, &library, spec, content)?)
        }
    }
}
