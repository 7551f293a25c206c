//! Archives: what an archive of a root is, what an import of one makes of a world, and when it is refused.
//!
//! The archive of an ended root has all that the root called and their data. It is judged as a world of its own, and an import adds that
//! world to another, in one batch.
#![tactic(auto)]

mod archived;
mod exported;
mod laws;
mod marks;

pub use exported::export_text;
pub use laws::{
    archives_are_parts_of_imports, archives_are_these_worlds, exports_are_one,
    good_archives_are_consistent, imports_are_accepted, imports_are_one, imports_keep_sound,
    imports_keep_tables, imports_make_these_worlds, refusals_are_one, sums_are_archived,
};
