//! The names of a job's files.

ghost use Rattle.std.specs.Prelude.{◌≡◌, flat_map, OnOk};
ghost use Rattle.std.specs.List.{list_all};
ghost use Rattle.wc_syntax.specs.Findings.{is_among, is_file_byte, is_file_name, output_files, bad_written, bad_fetched, bad_file_names, repeated_files};
ghost use Rattle.wc_check.specs.Least.{least_after};

use crate::best::{Best, Fault};
use crate::names::is_either;
use crate::repeats::repeats;
use std::alloc::{AllocError, Global};
use wc_syntax::{Definition, Fetch, JobFile};

const MOST_FILE_NAME_BYTES: usize = 64;

/// The names of a job's `file` lines differ, and those of its `fetch` lines.
#[tactic(auto, using(crate::proofs::Leasts::least_joined))]
pub fn repeated_files<'a>(
    alloc: Global,
    best: &mut Best<'a>,
    definition: &'a Definition,
) -> Result<(), AllocError>
    ensures { OnOk result (best.new ≡ least_after best.old (repeated_files definition.now)) }
{
    match definition {
        Definition::Function(_) => Ok(()),
        Definition::Job(job) => {
            repeats(alloc, best, job.files.as_slice())?;
            repeats(alloc, best, job.fetch.as_slice())?;
            Ok(())
        }
        Definition::Chain(_) => Ok(()),
    }
}

/// A job's files have names that they may have, and none that is written has that of the program's own output.
#[tactic(auto, using(crate::proofs::Leasts::least_joined))]
pub fn bad_file_names<'a>(best: &mut Best<'a>, definition: &'a Definition)
    ensures { best.new ≡ least_after best.old (bad_file_names definition.now) }
{
    match definition {
        Definition::Function(_) => {}
        Definition::Job(job) => {
            bad_written(best, job.files.as_slice());
            bad_fetched(best, job.fetch.as_slice());
        }
        Definition::Chain(_) => {}
    }
}

/// Offers each file that a job writes whose name isn't that of a file, or is that of an output.
fn bad_written<'a>(best: &mut Best<'a>, files: &'a [JobFile])
    ensures { best.new ≡ least_after best.old (flat_map bad_written files.now) }
{
    for file in files {
        let name = file.name.text.as_str();
        let is_kept = is_file_name(name) && !is_output_file(name);
        best.offer_unless(is_kept, Fault::BadName, name, file.name.at);
    }
}

/// Offers each file that a job fetches whose name isn't that of a file.
fn bad_fetched<'a>(best: &mut Best<'a>, files: &'a [Fetch])
    ensures { best.new ≡ least_after best.old (flat_map bad_fetched files.now) }
{
    for file in files {
        let name = file.name.text.as_str();
        best.offer_unless(is_file_name(name), Fault::BadName, name, file.name.at);
    }
}

/// Whether the program's own output has this name.
fn is_output_file(name: &str) -> bool
    ensures { result ≡ is_among name.now output_files }
{
    is_either(name, "stdout.txt", "stderr.txt")
}

/// Whether a job's file may have this name.
fn is_file_name(name: &str) -> bool
    ensures { result ≡ is_file_name name.now }
{
    let bytes = name.as_bytes();
    1 <= bytes.len()
        && bytes.len() <= MOST_FILE_NAME_BYTES
        && are_file_bytes(bytes)
        && !bytes.starts_with(b".".as_slice())
        && !bytes.starts_with(b"_wc".as_slice())
}

/// Whether each of these bytes may stand in the name of a file.
fn are_file_bytes(bytes: &[u8]) -> bool
    ensures { result ≡ list_all is_file_byte bytes.now }
{
    for byte in bytes {
        if !is_file_byte(*byte) {
            return false;
        }
    }
    true
}

/// A letter, a digit, `.`, `_` or `-`.
fn is_file_byte(byte: u8) -> bool
    ensures { result ≡ is_file_byte byte }
{
    (b'A' <= byte && byte <= b'Z')
        || (b'a' <= byte && byte <= b'z')
        || (b'0' <= byte && byte <= b'9')
        || byte == b'.'
        || byte == b'_'
        || byte == b'-'
}
