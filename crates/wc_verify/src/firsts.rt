//! The least two jobs that asked the same and have different results.

ghost use Rattle.std.specs.Prelude.{◌≡◌, if◌then◌else◌, ◌++◌, List, [], ◌∷◌, IfOk, OnOk};
ghost use Rattle.wc_verify.specs.Firsts.{AreBelow, AreFirsts, FitsFirst, Noted, first_named, lesser};

use std::alloc::{AllocError, Global};
use std::collections::BTreeMap;
use wc_value::{JobResult, same_result};

/// The first job that asked for something, and its result.
#[derive(Drop)]
pub(crate) struct First {
    pid: u32,
    result: JobResult,
}

/// The first jobs by the bytes of what they asked, and the least two that asked the same and have different results.
#[derive(Drop)]
pub struct Firsts {
    by_request: BTreeMap<Vec<u8>, First>,
    least: Option<(u32, u32)>,
}

/// The first job that asked this, and whether its result is this one.
fn first_of(
    by_request: &BTreeMap<Vec<u8>, First>,
    request: &[u8],
    given: &JobResult,
) -> Option<(u32, bool)>
    ensures { FitsFirst given.now (first_named request.now by_request.now) result }
{
    match by_request.get(request) {
        Some(first) => Some((first.pid, same_result(&first.result, given))),
        None => None,
    }
}

/// The least pair once a second job with a greater number than all before asked what a first one asked, with the same
/// result or not.
fn least_after(least: Option<(u32, u32)>, first: u32, same: bool, second: u32) -> Option<(u32, u32)>
    ensures { result ≡ (if same then least else lesser least first second) }
{
    match least {
        _ if same => least,
        Some((one, _)) if one <= first => least,
        _ => Some((first, second)),
    }
}

impl Firsts {
    /// Before any job.
    pub fn new(alloc: Global) -> Firsts
        ensures { AreFirsts [] result }
    {
        Firsts {
            by_request: BTreeMap::new(alloc),
            least: None,
        }
    }

    /// Notes what a job asked and its result. The number of the job is greater than those of the ones before.
    pub fn note(&mut self, request: Vec<u8>, pid: u32, given: JobResult) -> Result<(), AllocError>
        ensures { OnOk result ((seen : List Noted) → AreBelow pid seen → AreFirsts seen self.old
            → AreFirsts (seen ++ record { pid = pid; asked = request.items; result = given } ∷ []) self.new) }
    {
        let Some((first, same)) = first_of(&self.by_request, request.as_slice(), &given) else {
            self.by_request
                .insert(request, First { pid, result: given })?;
            return Ok(());
        };
        self.least = least_after(self.least, first, same, pid);
        Ok(())
    }

    /// The least two jobs that asked the same and have different results.
    pub fn least(&self) -> Option<(u32, u32)>
        ensures { result ≡ self.now.least }
    {
        self.least
    }
}
