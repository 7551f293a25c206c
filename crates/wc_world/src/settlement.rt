//! Whether each process of a draft is settled.

ghost use Rattle.std.specs.Prelude.{◌≡◌, Some, None};
ghost use Rattle.wc_world.specs.Fits.{unsettled};
ghost use Rattle.wc_world.specs.Drafts.{drafted, Ascends, AreSettledBut, is_unsettled, is_last, lesser, with_one, least_from};

use crate::draft::Draft;
use wc_keys::is_settled;

/// The lesser of a number, where there is one, and another.
fn lesser(least: Option<u32>, pid: u32) -> Option<u32>
    ensures { result ≡ lesser least pid }
{
    match least {
        None => Some(pid),
        Some(least) => { if least < pid { Some(least) } else { Some(pid) } }
    }
}

/// Whether this number is the last one, where there is one.
fn is_last(last: Option<u32>, pid: u32) -> bool
    ensures { result ≡ is_last last pid }
{
    match last {
        None => false,
        Some(last) => last == pid,
    }
}

impl Draft {
    /// Whether there is a process of this number which isn't settled.
    fn is_unsettled(&self, pid: u32) -> bool
        ensures { result ≡ is_unsettled self.now.graph.links self.now.records.0 pid }
    {
        match self.records.find(pid) {
            None => false,
            Some(record) => !is_settled(&self.graph, record),
        }
    }

    /// The lesser of a number, where there is one, and that of a process, where it isn't settled.
    fn with_one(&self, least: Option<u32>, pid: u32) -> Option<u32>
        ensures { result ≡ with_one self.now.graph.links self.now.records.0 least pid }
    {
        if self.is_unsettled(pid) {
            return lesser(least, pid);
        }
        least
    }

    /// The least of the processes that were touched and aren't settled. Of equal numbers next to each other one is looked at.
    fn least_touched(&self) -> Option<u32>
        ensures { result ≡ least_from self.now.graph.links self.now.records.0 None self.now.touched.items }
    {
        let mut least = None;
        let mut last = None;
        for pid in self.touched.as_slice() {
            if is_last(last, *pid) {
                continue;
            }
            least = self.with_one(least, *pid);
            last = Some(*pid);
        }
        least
    }

    /// The least process that isn't settled, where those that weren't touched are.
    pub(crate) fn find_unsettled(&self) -> Option<u32>
        requires ascending { Ascends (drafted self.now) }
        requires others { AreSettledBut self.now.touched.items self.now.graph.links self.now.records.0 }
        ensures { result ≡ unsettled self.now.graph.links self.now.records.0 }
    {
        self.least_touched()
    }
}
