//! A world on its way through one batch.

ghost use Rattle.std.specs.Prelude.{◌≡◌, ℕ, [], ◌∷◌, ◌++◌, ◌<◌, ◌⊎◌, length, OnOk, IfErr};
ghost use Rattle.wc_world.specs.declared.change.Change.TheVariants as change;
ghost use Rattle.wc_world.specs.declared.error.WorldError.TheVariants as error;
ghost use Rattle.wc_world.specs.Applied.{after_change};
ghost use Rattle.wc_world.specs.Accepted.{Setting, Fits, Refuses};
ghost use Rattle.wc_world.specs.Called.{AwaitsCalled, SetFits, SetsFitting};
ghost use Rattle.wc_world.specs.Drafts.{drafted, Ascends, FitsBy, RefusesBy, touched_by};

use crate::change::Change;
use crate::checks::{check_count, check_data, check_kept, check_library, check_process, check_set};
use crate::effects::set_process;
use crate::error::WorldError;
use crate::terms::Terms;
use crate::world::Libraries;
use std::alloc::{AllocError, Global};
use wc_graph::{Graph, GraphError, Link, NodeKind, is_call};
use wc_keys::{call_fits, node_of_kind};
use wc_records::{Kept, NewProcess, Records, SetProcess};
use wc_syntax::Checked;
use wc_value::{Value, Words};

/// A world after some changes of a batch, in which a process may be unsettled.
#[derive(Drop)]
pub(crate) struct Draft {
    /// The provenance graph.
    pub graph: Graph,
    /// The records of the processes.
    pub records: Records,
    /// The libraries.
    pub libraries: Libraries,
    /// How many batches there were.
    pub batches: u32,
    /// The numbers of the processes that the changes made, set or linked from.
    pub touched: Vec<u32>,
}

/// Puts a node at the end, where there is a number for it.
fn add_node(graph: &mut Graph, kind: NodeKind) -> Result<(), AllocError>
    requires { length graph.old.nodes < 8000000 }
    ensures nodes { OnOk result (graph.new.nodes ≡ graph.old.nodes ++ kind ∷ []) }
    ensures links { graph.new.links ≡ graph.old.links }
{
    match graph.add_node(kind) {
        Ok(_) => Ok(()),
        Err(GraphError::OutOfMemory) => Err(AllocError),
        Err(_) => unreachable!(),
    }
}

impl Draft {
    fn take_library(&mut self, library: Checked, names: Words) -> Result<(), WorldError>
        ensures fits { OnOk result ((s : Setting) → Fits s (drafted self.old) (change.Library library names)) }
        ensures world { OnOk result ((batch : ℕ) → drafted self.new ≡ after_change batch (drafted self.old) (change.Library library names)) }
        ensures touched { self.new.touched.items ≡ self.old.touched.items }
        ensures refused { IfErr result (λ e. (e ≡ error.OutOfMemory) ⊎ ((s : Setting) → Refuses s (drafted self.old) (change.Library library names) e)) }
    {
        check_library(&names)?;
        self.libraries.push((library, names))?;
        Ok(())
    }

    fn take_data(&mut self, value: Value) -> Result<(), WorldError>
        ensures fits { OnOk result ((s : Setting) → Fits s (drafted self.old) (change.Data value)) }
        ensures world { OnOk result ((batch : ℕ) → drafted self.new ≡ after_change batch (drafted self.old) (change.Data value)) }
        ensures touched { self.new.touched.items ≡ self.old.touched.items }
        ensures refused { IfErr result (λ e. (e ≡ error.OutOfMemory) ⊎ ((s : Setting) → Refuses s (drafted self.old) (change.Data value) e)) }
    {
        check_data(self, &value)?;
        add_node(&mut self.graph, NodeKind::Data(value))?;
        Ok(())
    }

    fn take_process(&mut self, process: NewProcess) -> Result<(), WorldError>
        requires { Ascends (drafted self.old) }
        ensures fits { OnOk result ((s : Setting) → Fits s (drafted self.old) (change.Process process)) }
        ensures world { OnOk result ((batch : ℕ) → drafted self.new ≡ after_change batch (drafted self.old) (change.Process process)) }
        ensures touched { OnOk result (self.new.touched.items ≡ self.old.touched.items ++ touched_by (drafted self.old) (change.Process process)) }
        ensures refused { IfErr result (λ e. (e ≡ error.OutOfMemory) ⊎ ((s : Setting) → Refuses s (drafted self.old) (change.Process process) e)) }
    {
        check_process(self, &process)?;
        let number = self.graph.nodes().len() as u32 + 1;
        self.touched.push(number)?;
        self.records.reserve(1)?;
        add_node(&mut self.graph, node_of_kind(process.kind))?;
        self.records.push(number, process);
        Ok(())
    }

    fn take_link(&mut self, link: Link) -> Result<(), WorldError>
        ensures fits { OnOk result ((s : Setting) → Fits s (drafted self.old) (change.Link link)) }
        ensures world { OnOk result ((batch : ℕ) → drafted self.new ≡ after_change batch (drafted self.old) (change.Link link)) }
        ensures touched { OnOk result (self.new.touched.items ≡ self.old.touched.items ++ touched_by (drafted self.old) (change.Link link)) }
        ensures refused { IfErr result (λ e. (e ≡ error.OutOfMemory) ⊎ ((s : Setting) → Refuses s (drafted self.old) (change.Link link) e)) }
    {
        self.touched.push(link.source)?;
        let target = link.target;
        let fits = !is_call(link.link) || call_fits(&self.records, &link);
        match self.graph.add_link(link) {
            Ok(()) => {
                if fits {
                    Ok(())
                } else {
                    Err(WorldError::BadRecord(target))
                }
            }
            Err(GraphError::OutOfMemory) => Err(WorldError::OutOfMemory),
            Err(refusal) => Err(WorldError::Graph(refusal)),
        }
    }

    fn take_set(&mut self, alloc: Global, terms: &Terms, set: SetProcess) -> Result<(), WorldError>
        requires { AwaitsCalled (drafted self.old) }
        ensures sets { OnOk result (SetFits (drafted self.old) set) }
        ensures fits { OnOk result (FitsBy terms.now (drafted self.old) (change.Set set)) }
        ensures world { OnOk result (drafted self.new ≡ after_change terms.now.batch (drafted self.old) (change.Set set)) }
        ensures touched { OnOk result (self.new.touched.items ≡ self.old.touched.items ++ touched_by (drafted self.old) (change.Set set)) }
        ensures refused { IfErr result (λ e. (e ≡ error.OutOfMemory) ⊎ RefusesBy terms.now (drafted self.old) (change.Set set) e) }
    {
        check_set(alloc, self, terms, &set)?;
        self.touched.push(set.pid)?;
        set_process(&self.graph, &mut self.records, terms.batch, set);
        Ok(())
    }

    fn take_count(&mut self, terms: &Terms, count: u32) -> Result<(), WorldError>
        ensures fits { OnOk result (FitsBy terms.now (drafted self.old) (change.Count count)) }
        ensures world { OnOk result (drafted self.new ≡ after_change terms.now.batch (drafted self.old) (change.Count count)) }
        ensures touched { self.new.touched.items ≡ self.old.touched.items }
        ensures refused { IfErr result (λ e. RefusesBy terms.now (drafted self.old) (change.Count count) e) }
    {
        check_count(self, terms, count)?;
        self.batches = count;
        Ok(())
    }

    fn take_kept(&mut self, terms: &Terms, kept: Kept) -> Result<(), WorldError>
        ensures fits { OnOk result (FitsBy terms.now (drafted self.old) (change.Kept kept)) }
        ensures world { OnOk result (drafted self.new ≡ after_change terms.now.batch (drafted self.old) (change.Kept kept)) }
        ensures touched { self.new.touched.items ≡ self.old.touched.items }
        ensures refused { IfErr result (λ e. RefusesBy terms.now (drafted self.old) (change.Kept kept) e) }
    {
        check_kept(self, terms, &kept)?;
        self.records.keep(kept);
        Ok(())
    }

    /// Tests one change against what stands, and applies it.
    pub(crate) fn take(
        &mut self,
        alloc: Global,
        terms: &Terms,
        change: Change,
    ) -> Result<(), WorldError>
        requires ascending { Ascends (drafted self.old) }
        requires awaits { AwaitsCalled (drafted self.old) }
        ensures sets { OnOk result (SetsFitting (drafted self.old) change) }
        ensures fits { OnOk result (FitsBy terms.now (drafted self.old) change) }
        ensures world { OnOk result (drafted self.new ≡ after_change terms.now.batch (drafted self.old) change) }
        ensures touched { OnOk result (self.new.touched.items ≡ self.old.touched.items ++ touched_by (drafted self.old) change) }
        ensures refused { IfErr result (λ e. (e ≡ error.OutOfMemory) ⊎ RefusesBy terms.now (drafted self.old) change e) }
    {
        match change {
            Change::Library(library, names) => self.take_library(library, names),
            Change::Data(value) => self.take_data(value),
            Change::Process(process) => self.take_process(process),
            Change::Link(link) => self.take_link(link),
            Change::Set(set) => self.take_set(alloc, terms, set),
            Change::Count(count) => self.take_count(terms, count),
            Change::Kept(kept) => self.take_kept(terms, kept),
        }
    }
}
