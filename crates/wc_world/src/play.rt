//! Changes that a world takes.

ghost use Rattle.std.specs.Prelude.{◌≡◌, ℕ, ◌<◌, ◌⊎◌, Some, None, OnOk, IfOk, IfErr};
ghost use Rattle.wc_world.specs.declared.error.WorldError.{WorldError};
ghost use Rattle.wc_world.specs.declared.error.WorldError.TheVariants as error;
ghost use Rattle.wc_world.specs.Applied.{changed, applied, begun};
ghost use Rattle.wc_world.specs.Fits.{unsettled};
ghost use Rattle.wc_world.specs.Accepted.{setting, IsAccepted, IsRefused, IsReached};
ghost use Rattle.wc_world.specs.Called.{AwaitsCalled};
ghost use Rattle.wc_world.specs.Drafts.{drafted, Ascends, AreSettledBut, Tells};
ghost use Rattle.wc_world.specs.Playing.{ApplyBy, FirstRefusedBy};

use crate::change::Changes;
use crate::copies::copy_changes;
use crate::draft::Draft;
use crate::effects::count;
use crate::error::WorldError;
use crate::played::Played;
use crate::terms::Terms;
use crate::world::World;
use std::alloc::{AllocError, Global};
use wc_value::{both, done, filled};

/// The most batches that a world takes.
const MOST_BATCHES: u32 = 4_000_000_000;

impl Played {
    /// The draft with which a batch begins.
    fn begin(self, alloc: Global) -> Draft
        requires { self.batches < 4000000000 }
        ensures world { drafted result ≡ begun self }
        ensures ascending { Ascends (drafted result) }
        ensures awaits { AwaitsCalled (drafted result) }
        ensures settled { AreSettledBut result.touched.items result.graph.links result.records.0 }
        ensures reached { IsReached self }
    {
        Draft {
            graph: self.graph,
            records: self.records,
            libraries: self.libraries,
            batches: self.batches + 1,
            touched: Vec::new(alloc),
        }
    }
}

impl Draft {
    /// Takes changes one after another.
    fn take_all(&mut self, alloc: Global, terms: &Terms, changes: Changes) -> Result<(), WorldError>
        requires ascending { Ascends (drafted self.old) }
        requires awaits { AwaitsCalled (drafted self.old) }
        requires settled { AreSettledBut self.old.touched.items self.old.graph.links self.old.records.0 }
        ensures each { OnOk result (ApplyBy terms.now (drafted self.old) changes) }
        ensures world { OnOk result (drafted self.new ≡ changed terms.now.batch (drafted self.old) changes) }
        ensures ascending { OnOk result (Ascends (drafted self.new)) }
        ensures settled { OnOk result (AreSettledBut self.new.touched.items self.new.graph.links self.new.records.0) }
        ensures refused { IfErr result (λ e. (e ≡ error.OutOfMemory) ⊎ FirstRefusedBy terms.now (drafted self.old) changes e) }
    {
        for change in changes.into_vec() {
            self.take(alloc, terms, change)?;
        }
        Ok(())
    }

    /// What was made, if each process is settled, or else the least one that isn't. Each process is looked at once.
    fn settle(mut self) -> Result<Played, WorldError>
        requires ascending { Ascends (drafted self) }
        requires others { AreSettledBut self.touched.items self.graph.links self.records.0 }
        requires reached { unsettled self.graph.links self.records.0 ≡ None → IsReached (drafted self) }
        ensures world { IfOk result (λ w. w ≡ drafted self) }
        ensures settled { OnOk result (unsettled self.graph.links self.records.0 ≡ None) }
        ensures refused { IfErr result (λ e. (pid : ℕ) × (unsettled self.graph.links self.records.0 ≡ Some pid) × (e ≡ error.BadRecord pid)) }
    {
        self.touched.sort_unstable();
        match self.find_unsettled() {
            Some(pid) => Err(WorldError::BadRecord(pid)),
            None => Ok(Played {
                graph: self.graph,
                records: self.records,
                libraries: self.libraries,
                batches: self.batches,
            }),
        }
    }
}

impl Played {
    /// Makes room for the changes, and changes nothing else.
    fn reserve(&mut self, changes: &Changes) -> Result<(), AllocError>
        ensures { self.new ≡ self.old }
    {
        let _ = changes.len();
        let need = count(changes.as_slice());
        self.graph.reserve(need.nodes as u32, need.links as u32)?;
        self.records.reserve(need.records)?;
        self.libraries.reserve(need.libraries)
    }

    /// What the changes are taken by, with room for them, where one batch more isn't too many.
    fn ready(&mut self, alloc: Global, changes: &Changes) -> Result<Terms, WorldError>
        ensures same { self.new ≡ self.old }
        ensures few { OnOk result (self.old.batches < 4000000000) }
        ensures tells { IfOk result (λ terms. Tells terms (setting self.old changes.now)) }
        ensures refused { IfErr result (λ e. (e ≡ error.OutOfMemory) ⊎ IsRefused self.old changes.now e) }
    {
        if self.batches >= MOST_BATCHES {
            return Err(WorldError::BadRecord(0));
        }
        let terms = self.terms(alloc, changes.as_slice())?;
        let reserved = self.reserve(changes);
        Ok(filled(terms, reserved)?)
    }

    /// What changes make of it, or else the first reason why it doesn't take them: one batch too many, the first change that
    /// doesn't apply to the world as those before it left it, or the first process that isn't settled after the last one.
    /// Each change is tested once, against what stands.
    pub fn play(alloc: Global, mut played: Played, changes: Changes) -> Result<Played, WorldError>
        ensures accepted { OnOk result (IsAccepted played changes) }
        ensures after { IfOk result (λ after. after ≡ applied played changes) }
        ensures refused { IfErr result (λ e. (e ≡ error.OutOfMemory) ⊎ IsRefused played changes e) }
    {
        let ready = played.ready(alloc, &changes);
        let ((played, changes), terms) = both((played, changes), ready)?;
        let mut draft = played.begin(alloc);
        let taken = draft.take_all(alloc, &terms, changes);
        filled(draft, taken)?.settle()
    }
}

impl World {
    /// Whether the world takes the changes, or else the first reason why not: one batch too many, the first change that
    /// doesn't apply to the world as those before it left it, or the first process that isn't settled after the last one.
    /// The changes are played on a copy of what made the world.
    pub fn accepts(&self, alloc: Global, changes: &Changes) -> Result<(), WorldError>
        ensures ok { OnOk result (IsAccepted self.now.world changes.now) }
        ensures refused { IfErr result (λ e. (e ≡ error.OutOfMemory) ⊎ IsRefused self.now.world changes.now e) }
    {
        let copied = both(self.copy(alloc)?, copy_changes(alloc, changes))?;
        let (played, changes) = copied;
        done(Played::play(alloc, played, changes))
    }
}
