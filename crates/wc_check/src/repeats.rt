//! Items that names stand for, and names that stand twice among them.

ghost use Rattle.std.specs.Prelude.{◌≡◌, [], ◌∷◌, ◌++◌, map, not, OnOk, IfOk};
ghost use Rattle.wc_syntax.specs.Findings.{head_of, is_among, unless, twice, repeats};
ghost use Rattle.wc_check.specs.Least.{least_after, Agree};

use crate::best::{Best, Fault};
use crate::names::Names;
use std::alloc::{AllocError, Global};
use wc_syntax::{CallArg, Definition, Fetch, Head, JobFile, Port};

/// An item that a name stands for.
pub trait Placed {
    ghost use Rattle.std.specs.Prelude.{List, ℕ};

    /// The name and its place.
    ghost placed: { Self → List ℕ × ℕ };

    /// The name.
    fn name(&self) -> &str
        ensures { result.now ≡ (placed self.now).0 };

    /// Where the name stands.
    fn at(&self) -> u32
        ensures { result ≡ (placed self.now).1 };
}

impl Placed for Port {
    ghost use Rattle.wc_syntax.specs.Findings.{placed};

    ghost placed = { λ p. placed p.name };

    /// The name of a port.
    fn name(&self) -> &str {
        self.name.text.as_str()
    }

    /// Where that name begins, in bytes.
    fn at(&self) -> u32 {
        self.name.at
    }
}

impl Placed for CallArg {
    ghost use Rattle.wc_syntax.specs.Findings.{placed};

    ghost placed = { λ a. placed a.port };

    /// The port that an argument names.
    fn name(&self) -> &str {
        self.port.text.as_str()
    }

    /// Where that name begins, in bytes.
    fn at(&self) -> u32 {
        self.port.at
    }
}

impl Placed for JobFile {
    ghost use Rattle.wc_syntax.specs.Findings.{placed_quoted};

    ghost placed = { λ f. placed_quoted f.name };

    /// The name of a file that a job writes.
    fn name(&self) -> &str {
        self.name.text.as_str()
    }

    /// Where that name begins, in bytes.
    fn at(&self) -> u32 {
        self.name.at
    }
}

impl Placed for Fetch {
    ghost use Rattle.wc_syntax.specs.Findings.{placed_quoted};

    ghost placed = { λ f. placed_quoted f.name };

    /// The name of a file that a job fetches.
    fn name(&self) -> &str {
        self.name.text.as_str()
    }

    /// Where that name begins, in bytes.
    fn at(&self) -> u32 {
        self.name.at
    }
}

/// What every definition begins with.
pub fn head_of(definition: &Definition) -> &Head
    ensures { result.now ≡ head_of definition.now }
{
    match definition {
        Definition::Function(function) => &function.head,
        Definition::Job(job) => &job.head,
        Definition::Chain(chain) => &chain.head,
    }
}

impl Placed for Definition {
    ghost use Rattle.wc_syntax.specs.Findings.{placed, head_of};

    ghost placed = { λ d. placed (head_of d).name };

    /// The name of a definition.
    fn name(&self) -> &str {
        head_of(self).name.text.as_str()
    }

    /// Where that name begins, in bytes.
    fn at(&self) -> u32 {
        head_of(self).name.at
    }
}

/// Adds a name to those before it, and finds it where it is one of them.
pub fn meet<'a>(
    alloc: Global,
    best: &mut Best<'a>,
    names: &mut Names,
    name: &'a str,
    at: u32,
) -> Result<(), AllocError>
    ensures best { OnOk result (best.new ≡ least_after best.old (unless (not (is_among name.now names.old)) (twice name.now at))) }
    ensures names { OnOk result (Agree names.new (names.old ++ name.now ∷ [])) }
{
    if !names.add(alloc, name)? {
        best.offer(Fault::Twice, name, at);
    }
    Ok(())
}

/// Finds each name that one of those before it has.
pub fn repeats<'a, T: Placed>(
    alloc: Global,
    best: &mut Best<'a>,
    items: &'a [T],
) -> Result<(), AllocError>
    ensures { OnOk result (best.new ≡ least_after best.old (repeats (map T.placed items.now))) }
{
    let mut names = Names::new(alloc);
    for item in items {
        meet(alloc, best, &mut names, item.name(), item.at())?;
    }
    Ok(())
}

/// The names of these.
pub fn names_of<T: Placed>(alloc: Global, items: &[T]) -> Result<Names, AllocError>
    ensures { IfOk result (λ names. Agree names (map (λ x. (T.placed x).0) items.now)) }
{
    let mut names = Names::new(alloc);
    for item in items {
        names.add(alloc, item.name())?;
    }
    Ok(names)
}
