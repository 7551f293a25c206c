//! Trees of processes, and what was asked for them.

ghost use Rattle.std.specs.Prelude.{◌≡◌, ◌∷◌, [], IfOk, map, flat_map, ◌++◌};
ghost use Rattle.wc_semantics.specs.Meaning.{kept, its_tree, its_asked, from_caller, chain_tree, leaf, killed_first, judged, strays, end, ended};

use std::alloc::{AllocError, Global};
use wc_semantics::{Answer, Asked, Flow, MadeCalls, Parsed, Progress, Replayed, final_status};
use wc_syntax::PortList;
use wc_value::{Branches, Duplicate, Fields, ProcessState, Request, Text, Tree, Words};

/// A call path, seen from a caller that made the call under this label.
fn path_from_caller(alloc: Global, label: &Text, path: Words) -> Result<Words, AllocError>
    ensures { IfOk result (λ p. p ≡ label.now ∷ path) }
{
    let mut longer = Words::new(alloc);
    longer.push(label.copy()?)?;
    for label in path.into_vec() {
        longer.push(label)?;
    }
    Ok(longer)
}

/// What a call asked, seen from its caller, behind what was asked before.
fn add_asked(alloc: Global, asked: Asked, label: &Text, more: Asked) -> Result<Asked, AllocError>
    ensures { IfOk result (λ a. a ≡ asked ++ map (from_caller label.now) more) }
{
    let mut all = asked;
    for (path, request) in more.into_vec() {
        all.push((path_from_caller(alloc, label, path)?, request))?;
    }
    Ok(all)
}

/// The trees of calls, each under its label, and what they asked.
fn gather(alloc: Global, calls: MadeCalls) -> Result<(Branches, Asked), AllocError>
    ensures branches { IfOk result (λ r. r.0 ≡ map its_tree calls) }
    ensures asked { IfOk result (λ r. r.1 ≡ flat_map its_asked calls) }
{
    let mut branches = Branches::new(alloc);
    let mut asked = Asked::new(alloc);
    for (label, replayed) in calls.into_vec() {
        let Replayed { tree, asked: more } = replayed;
        asked = add_asked(alloc, asked, &label, more)?;
        branches.push((label, tree))?;
    }
    Ok((branches, asked))
}

/// The outputs that a process keeps at its end: those of a finished one.
fn keep(alloc: Global, state: ProcessState, outputs: Fields) -> Fields
    ensures { result ≡ kept state outputs }
{
    match state {
        ProcessState::Finished(_) => outputs,
        _ => Fields::new(alloc),
    }
}

/// The tree of a work chain that ended in this state, with what was asked for it.
fn chain_tree(
    alloc: Global,
    name: &Text,
    state: ProcessState,
    progress: Progress,
) -> Result<Replayed, AllocError>
    ensures { IfOk result (λ r. r ≡ chain_tree name.now state progress) }
{
    let Progress {
        env: _env,
        outputs,
        calls,
    } = progress;
    let (branches, asked) = gather(alloc, calls)?;
    Ok(Replayed {
        tree: Tree {
            definition: name.copy()?,
            state,
            outputs: keep(alloc, state, outputs),
            calls: branches,
        },
        asked,
    })
}

/// The tree of a calculation, which calls nothing.
pub fn leaf(
    alloc: Global,
    name: &Text,
    parsed: Parsed,
    asked: Asked,
) -> Result<Replayed, AllocError>
    ensures { IfOk result (λ r. r ≡ leaf name.now parsed asked) }
{
    Ok(Replayed {
        tree: Tree {
            definition: name.copy()?,
            state: parsed.state,
            outputs: parsed.outputs,
            calls: Branches::new(alloc),
        },
        asked,
    })
}

/// The tree of a process that was killed before it called anything.
pub fn killed_first(alloc: Global, name: &Text) -> Result<Replayed, AllocError>
    ensures { IfOk result (λ r. r ≡ killed_first name.now) }
{
    let parsed = Parsed {
        state: ProcessState::Killed,
        outputs: Fields::new(alloc),
    };
    leaf(alloc, name, parsed, Asked::new(alloc))
}

/// What a job asked whose result was taken, seen from itself.
pub fn asked_itself(alloc: Global, request: Request) -> Result<Asked, AllocError>
    ensures { IfOk result (λ a. a ≡ ([], request) ∷ []) }
{
    let mut asked = Asked::new(alloc);
    asked.push((Words::new(alloc), request))?;
    Ok(asked)
}

/// The state of a chain at its end.
fn judge(ports: &PortList, state: ProcessState, outputs: &Fields) -> ProcessState
    ensures { result ≡ judged ports.now state outputs.now }
{
    match state {
        ProcessState::Finished(status) => {
            ProcessState::Finished(final_status(ports, status, outputs))
        }
        _ => state,
    }
}

/// Whether a run that was to be killed ends in another way.
fn strays(stop: Option<u32>, state: ProcessState) -> bool
    ensures { result ≡ strays stop state }
{
    stop.is_some() && !matches!(state, ProcessState::Killed)
}

/// The answer at an end of a run.
fn end(
    alloc: Global,
    name: &Text,
    stop: Option<u32>,
    state: ProcessState,
    fuel: u64,
    progress: Progress,
) -> Result<Answer, AllocError>
    ensures { IfOk result (λ a. a ≡ end stop name.now state fuel progress) }
{
    if strays(stop, state) {
        return Ok(Answer::Astray);
    }
    Ok(Answer::Gave(chain_tree(alloc, name, state, progress)?, fuel))
}

/// The answer at the end of a run.
pub fn finish(
    alloc: Global,
    name: &Text,
    ports: &PortList,
    stop: Option<u32>,
    flow: Flow,
) -> Result<Answer, AllocError>
    ensures { IfOk result (λ a. a ≡ ended stop name.now ports.now flow) }
{
    match flow {
        Flow::Goes(fuel, progress) => {
            let state = judge(ports, ProcessState::Finished(0), &progress.outputs);
            end(alloc, name, stop, state, fuel, progress)
        }
        Flow::Ends(state, fuel, progress) => {
            let state = judge(ports, state, &progress.outputs);
            end(alloc, name, stop, state, fuel, progress)
        }
        Flow::NoFuel => Ok(Answer::TooLittle),
        Flow::Lacks(request) => Ok(Answer::Without(request)),
        Flow::Off => Ok(Answer::Astray),
    }
}
