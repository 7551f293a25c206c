//! What a turn comes to, as changes.

ghost use Rattle.std.specs.Prelude.{◌≡◌, ◌++◌, ◌+◌, ◌<◌, ◌≤◌, ◌^◌, length, IfOk, OnOk};
ghost use Rattle.wc_world.specs.Snapshot.{number_of};
ghost use Rattle.wc_machine.specs.Ends.{creations, ends};
ghost use Rattle.wc_machine.specs.Turns.{job_set};
ghost use Rattle.wc_calculation_turns.specs.Courses.{added_nodes, course_changes};

use crate::courses::{Course, End};
use crate::tasks::JobStep;
use std::alloc::{AllocError, Global};
use wc_graph::{Link, LinkType};
use wc_state::{Part, ProcessRecord};
use wc_value::{Duplicate, Fields, ProcessState};
use wc_world::{Change, Changes, SetProcess, World};

/// Puts a data node for each output at the end, from the first one on, each with the link that creates it.
fn put_outputs(
    changes: &mut Changes,
    first: u32,
    pid: u32,
    outputs: &Fields,
) -> Result<(), AllocError>
    requires { first + length outputs.now < 2 ^ 32 }
    ensures { OnOk result (changes.new ≡ changes.old ++ creations first pid outputs.now) }
{
    let mut next = first;
    for (label, value) in outputs.as_slice() {
        changes.push(Change::Data(value.copy()?))?;
        changes.push(Change::Link(Link {
            source: pid,
            target: next,
            link: LinkType::Create,
            label: label.copy()?,
        }))?;
        next += 1;
    }
    Ok(())
}

/// The number that tells a source, 0 for none.
fn number_of(source: Option<u32>) -> u32
    ensures { result ≡ number_of source }
{
    match source {
        Some(number) => number,
        None => 0,
    }
}

/// The changes of a calculation that ends.
fn ends(
    alloc: Global,
    world: &World,
    process: &ProcessRecord,
    end: &End,
) -> Result<Changes, AllocError>
    requires { length world.now.world.nodes + length end.now.parsed.outputs ≤ 8000000 }
    ensures { IfOk result (λ cs. cs ≡ ends world.now.world process.now end.now.parsed end.now.source end.now.code) }
{
    let next = world.graph().nodes().len() as u32 + 1;
    let mut changes = Changes::new(alloc);
    put_outputs(&mut changes, next, process.node, &end.parsed.outputs)?;
    changes.push(Change::Set(SetProcess {
        pid: process.node,
        state: end.parsed.state,
        paused: false,
        cached_from: number_of(end.source),
        fuel: process.fuel,
        code: end.code,
        part: Part::Over,
    }))?;
    Ok(changes)
}

/// What a job is that waits.
fn waits(process: &ProcessRecord, step: &JobStep) -> Change
    ensures { result ≡ job_set process.now step.now.part step.now.paused }
{
    Change::Set(SetProcess {
        pid: process.node,
        state: ProcessState::Waiting,
        paused: step.paused,
        cached_from: 0,
        fuel: process.fuel,
        code: None,
        part: Part::Job(step.part),
    })
}

/// What a turn comes to, as changes.
pub(crate) fn course_changes(
    alloc: Global,
    world: &World,
    process: &ProcessRecord,
    course: &Course,
) -> Result<Changes, AllocError>
    requires { length world.now.world.nodes + added_nodes course.now ≤ 8000000 }
    ensures { IfOk result (λ cs. cs ≡ course_changes world.now.world process.now course.now) }
{
    match course {
        Course::Ends(end) => ends(alloc, world, process, end),
        Course::Waits(step) => {
            let mut changes = Changes::new(alloc);
            changes.push(waits(process, step))?;
            Ok(changes)
        }
    }
}
