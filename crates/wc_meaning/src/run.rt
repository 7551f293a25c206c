//! The run of an outline, and the meaning of a definition.

ghost use Rattle.std.specs.Prelude.{◌≡◌, [], IfOk, map};
ghost use Rattle.std.specs.Option.{option_map, option_copied};
ghost use Rattle.std.specs.Int.{w32, saturate_unsigned};
ghost use Rattle.wc_semantics.specs.Tables.{row_of, plain, kills_of};
ghost use Rattle.wc_semantics.specs.Run.{run_block as run_of, exec as exec_of, choose, arm_act, turns, take_calls, make_calls, is_stop, step_of, with_call as with_call_of, returned as returned_of};
ghost use Rattle.wc_semantics.specs.Meaning.{job as job_of, ended, first, leaf, meaning};
ghost use Rattle.wc_semantics.specs.Requests.{request};
ghost use Rattle.wc_semantics.specs.Outcomes.{calculated, excepted, parsed};
ghost use Rattle.wc_meaning.specs.Settings.{around_in};

use crate::kills::{KillsBelow, sort_kills};
use crate::statements::{Setting, run_statements};
use crate::trees::{asked_itself, finish, killed_first, leaf};
use std::alloc::{AllocError, Global};
use wc_expression::{Outcome, eval_condition};
use wc_semantics::{
    Answer, Asked, Flow, Kills, MadeCalls, Parsed, Plan, Planned, Progress, Replayed, Stepped,
    bind_child, calculate, environment, label_of, parse_result, request_of,
};
use wc_state::{Child, Env};
use wc_syntax::{
    Arms, Block, Chain, Definition, Expr, Function, Instr, Job, Library, Number, Stmts,
    find_definition,
};
use wc_value::{Duplicate, Fields, JobResult, ProcessState, Reason, Request, Table, Text};

/// The result of the row with this request. It looks at few rows, however many there are.
fn find_result<'a>(
    alloc: Global,
    table: &'a Table,
    request: &Request,
) -> Result<Option<&'a JobResult>, AllocError>
    ensures { IfOk result (λ found. option_copied found ≡ row_of request.now table.now) }
{
    table.find_spelled(alloc, request)
}

/// The status of a `return`.
fn returned(code: &Option<Number>) -> u32
    ensures { result ≡ returned_of code.now }
{
    match code {
        None => 0,
        Some(number) => {
            if number.value < 0 {
                0
            } else if number.value > 0xffff_ffff {
                u32::MAX
            } else {
                number.value as u32
            }
        }
    }
}

/// A block, instruction by instruction.
#[cycle(run)]
fn run_block(
    alloc: Global,
    setting: &Setting<'_>,
    block: &Block,
    fuel: u64,
    progress: Progress,
) -> Result<Flow, AllocError>
    ensures { IfOk result (λ f. f ≡ run_of block.now (around_in setting.now) fuel progress) }
{
    let mut left = fuel;
    let mut now = progress;
    for instr in block.instrs.as_slice() {
        match run_instr(alloc, setting, instr, left, now)? {
            Flow::Goes(fuel, progress) => {
                left = fuel;
                now = progress;
            }
            Flow::Ends(state, fuel, progress) => return Ok(Flow::Ends(state, fuel, progress)),
            Flow::NoFuel => return Ok(Flow::NoFuel),
            Flow::Lacks(request) => return Ok(Flow::Lacks(request)),
            Flow::Off => return Ok(Flow::Off),
        }
    }
    Ok(Flow::Goes(left, now))
}

/// An instruction.
#[cycle(run)]
fn run_instr(
    alloc: Global,
    setting: &Setting<'_>,
    instr: &Instr,
    fuel: u64,
    progress: Progress,
) -> Result<Flow, AllocError>
    ensures { IfOk result (λ f. f ≡ exec_of instr.now (around_in setting.now) fuel progress) }
{
    match instr {
        Instr::Step(step) => run_step(alloc, setting, &step.stmts, fuel, progress),
        Instr::If(_, arms, other) => run_branch(alloc, setting, arms, other, fuel, progress),
        Instr::While(_, condition, body) => run_loop(
            alloc, setting, condition, body, fuel, progress,
        ),
        Instr::Return(_, code) => Ok(Flow::Ends(
            ProcessState::Finished(returned(code)),
            fuel,
            progress,
        )),
    }
}

/// The block behind the first true condition, or that of the `else`.
#[cycle(run)]
fn run_branch(
    alloc: Global,
    setting: &Setting<'_>,
    arms: &Arms,
    other: &Option<Block>,
    fuel: u64,
    progress: Progress,
) -> Result<Flow, AllocError>
    ensures { IfOk result (λ f. f ≡ choose (map arm_act arms.now) (option_map run_of other.now) (around_in setting.now) fuel progress) }
{
    for arm in arms.as_slice() {
        match eval_condition(alloc, &arm.condition, &progress.env)? {
            Outcome::Gives(true) => return run_block(alloc, setting, &arm.block, fuel, progress),
            Outcome::Gives(false) => {}
            Outcome::Faults(reason) => return Ok(Flow::Ends(
                ProcessState::Excepted(reason),
                fuel,
                progress,
            )),
        }
    }
    match other {
        Some(block) => run_block(alloc, setting, block, fuel, progress),
        None => Ok(Flow::Goes(fuel, progress)),
    }
}

/// A loop, turn by turn.
#[cycle(run)]
fn run_loop(
    alloc: Global,
    setting: &Setting<'_>,
    condition: &Expr,
    body: &Block,
    fuel: u64,
    progress: Progress,
) -> Result<Flow, AllocError>
    ensures { IfOk result (λ f. f ≡ turns fuel condition.now (run_of body.now) (around_in setting.now) fuel progress) }
{
    let mut left = fuel;
    let mut now = progress;
    for _turn in 0..fuel {
        match eval_condition(alloc, condition, &now.env)? {
            Outcome::Gives(true) => {}
            Outcome::Gives(false) => return Ok(Flow::Goes(left, now)),
            Outcome::Faults(reason) => return Ok(Flow::Ends(
                ProcessState::Excepted(reason),
                left,
                now,
            )),
        }
        if left == 0 {
            return Ok(Flow::NoFuel);
        }
        match run_block(alloc, setting, body, left - 1, now)? {
            Flow::Goes(fuel, progress) => {
                left = fuel;
                now = progress;
            }
            Flow::Ends(state, fuel, progress) => return Ok(Flow::Ends(state, fuel, progress)),
            Flow::NoFuel => return Ok(Flow::NoFuel),
            Flow::Lacks(request) => return Ok(Flow::Lacks(request)),
            Flow::Off => return Ok(Flow::Off),
        }
    }
    match eval_condition(alloc, condition, &now.env)? {
        Outcome::Gives(true) => Ok(Flow::NoFuel),
        Outcome::Gives(false) => Ok(Flow::Goes(left, now)),
        Outcome::Faults(reason) => Ok(Flow::Ends(ProcessState::Excepted(reason), left, now)),
    }
}

/// A step: its statements, and then the calls that they collected.
#[cycle(run)]
fn run_step(
    alloc: Global,
    setting: &Setting<'_>,
    stmts: &Stmts,
    fuel: u64,
    progress: Progress,
) -> Result<Flow, AllocError>
    ensures { IfOk result (λ f. f ≡ step_of stmts.now (around_in setting.now) fuel progress) }
{
    let Progress {
        env,
        outputs,
        calls,
    } = progress;
    match run_statements(alloc, setting, stmts, env, outputs)? {
        Stepped::Stops(state, env, outputs) => Ok(Flow::Ends(
            state,
            fuel,
            Progress {
                env,
                outputs,
                calls,
            },
        )),
        Stepped::Makes(plan, env, outputs) => make_calls(
            alloc,
            setting,
            &plan,
            fuel,
            Progress {
                env,
                outputs,
                calls,
            },
        ),
    }
}

/// Whether as many calls were made as the stop says.
fn is_stop(stop: Option<u32>, calls: usize) -> bool
    ensures { result ≡ is_stop stop calls }
{
    match stop {
        Some(count) => count as usize == calls,
        None => false,
    }
}

/// The calls of a step, and the kill behind them where there is one.
#[cycle(run)]
fn make_calls(
    alloc: Global,
    setting: &Setting<'_>,
    plan: &Plan,
    fuel: u64,
    progress: Progress,
) -> Result<Flow, AllocError>
    ensures { IfOk result (λ f. f ≡ make_calls plan.now (around_in setting.now) fuel progress) }
{
    if plan.is_empty() {
        return Ok(Flow::Goes(fuel, progress));
    }
    match take_calls(alloc, setting, plan, fuel, progress)? {
        Flow::Goes(left, progress) => {
            if is_stop(setting.stop, progress.calls.len()) {
                return Ok(Flow::Ends(ProcessState::Killed, left, progress));
            }
            Ok(Flow::Goes(left, progress))
        }
        Flow::Ends(state, left, progress) => Ok(Flow::Ends(state, left, progress)),
        Flow::NoFuel => Ok(Flow::NoFuel),
        Flow::Lacks(request) => Ok(Flow::Lacks(request)),
        Flow::Off => Ok(Flow::Off),
    }
}

/// The calls of a step, one after another.
#[cycle(run)]
fn take_calls(
    alloc: Global,
    setting: &Setting<'_>,
    plan: &Plan,
    fuel: u64,
    progress: Progress,
) -> Result<Flow, AllocError>
    ensures { IfOk result (λ f. f ≡ take_calls plan.now (around_in setting.now) fuel progress) }
{
    let mut left = fuel;
    let mut now = progress;
    for planned in plan.as_slice() {
        if left == 0 {
            return Ok(Flow::NoFuel);
        }
        let label = label_of(alloc, &planned.key, now.calls.len() + 1)?;
        match call(alloc, setting, &label, left - 1, planned)? {
            Answer::Gave(replayed, rest) => {
                now = with_call(alloc, planned, label, replayed, now)?;
                left = rest;
            }
            Answer::TooLittle => return Ok(Flow::NoFuel),
            Answer::Without(request) => return Ok(Flow::Lacks(request)),
            Answer::Astray => return Ok(Flow::Off),
        }
    }
    Ok(Flow::Goes(left, now))
}

/// What a call gives, with the kills under its label.
#[cycle(run)]
fn call(
    alloc: Global,
    setting: &Setting<'_>,
    label: &Text,
    fuel: u64,
    planned: &Planned,
) -> Result<Answer, AllocError>
    ensures { IfOk result (λ a. a ≡ (around_in setting.now).call label.now fuel planned.now.callee planned.now.inputs) }
{
    if setting.levels == 0 {
        return Ok(Answer::Astray);
    }
    mean_below(
        alloc,
        setting.library,
        setting.levels - 1,
        setting.table,
        &setting.kills.below(label),
        fuel,
        &planned.callee,
        &planned.inputs,
    )
}

/// The progress with a call that was taken.
fn with_call(
    alloc: Global,
    planned: &Planned,
    label: Text,
    replayed: Replayed,
    progress: Progress,
) -> Result<Progress, AllocError>
    ensures { IfOk result (λ e. e ≡ with_call_of planned.now label replayed progress) }
{
    let Progress {
        env,
        outputs,
        mut calls,
    } = progress;
    let Env { inputs, ctx } = env;
    let child = Child {
        node: 0,
        state: replayed.tree.state,
        outputs: environment(alloc, &replayed.tree.outputs)?.inputs,
    };
    let ctx = bind_child(alloc, ctx, planned.key.copy()?, planned.append, child)?;
    calls.push((label, replayed))?;
    Ok(Progress {
        env: Env { inputs, ctx },
        outputs,
        calls,
    })
}

/// What a work chain gives, which is killed after so many calls where `stop` has a number.
#[cycle(run)]
fn mean_chain(
    alloc: Global,
    setting: &Setting<'_>,
    name: &Text,
    outline: &Block,
    fuel: u64,
    inputs: &Fields,
) -> Result<Answer, AllocError>
    ensures { IfOk result (λ a. a ≡ ended setting.now.stop name.now setting.now.ports.now (run_of outline.now (around_in setting.now) fuel (first inputs.now))) }
{
    let progress = Progress {
        env: environment(alloc, inputs)?,
        outputs: Fields::new(alloc),
        calls: MadeCalls::new(alloc),
    };
    let flow = run_block(alloc, setting, outline, fuel, progress)?;
    finish(alloc, name, setting.ports, setting.stop, flow)
}

/// What a function gives.
fn mean_function(
    alloc: Global,
    name: &Text,
    function: &Function,
    fuel: u64,
    inputs: &Fields,
) -> Result<Answer, AllocError>
    ensures { IfOk result (λ a. a ≡ Answer.Gave (leaf name.now (calculated function.now inputs.now) []) fuel) }
{
    let parsed = calculate(alloc, function, inputs)?;
    Ok(Answer::Gave(leaf(alloc, name, parsed, Asked::new(alloc))?, fuel))
}

/// What a job gives that asks nothing, since its request is a reason.
fn mean_unasked(alloc: Global, name: &Text, reason: Reason, fuel: u64) -> Result<Answer, AllocError>
    ensures { IfOk result (λ a. a ≡ Answer.Gave (leaf name.now (excepted reason []) []) fuel) }
{
    let parsed = Parsed {
        state: ProcessState::Excepted(reason),
        outputs: Fields::new(alloc),
    };
    Ok(Answer::Gave(leaf(alloc, name, parsed, Asked::new(alloc))?, fuel))
}

/// What a job gives.
fn mean_job(
    alloc: Global,
    name: &Text,
    job: &Job,
    table: &Table,
    fuel: u64,
    inputs: &Fields,
) -> Result<Answer, AllocError>
    ensures { IfOk result (λ a. a ≡ job_of name.now (request job.now inputs.now) (parsed job.now inputs.now) (λ q. row_of q table.now) fuel) }
{
    let request = match request_of(alloc, job, inputs)? {
        Outcome::Gives(request) => request,
        Outcome::Faults(reason) => return mean_unasked(alloc, name, reason, fuel),
    };
    match find_result(alloc, table, &request)? {
        None => Ok(Answer::Without(request)),
        Some(result) => {
            let parsed = parse_result(alloc, job, inputs, result)?;
            let asked = asked_itself(alloc, request)?;
            Ok(Answer::Gave(leaf(alloc, name, parsed, asked)?, fuel))
        }
    }
}

/// The meaning of a definition under kills in order, where at most `levels` calls stand in one another below it.
#[cycle(run)]
fn mean_below(
    alloc: Global,
    library: &Library,
    levels: u32,
    table: &Table,
    kills: &KillsBelow<'_>,
    fuel: u64,
    name: &Text,
    inputs: &Fields,
) -> Result<Answer, AllocError>
    ensures { IfOk result (λ a. a ≡ meaning levels library.now (plain table.now) (kills_of kills.now) fuel name.now inputs.now) }
{
    let stop = kills.own();
    if let Some(0) = stop {
        return Ok(Answer::Gave(killed_first(alloc, name)?, fuel));
    }
    match find_definition(library, name) {
        None => Ok(Answer::Astray),
        Some(Definition::Chain(chain)) => {
            let setting = Setting {
                library,
                table,
                kills,
                levels,
                ports: &chain.head.outputs,
                stop,
            };
            mean_chain(alloc, &setting, name, &chain.outline, fuel, inputs)
        }
        Some(Definition::Function(function)) => match stop {
            None => mean_function(alloc, name, function, fuel, inputs),
            Some(_) => Ok(Answer::Astray),
        },
        Some(Definition::Job(job)) => match stop {
            None => mean_job(alloc, name, job, table, fuel, inputs),
            Some(_) => Ok(Answer::Astray),
        },
    }
}

/// The meaning of a definition, where at most `levels` calls stand in one another below it.
pub fn mean(
    alloc: Global,
    library: &Library,
    levels: u32,
    table: &Table,
    kills: &Kills,
    fuel: u64,
    name: &Text,
    inputs: &Fields,
) -> Result<Answer, AllocError>
    ensures { IfOk result (λ a. a ≡ meaning levels library.now (plain table.now) (kills_of kills.now) fuel name.now inputs.now) }
{
    let rows = sort_kills(kills)?;
    let kills = KillsBelow::of(rows.as_slice());
    mean_below(alloc, library, levels, table, &kills, fuel, name, inputs)
}
