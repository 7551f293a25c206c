//! What words ask for, as the shelf's files make it. No disk is in scope.

ghost use Rattle.std.specs.Prelude.{◌≡◌, ◌≤◌, [], ◌∷◌, ◌++◌, None, Some, IfOk};
ghost use Rattle.wc_state.specs.Ranges.{AreLimits};
ghost use Rattle.wc_cli.specs.Words.{command_of};
ghost use Rattle.wc_cli.specs.declared.command.Command.TheVariants.{Expand};
ghost use Rattle.wc_query.specs.Words.{query_of};
ghost use Rattle.wc_plan.specs.Counts.{CountsShelf};
ghost use Rattle.wc_plan.specs.Expand.{SparesSpec};
ghost use Rattle.wc_plan.specs.Naming.{given_file, files_named, AsksFirst};
ghost use Rattle.wc_plan.specs.Plans.{IsReadyPlan, NamesNoFile, Plans, PlansSubmission, chains_of, plan_of_prepared, plan_of_query, plan_of_run, seed_of};
ghost use Rattle.wc_plan.specs.Settings.{SettingsFrom, SettingsReady};
ghost use Rattle.wc_plan.specs.Submits.{SubmitsReady};

use crate::commands::{Trial, reply_to_check, reply_to_dry, reply_to_expand};
use crate::deed::{Asked, Begin, Deed, Plan, RunOptions, Shown, Work};
use crate::error::PlanError;
use crate::libraries::read_from;
use crate::reply::refuse;
use crate::settings::{read_settings_content, submitted_with, usual_settings};
use crate::status::Cause;
use crate::submission::{Prepared, prepare};
use std::alloc::{AllocError, Global};
use wc_cli::{Command, Given, command_of};
use wc_config::Settings;
use wc_io::{Shelf, ShelfError};
use wc_query::{QueryError, parse_query};
use wc_value::{Text, Words};

/// The settings of a command that names this file of the shelf, or none, or why there are none.
#[tactic(auto, using(crate::proofs::Naming::asks_nothing))]
fn read_settings_from<R: Shelf>(
    alloc: Global,
    shelf: &mut R,
    file: &Option<Text>,
) -> Result<Result<Settings, Cause>, PlanError>
    ensures settings { IfOk result (λ s. SettingsFrom (R.contents shelf.old) file.now s) }
    ensures ready { IfOk result (λ s. SettingsReady s) }
    ensures counts { CountsShelf result (R.faults shelf.old) (R.faults shelf.new) (R.failed shelf.new) }
    ensures unasked { file.now ≡ None → shelf.new ≡ shelf.old }
    ensures kept { R.contents shelf.new ≡ R.contents shelf.old }
    ensures named { R.asked shelf.new ≡ R.asked shelf.old ++ given_file file.now }
{
    let Some(file) = file else {
        return Ok(Ok(usual_settings(alloc)));
    };
    match shelf.read(alloc, file) {
        Ok(content) => Ok(read_settings_content(alloc, file, content)?),
        Err(ShelfError::OutOfMemory) => Err(PlanError::OutOfMemory),
        Err(ShelfError::Failed) => Err(PlanError::ReadFault),
    }
}

/// A refusal, or that a process is submitted with these settings.
fn plan_of_prepared(
    alloc: Global,
    settings: &Settings,
    prepared: Prepared,
) -> Result<Plan, AllocError>
    requires ready { SubmitsReady prepared }
    requires limits { AreLimits settings.now.limits }
    ensures plan { IfOk result (λ p. p ≡ plan_of_prepared settings.now prepared) }
    ensures ready { IfOk result (λ p. IsReadyPlan p) }
{
    match prepared {
        Prepared::Refused(cause) => Ok(Plan::Reply(refuse(alloc, cause)?)),
        Prepared::Submits(invocation) => {
            let submission = submitted_with(alloc, settings, invocation)?;
            Ok(Plan::On(Deed::Work(Work::Event(Asked::Submit(submission)))))
        }
    }
}

/// What the words of `submit` plan with these settings.
#[tactic(auto, using(crate::proofs::Naming::asks_none))]
fn plan_submission<R: Shelf>(
    alloc: Global,
    shelf: &mut R,
    file: &Text,
    name: &Text,
    given: &[Given],
    inputs: &Option<Text>,
    settings: Result<Settings, Cause>,
) -> Result<Plan, PlanError>
    requires ready { SettingsReady settings }
    ensures plans { IfOk result (λ p. PlansSubmission (R.contents shelf.old) file.now name.now given.now inputs.now settings p) }
    ensures ready { IfOk result (λ p. IsReadyPlan p) }
    ensures counts { CountsShelf result (R.faults shelf.old) (R.faults shelf.new) (R.failed shelf.new) }
    ensures kept { R.contents shelf.new ≡ R.contents shelf.old }
    ensures named { AsksFirst (file.now ∷ given_file inputs.now) (R.asked shelf.old) (R.asked shelf.new) }
{
    match settings {
        Err(cause) => Ok(Plan::Reply(refuse(alloc, cause)?)),
        Ok(settings) => {
            let prepared = prepare(alloc, shelf, file, name, given, inputs)?;
            Ok(plan_of_prepared(alloc, &settings, prepared)?)
        }
    }
}

/// A seed in 32 bits; words give none that is greater.
fn seed_of(seed: u64) -> u32
    ensures { result ≡ seed_of seed }
{
    u32::try_from(seed).unwrap_or(u32::MAX)
}

/// How many chains a drill may run at most; words give none that are more.
fn chains_of(count: u32) -> u32
    ensures value { result ≡ chains_of count }
    ensures few { result ≤ 10000 }
{
    if count < 10_000 { count } else { 10_000 }
}

/// What the words of `run` plan with these settings.
fn plan_of_run(
    alloc: Global,
    turns: u64,
    seed: u64,
    settings: Result<Settings, Cause>,
) -> Result<Plan, AllocError>
    requires ready { SettingsReady settings }
    ensures plan { IfOk result (λ p. p ≡ plan_of_run turns seed settings) }
    ensures ready { IfOk result (λ p. IsReadyPlan p) }
{
    match settings {
        Err(cause) => Ok(Plan::Reply(refuse(alloc, cause)?)),
        Ok(settings) => Ok(Plan::On(Deed::Work(Work::Run(RunOptions {
            turns,
            seed: seed_of(seed),
            limits: settings.limits,
        })))),
    }
}

/// A refusal, or that the rows of the query that words are are shown.
fn plan_of_query(alloc: Global, words: &Words, limit: u32) -> Result<Plan, AllocError>
    ensures plan { IfOk result (λ p. p ≡ plan_of_query limit (query_of words.now)) }
    ensures ready { IfOk result (λ p. IsReadyPlan p) }
{
    match parse_query(alloc, words) {
        Ok(query) => Ok(Plan::On(Deed::Work(Work::View(Shown::Query(query, limit))))),
        Err(QueryError::OutOfMemory) => Err(AllocError),
        Err(error) => Ok(Plan::Reply(refuse(alloc, Cause::Query(error))?)),
    }
}

/// What the words of `expand` plan. The library's file is read and understood wholly before the spec file is asked for.
#[tactic(auto, using(crate::proofs::Naming::asks_one, crate::proofs::Spared::asks_both, crate::proofs::Spared::spared_first))]
fn plan_expansion<R: Shelf>(
    alloc: Global,
    shelf: &mut R,
    file: &Text,
    spec: &Text,
) -> Result<Plan, PlanError>
    ensures plans { IfOk result (λ p. Plans (R.contents shelf.old) (Some (Expand file.now spec.now)) p) }
    ensures ready { IfOk result (λ p. IsReadyPlan p) }
    ensures counts { CountsShelf result (R.faults shelf.old) (R.faults shelf.new) (R.failed shelf.new) }
    ensures kept { R.contents shelf.new ≡ R.contents shelf.old }
    ensures named { AsksFirst (file.now ∷ spec.now ∷ []) (R.asked shelf.old) (R.asked shelf.new) }
    ensures spared { SparesSpec (R.contents shelf.old) (Some (Expand file.now spec.now)) (R.asked shelf.old) (R.asked shelf.new) }
{
    let read = read_from(alloc, shelf, file)?;
    Ok(Plan::Reply(reply_to_expand(alloc, shelf, read, spec)?))
}

/// What a command asks for. Each file that it names is read and understood wholly here, before the next is read.
#[tactic(auto, using(crate::proofs::Naming::asks_none, crate::proofs::Naming::asks_all, crate::proofs::Naming::asks_part, crate::proofs::Naming::asks_then, crate::proofs::Naming::asks_one, crate::proofs::Naming::asks_one_then))]
fn plan_command<R: Shelf>(alloc: Global, command: Command, shelf: &mut R) -> Result<Plan, PlanError>
    ensures plans { IfOk result (λ p. Plans (R.contents shelf.old) (Some command) p) }
    ensures ready { IfOk result (λ p. IsReadyPlan p) }
    ensures counts { CountsShelf result (R.faults shelf.old) (R.faults shelf.new) (R.failed shelf.new) }
    ensures unasked { NamesNoFile (Some command) → shelf.new ≡ shelf.old }
    ensures kept { R.contents shelf.new ≡ R.contents shelf.old }
    ensures named { AsksFirst (files_named (Some command)) (R.asked shelf.old) (R.asked shelf.new) }
    ensures spared { SparesSpec (R.contents shelf.old) (Some command) (R.asked shelf.old) (R.asked shelf.new) }
{
    match command {
        Command::Check { file } => {
            let read = read_from(alloc, shelf, &file)?;
            Ok(Plan::Reply(reply_to_check(alloc, read)?))
        }
        Command::Dry {
            file,
            name,
            given,
            inputs,
            table,
            fuel,
        } => {
            let read = read_from(alloc, shelf, &file)?;
            let trial = Trial {
                name,
                given,
                inputs,
                table,
                fuel,
            };
            Ok(Plan::Reply(reply_to_dry(alloc, shelf, read, &trial)?))
        }
        Command::Submit {
            file,
            name,
            given,
            inputs,
            settings,
        } => {
            let settings = read_settings_from(alloc, shelf, &settings)?;
            plan_submission(
                alloc,
                shelf,
                &file,
                &name,
                given.as_slice(),
                &inputs,
                settings,
            )
        }
        Command::Init => Ok(Plan::On(Deed::Begin(Begin::Init))),
        Command::Run {
            turns,
            seed,
            settings,
        } => {
            let settings = read_settings_from(alloc, shelf, &settings)?;
            Ok(plan_of_run(alloc, turns, seed, settings)?)
        }
        Command::Pause { pid } => Ok(Plan::On(Deed::Work(Work::Event(Asked::Pause(pid))))),
        Command::Play { pid } => Ok(Plan::On(Deed::Work(Work::Event(Asked::Play(pid))))),
        Command::Kill { pid } => Ok(Plan::On(Deed::Work(Work::Event(Asked::Kill(pid))))),
        Command::View(view) => Ok(Plan::On(Deed::Work(Work::View(Shown::View(view))))),
        Command::Query { words, limit } => Ok(plan_of_query(alloc, &words, limit)?),
        Command::Expand { file, spec } => plan_expansion(alloc, shelf, &file, &spec),
        Command::Pack => Ok(Plan::On(Deed::Work(Work::Pack))),
        Command::Drill { seed, count } => Ok(Plan::On(Deed::Begin(Begin::Drill {
            seed,
            count: chains_of(count),
        }))),
    }
}

/// What words ask for.
#[tactic(auto, using(crate::proofs::Naming::asks_none))]
pub fn plan<R: Shelf>(alloc: Global, words: &Words, shelf: &mut R) -> Result<Plan, PlanError>
    ensures plans { IfOk result (λ p. Plans (R.contents shelf.old) (command_of words.now) p) }
    ensures ready { IfOk result (λ p. IsReadyPlan p) }
    ensures counts { CountsShelf result (R.faults shelf.old) (R.faults shelf.new) (R.failed shelf.new) }
    ensures unasked { NamesNoFile (command_of words.now) → shelf.new ≡ shelf.old }
    ensures kept { R.contents shelf.new ≡ R.contents shelf.old }
    ensures named { AsksFirst (files_named (command_of words.now)) (R.asked shelf.old) (R.asked shelf.new) }
    ensures spared { SparesSpec (R.contents shelf.old) (command_of words.now) (R.asked shelf.old) (R.asked shelf.new) }
{
    match command_of(alloc, words)? {
        None => Ok(Plan::Reply(refuse(alloc, Cause::Words)?)),
        Some(command) => plan_command(alloc, command, shelf),
    }
}
