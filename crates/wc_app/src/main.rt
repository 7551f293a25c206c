//! The program: its words, files, standard output, store, jobs and clock are handed to `serve`, whose status is the program's.
#![tactic(auto)]

mod engine;
mod machine;
mod program;
mod words;

use engine::Engine;
use program::run;
use std::env;
use std::process::ExitCode;

fn main(rt: HostRuntime) -> ExitCode {
    run(rt, env::args(&rt), &Engine)
}
