//! Makes lists of calls at random, of a file of the system and of a disk in memory, and compares each answer and what both hold at the end.
//!
//! Its words are a seed and how many lists to make. It works on the file `pair/disk` of the current folder.
#![tactic(auto)]

mod pair;

use pair::{Pair, Unlike};
use std::process::ExitCode;
use std::{env, io};
use wc_value::Generator;

/// How many calls a list has at most.
const MOST_CALLS: u32 = 24;

/// A number of the command line, or none.
fn number(word: Option<String>) -> Option<u32> {
    word?.parse::<u32>().ok()
}

/// Makes one list of calls. Whether all answers were alike.
fn play(rt: HostRuntime, draws: &mut Generator) -> Result<(), Unlike> {
    let mut pair = Pair::new(rt, draws)?;
    let count = 1 + draws.draw() % MOST_CALLS;
    for _ in 0..count {
        pair.call(draws)?;
    }
    pair.compare()
}

/// Makes so many lists. The number of the first one that had unlike answers, with what was unlike.
fn play_all(rt: HostRuntime, seed: u32, count: u32) -> Result<(), (u32, Unlike)> {
    let mut draws = Generator::new(seed);
    for number in 0..count {
        match play(rt, &mut draws) {
            Ok(()) => {}
            Err(unlike) => return Err((number, unlike)),
        }
    }
    Ok(())
}

fn main(rt: HostRuntime) -> io::Result<ExitCode> {
    let mut words = env::args(&rt)?.skip(1);
    let (Some(seed), Some(count)) = (number(words.next()), number(words.next())) else {
        println!(rt; "words: a seed and how many lists to make")?;
        return Ok(ExitCode::FAILURE);
    };
    match play_all(rt, seed, count) {
        Ok(()) => {
            println!(rt; "{count} lists of calls with seed {seed}: all answers alike")?;
            Ok(ExitCode::SUCCESS)
        }
        Err((number, unlike)) => {
            let what = unlike.text();
            println!(rt; "seed {seed}, list {number}: unlike {what}")?;
            Ok(ExitCode::FAILURE)
        }
    }
}
