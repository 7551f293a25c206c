//! Plays the transcripts of its input, and tells of each how many answers were asked for, and what was found. With the word `calls` before the
//! words of a command it tells the calls of disks that the command makes.
#![tactic(auto)]

mod noted;
mod status;
mod teller;

use status::status_code;
use std::alloc::Global;
use std::env;
use std::io::{self, Read};
use std::process::ExitCode;
use teller::tell_calls;
use wc_disk::MemoryDisk;
use wc_io::MemoryShelf;
use wc_player::{
    Clock, Finding, Outside, Program, Report, Sipping, Transcript, Verdict, play, read_transcripts,
};
use wc_value::{List, Text, Words};

/// The program.
#[derive(Clone, Copy)]
struct Served;

impl Program for Served {
    fn call(
        &self,
        alloc: Global,
        words: &Words,
        shelf: &mut MemoryShelf,
        sink: &mut Sipping,
        one: &mut MemoryDisk,
        two: &mut MemoryDisk,
        transport: &mut Outside,
        clock: &mut Clock,
    ) -> u8 {
        status_code(alloc, words, shelf, sink, one, two, transport, clock)
    }
}

/// The whole input.
fn input(rt: &HostRuntime) -> io::Result<String> {
    let mut text = String::new(rt.alloc());
    rt.reader().read_to_string(&mut text)?;
    Ok(text)
}

/// Prints a finding.
fn print_finding(rt: &HostRuntime, finding: &Finding) -> io::Result<()> {
    let line = finding.place.line;
    let repetition = finding.place.repetition;
    let told = finding.told.as_str();
    println!(rt; "  line {line}, repetition {repetition}: {told}")
}

/// Prints a report. Whether all is as it should be.
fn print_report(rt: &HostRuntime, name: &str, report: &Report) -> io::Result<bool> {
    let checks = report.checks;
    let count = report.findings.count();
    match report.verdict() {
        Verdict::Ok => println!(rt; "ok: {name}: {checks} answers")?,
        Verdict::Seen => println!(rt; "ok: {name}: {checks} answers, {count} wrong on purpose")?,
        Verdict::Failed => println!(rt; "FAILED: {name}: {checks} answers, {count} wrong")?,
    }
    for finding in report.findings.as_slice() {
        print_finding(rt, finding)?;
    }
    Ok(report.verdict() != Verdict::Failed)
}

/// Plays a transcript and prints its report. Whether all is as it should be.
fn play_one(rt: &HostRuntime, transcript: &Transcript) -> io::Result<bool> {
    let name = transcript.name.as_str();
    match play(rt.alloc(), Served, transcript) {
        Ok(report) => print_report(rt, name, &report),
        Err(error) => {
            println!(rt; "FAILED: {name}: {error}")?;
            Ok(false)
        }
    }
}

/// Plays all transcripts. Whether all is as it should be.
fn play_all(rt: &HostRuntime, transcripts: &[Transcript]) -> io::Result<bool> {
    let mut is_right = true;
    for transcript in transcripts {
        if !play_one(rt, transcript)? {
            is_right = false;
        }
    }
    Ok(is_right)
}

/// Plays the transcripts of a text. Whether all is as it should be.
fn play_text(rt: &HostRuntime, text: &str) -> io::Result<bool> {
    match read_transcripts(rt.alloc(), text) {
        Ok(transcripts) => play_all(rt, transcripts.as_slice()),
        Err(error) => {
            println!(rt; "FAILED: {error}")?;
            Ok(false)
        }
    }
}

/// The words of the command line behind the program's name.
fn words_of(rt: HostRuntime) -> io::Result<Words> {
    let mut words: Words = List::new(rt.alloc());
    for word in env::args(&rt)?.skip(1) {
        words.push(Text::of_string(word)?)?;
    }
    Ok(words)
}

/// The words of a command, where `calls` stands before them.
fn command_of(rt: HostRuntime) -> io::Result<Option<Words>> {
    let words = words_of(rt)?;
    match words.as_slice() {
        [first, rest @ ..] if first.as_str() == "calls" => {
            let mut command: Words = List::new(rt.alloc());
            for word in rest {
                command.push(Text::of_str(rt.alloc(), word.as_str())?)?;
            }
            Ok(Some(command))
        }
        _ => Ok(None),
    }
}

fn main(rt: HostRuntime) -> io::Result<ExitCode> {
    if let Some(command) = command_of(rt)? {
        return Ok(ExitCode::from(tell_calls(rt, &command)));
    }
    let text = input(&rt)?;
    if play_text(&rt, text.as_str())? {
        return Ok(ExitCode::SUCCESS);
    }
    Ok(ExitCode::FAILURE)
}
