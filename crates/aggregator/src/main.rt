// The aggregator's program: explains instruction files.
#![tactic(auto)]

mod inspecting;
mod sample;
mod words;

use inspecting::inspect;
use sample::work_through;
use std::alloc::AllocError;
use std::process::ExitCode;
use std::{env, fs, io};

const USAGE: &str = "usage:
  aggregator                  works through a sample of instruction files
  aggregator inspect FILE...  explains instruction files, or their first fault
  aggregator help             prints this";

// Why the program ends with status 1; what it has to say has been said by then.
#[derive(Clone, Copy)]
pub enum Failure {
    Output,
    Memory,
    Input,
    Usage,
}

impl From<io::Error> for Failure {
    fn from(_error: io::Error) -> Failure {
        Failure::Output
    }
}

impl From<AllocError> for Failure {
    fn from(_error: AllocError) -> Failure {
        Failure::Memory
    }
}

// Explains each file that can be read, and says of the others that they cannot.
fn inspect_all(rt: &HostRuntime, names: &[String]) -> Result<(), Failure> {
    let mut missing = false;
    for name in names {
        match fs::read(rt, name.as_str()) {
            Ok(bytes) => inspect(rt, name.as_str(), &bytes)?,
            Err(error) => {
                eprintln!(rt; "aggregator: {name}: {error}")?;
                missing = true;
            }
        }
    }
    if missing { Err(Failure::Input) } else { Ok(()) }
}

fn run(rt: &HostRuntime, words: &[String]) -> Result<(), Failure> {
    let Some((word, names)) = words.split_first() else {
        work_through(rt)?;
        return Ok(());
    };
    match word.as_str() {
        "inspect" if names.is_empty() => {
            eprintln!(rt; "aggregator: inspect wants at least one file\n{USAGE}")?;
            Err(Failure::Usage)
        }
        "inspect" => inspect_all(rt, names),
        "help" => {
            println!(rt; "{USAGE}")?;
            Ok(())
        }
        word => {
            eprintln!(rt; "aggregator: unknown word '{word}'\n{USAGE}")?;
            Err(Failure::Usage)
        }
    }
}

fn run_arguments(rt: &HostRuntime) -> Result<(), Failure> {
    let words: Vec<String> = env::args(rt)?.skip(1).collect(rt.alloc())?;
    run(rt, &words)
}

// What there is to say of a failure is said where it is met; here only the status tells of it.
fn main(rt: HostRuntime) -> ExitCode {
    match run_arguments(&rt) {
        Ok(()) => ExitCode::SUCCESS,
        Err(_failure) => ExitCode::FAILURE,
    }
}
