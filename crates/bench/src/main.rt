//! Measures the words of a pool: `bench WORKLOAD ..`. Without words it lists the workloads.
#![tactic(auto)]

mod command_line;
mod failures;
mod figures;
mod memory;
mod words;

use command_line::Asked;
use failures::Failure;
use std::process::ExitCode;
use std::rt::Runtime;
use std::thread::Threads;

fn main(rt: HostRuntime) -> ExitCode {
    ExitCode::from(run(&rt))
}

/// Measures what the command line asks for, and gives the status that the program ends with.
fn run<R: Runtime + AllocGlobal + Threads + Sync>(rt: &R) -> u8 {
    match asked(rt) {
        Ok(()) => 0,
        Err(failure) => failures::tell(rt, &failure),
    }
}

fn asked<R: Runtime + AllocGlobal + Threads + Sync>(rt: &R) -> Result<(), Failure> {
    let words = command_line::words(rt)?;
    measure(rt, command_line::read(words.as_slice())?)
}

fn measure<R: Runtime + AllocGlobal + Threads + Sync>(
    rt: &R,
    asked: Asked<'_>,
) -> Result<(), Failure> {
    match asked {
        Asked::List => command_line::list(rt),
        Asked::Words(cells) => words::measure(rt, &cells),
        Asked::Memory(caches) => memory::measure(rt, caches),
    }
}
