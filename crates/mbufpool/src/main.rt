//! Replays and runs scripts of a packet pool, plays scripts of steps, and audits snapshots:
//! `mbufpool replay FILE`, `mbufpool run FILE`, `mbufpool steps FILE` and `mbufpool audit FILE`.
#![tactic(auto)]

use script_io::{Retrying, Tally};
use std::process::ExitCode;
use tasks::scripts::Disk;

fn main(rt: HostRuntime) -> ExitCode {
    let mut screen = Tally::new(Retrying(rt.stdout()));
    let mut errors = Tally::new(Retrying(rt.stderr()));
    ExitCode::from(command_line::run(&rt, &Disk(&rt), &mut screen, &mut errors))
}
