//! The words of the command line, which `bench/table` writes.

use crate::failures::Failure;
use crate::words::Cells;
use crate::words::span::Length;
use std::env;
use std::env::Env;
use std::io::Print;

/// What can be measured, with its words.
const WORKLOADS: [(&str, &str); 2] = [
    (
        "words NAMES THREADS CACHES POPULATION LENGTH",
        "lists, elements and packets over the words of a pool",
    ),
    (
        "memory CACHES",
        "how much memory a pool of 65,534 elements and 64 workers takes",
    ),
];

/// What the words ask for.
#[derive(Clone, Copy)]
pub enum Asked<'a> {
    /// The list of what can be measured.
    List,
    /// Rounds over the words of a pool.
    Words(Cells<'a>),
    /// How much memory a pool takes with each of these caches.
    Memory(&'a str),
}

/// The words of the command line, the program's name first.
pub fn words<R: Env + AllocGlobal>(rt: &R) -> Result<Vec<String>, Failure> {
    Ok(env::args(rt)?.collect(rt.alloc())?)
}

/// What the words ask for. `NotInList` where that can't be measured.
pub fn read<'a>(words: &'a [String]) -> Result<Asked<'a>, Failure> {
    let [_, workload, rest @ ..] = words else {
        return Ok(Asked::List);
    };
    match asked_of(workload.as_str(), rest) {
        Some(asked) => Ok(asked),
        None => Err(Failure::NotInList),
    }
}

fn asked_of<'a>(workload: &str, rest: &'a [String]) -> Option<Asked<'a>> {
    match rest {
        [names, threads, caches, population, length] if workload == "words" => {
            Some(Asked::Words(Cells {
                names: names.as_str(),
                threads: threads.as_str(),
                caches: caches.as_str(),
                population: number(population.as_str())?,
                length: length_of(length.as_str())?,
            }))
        }
        [caches] if workload == "memory" => Some(Asked::Memory(caches.as_str())),
        _ => None,
    }
}

/// `20ms`, or a number of rounds.
fn length_of(word: &str) -> Option<Length> {
    match word.strip_suffix("ms") {
        Some(millis) => Some(Length::Millis(number(millis)?)),
        None => Some(Length::Rounds(number(word)?)),
    }
}

fn number(word: &str) -> Option<u64> {
    match word.parse::<u64>() {
        Ok(number) => Some(number),
        Err(_) => None,
    }
}

/// Lists what can be measured.
pub fn list<R: Print>(rt: &R) -> Result<(), Failure> {
    for (words, about) in WORKLOADS {
        rt.println(format_args!("{words}\n    {about}"))?;
    }
    Ok(())
}
