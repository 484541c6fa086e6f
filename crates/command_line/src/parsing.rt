//! The words of the command line.
use crate::unasked::Unasked;
use clap::builder::ValueParser;
use clap::error::ErrorKind;
use clap::{Arg, ArgAction, ArgMatches, Command, Error};
use script::Grounds;
use std::alloc::Global;
use std::env::Env;
use std::{env, io};
use tasks::task::{Asked, Form, Listing, Pair, Request, Task, Turns};

/// What `--version` tells after the program's name.
const VERSION: &str = "0.1.0";

/// The most tries of a line that `--turns` may name.
const MAX_TURNS: u64 = 1_000_000;

/// The greatest number of a worker that `--lose` may name.
const MAX_WORKER: u64 = 4_294_967_295;

/// The words of the command line, the program's name first.
///
/// `Said` where a word isn't text, and `Memory` where memory was refused.
pub fn words<R: Env + AllocGlobal>(rt: &R) -> Result<Vec<String>, Unasked> {
    match env::args(rt) {
        Ok(words) => words.collect(rt.alloc()).map_err(|_| Unasked::Memory),
        Err(error) if error.kind() == io::ErrorKind::OutOfMemory => Err(Unasked::Memory),
        Err(_) => Err(wrong(rt.alloc(), "a word of the command line is not text")),
    }
}

/// The file that the words name, and what is to be done with its script or its snapshot; or the two
/// snapshots.
///
/// `Said` where the words are wrong, or ask for help or the version, and `Memory` where memory was
/// refused.
pub fn request_of<'a>(alloc: Global, words: &'a [String]) -> Result<Asked<'a>, Unasked> {
    match requested(alloc, words)? {
        Some(Asked::Two(pair)) if pair.newer == "-" && pair.older == "-" => Err(wrong(
            alloc,
            "the standard input is one snapshot, and not two",
        )),
        Some(asked) => Ok(asked),
        None => Err(wrong(alloc, "no file was given")),
    }
}

/// The request that a parse of the words finds.
fn requested<'a>(alloc: Global, words: &'a [String]) -> Result<Option<Asked<'a>>, Error> {
    let matches = command(alloc)?.try_get_matches_from(words)?;
    Ok(request_in(&matches))
}

/// The request that the matches of a parse are.
fn request_in<'a>(matches: &ArgMatches<'a>) -> Option<Asked<'a>> {
    if let Some(replay) = matches.subcommand_matches("replay") {
        return of_script(replay, replay_in(replay));
    }
    if let Some(steps) = matches.subcommand_matches("steps") {
        return of_script(steps, Task::Steps);
    }
    if let Some(audit) = matches.subcommand_matches("audit") {
        return audit_in(audit);
    }
    let run = matches.subcommand_matches("run")?;
    of_script(run, run_in(run)?)
}

/// What is to be done with the file that is named.
fn of_file<'a>(matches: &ArgMatches<'a>, task: Task) -> Option<Asked<'a>> {
    matches
        .get_str("FILE")
        .map(|file| Asked::One(Request { file, task }))
}

/// What is to be done with the script that is named, explained where that is asked for.
fn of_script<'a>(matches: &ArgMatches<'a>, task: Task) -> Option<Asked<'a>> {
    let file = matches.get_str("FILE")?;
    let request = Request { file, task };
    Some(if matches.get_flag("explain") {
        Asked::Explained(request)
    } else {
        Asked::One(request)
    })
}

/// The audit that is asked for, of one file or of two snapshots of one pool.
fn audit_in<'a>(matches: &ArgMatches<'a>) -> Option<Asked<'a>> {
    let form = form_in(matches);
    if matches.get_flag("all") {
        return matches
            .get_str("FILE")
            .map(|file| Asked::All(Listing { file, form }));
    }
    match matches.get_str("since") {
        Some(older) => matches
            .get_str("FILE")
            .map(|newer| Asked::Two(Pair { newer, older, form })),
        None if matches.get_flag("dot") => of_file(matches, Task::Picture),
        None => of_file(matches, Task::Audit(form)),
    }
}

/// The replay that is asked for.
fn replay_in<'a>(matches: &ArgMatches<'a>) -> Task {
    if matches.get_flag("snapshot") {
        Task::ReplaySnapshot
    } else {
        Task::Replay(form_in(matches))
    }
}

/// The run that is asked for.
fn run_in<'a>(matches: &ArgMatches<'a>) -> Option<Task> {
    let grounds = grounds_of(matches.get_str("ground")?)?;
    let turns = Turns::new(number(matches.get_str("turns")).unwrap_or(0))?;
    if matches.get_flag("snapshot") {
        return Some(Task::RunSnapshot(grounds, turns));
    }
    let form = form_in(matches);
    Some(match number(matches.get_str("lose")) {
        Some(worker) => Task::RunLost(grounds, turns, worker, form),
        None => Task::Run(grounds, turns, form),
    })
}

/// The number that a word spells.
fn number(word: Option<&str>) -> Option<u32> {
    word.and_then(|word| word.parse().ok())
}

/// The form that is asked for.
fn form_in<'a>(matches: &ArgMatches<'a>) -> Form {
    if matches.get_flag("json") {
        Form::Json
    } else {
        Form::Text
    }
}

/// The ground that a word names.
fn grounds_of(word: &str) -> Option<Grounds> {
    match word {
        "words" => Some(Grounds::Words),
        "locked" => Some(Grounds::Locked),
        _ => None,
    }
}

/// What is said of words that are wrong in a way that a parse doesn't tell.
fn wrong(alloc: Global, message: &str) -> Unasked {
    match wrong_words(alloc, message) {
        Ok(error) | Err(error) => Unasked::from(error),
    }
}

fn wrong_words(alloc: Global, message: &str) -> Result<Error, Error> {
    Ok(command(alloc)?.error(ErrorKind::InvalidValue, message)?)
}

/// `mbufpool`, with its four commands.
fn command<'a>(alloc: Global) -> Result<Command<'a>, Error> {
    Ok(
        Command::new(alloc, "mbufpool")
            .about("A pool of packet buffers")
            .version(VERSION)
            .subcommand_required(true)
            .subcommand(replay(alloc)?)?
            .subcommand(run(alloc)?)?
            .subcommand(steps(alloc)?)?
            .subcommand(audit(alloc)?)?,
    )
}

/// `mbufpool replay FILE [--explain] [--json | --snapshot]`.
fn replay<'a>(alloc: Global) -> Result<Command<'a>, Error> {
    let json = json(alloc).help(
        "Print where each element is at the end as one line of JSON, and no replies",
    );
    let snapshot = snapshot(alloc)?.help(
        "Print what the pool leaves at the end as a snapshot, for audit, and no replies",
    );
    Ok(
        Command::new(alloc, "replay")
            .about("Replays a script, and prints each reply and where each element is at the end")
            .arg(script_file(alloc))?
            .arg(explain(alloc))?
            .arg(json)?
            .arg(snapshot)?,
    )
}

/// `mbufpool run FILE [--explain] [--ground words|locked] [--turns T] [--lose W]
/// [--json | --snapshot]`, where `--lose` and `--snapshot` don't go together either.
fn run<'a>(alloc: Global) -> Result<Command<'a>, Error> {
    let snapshot = snapshot(alloc)?
        .help("Print what the pool leaves at the end as a snapshot, for audit")
        .conflicts_with("lose")?;
    Ok(
        Command::new(alloc, "run")
            .about(
                "Runs a script with a thread for each worker, and prints where each element is at the end",
            )
            .arg(script_file(alloc))?
            .arg(explain(alloc))?
            .arg(ground(alloc))?
            .arg(turns(alloc))?
            .arg(lose(alloc))?
            .arg(json(alloc).help("Print it as one line of JSON"))?
            .arg(snapshot)?,
    )
}

/// `mbufpool steps FILE [--explain]`.
fn steps<'a>(alloc: Global) -> Result<Command<'a>, Error> {
    Ok(
        Command::new(alloc, "steps")
            .about(
                "Plays a script of steps on the words of the stack, and prints what each saw and the words",
            )
            .arg(script_file(alloc))?
            .arg(explain(alloc))?,
    )
}

/// `mbufpool audit FILE [--since OLD | --all] [--json]`, or `mbufpool audit FILE --dot`.
fn audit<'a>(alloc: Global) -> Result<Command<'a>, Error> {
    let file = Arg::new(alloc, "FILE")
        .required(true)
        .help("The snapshot, as JSON; - is the standard input");
    Ok(
        Command::new(alloc, "audit")
            .about(
                "Audits a snapshot of a pool, and prints where each element is, or its first fault",
            )
            .arg(file)?
            .arg(since(alloc))?
            .arg(all(alloc)?)?
            .arg(json(alloc).help("Print it as one line of JSON"))?
            .arg(dot(alloc)?)?,
    )
}

/// Whether all faults are asked for.
fn all<'a>(alloc: Global) -> Result<Arg<'a>, Error> {
    Ok(
        Arg::new(alloc, "all")
            .long("all")
            .action(ArgAction::SetTrue)
            .conflicts_with("since")?
            .conflicts_with("dot")?
            .help(
                "Print all faults, a line each, and how many they are; status 1 where there is one",
            ),
    )
}

/// Whether a picture is asked for.
fn dot<'a>(alloc: Global) -> Result<Arg<'a>, Error> {
    Ok(
        Arg::new(alloc, "dot")
            .long("dot")
            .action(ArgAction::SetTrue)
            .conflicts_with("since")?
            .conflicts_with("json")?
            .help("Print a picture of the pool in the language of Graphviz"),
    )
}

/// The older snapshot of the same pool.
fn since<'a>(alloc: Global) -> Arg<'a> {
    Arg::new(alloc, "since")
        .long("since")
        .value_name("OLD")
        .help("Print besides which packets stay since this older snapshot; - is the standard input")
}

/// What the threads share.
fn ground<'a>(alloc: Global) -> Arg<'a> {
    Arg::new(alloc, "ground")
        .long("ground")
        .value_name("GROUND")
        .value_parser(&["words", "locked"][..])
        .default_value("words")
        .help("What the threads share: words without a lock, or lists under one lock")
}

/// How often a line is tried.
fn turns<'a>(alloc: Global) -> Arg<'a> {
    Arg::new(alloc, "turns")
        .long("turns")
        .value_name("T")
        .value_parser(ValueParser::unsigned(1, MAX_TURNS))
        .default_value("1000")
        .help("How often a line is tried in all where others are in its way")
}

/// The worker that is lost.
fn lose<'a>(alloc: Global) -> Arg<'a> {
    Arg::new(alloc, "lose")
        .long("lose")
        .value_name("W")
        .value_parser(ValueParser::unsigned(0, MAX_WORKER))
        .help("Lose worker W at the end, and print which elements are lost with it")
}

/// The file that is named.
fn script_file<'a>(alloc: Global) -> Arg<'a> {
    Arg::new(alloc, "FILE")
        .required(true)
        .help("The script; - is the standard input")
}

/// Whether a fault is to be explained.
fn explain<'a>(alloc: Global) -> Arg<'a> {
    Arg::new(alloc, "explain")
        .long("explain")
        .action(ArgAction::SetTrue)
        .help("Tell of a fault in a second line where it is, and what is wrong there")
}

/// The flag that asks for snapshots, which isn't given with that for JSON.
fn snapshot<'a>(alloc: Global) -> Result<Arg<'a>, Error> {
    Ok(
        Arg::new(alloc, "snapshot")
            .long("snapshot")
            .action(ArgAction::SetTrue)
            .conflicts_with("json")?,
    )
}

/// The flag that asks for JSON.
fn json<'a>(alloc: Global) -> Arg<'a> {
    Arg::new(alloc, "json")
        .long("json")
        .action(ArgAction::SetTrue)
}
