//! The words of the command line.
use super::files::TABLES;
use super::{same, told, words_of};
use command_line::request_of;
use std::test::Fail;

/// Command lines, and what each asks for of a file or of two snapshots, as its `Debug` shows it.
static ASKED: &[(&str, &str)] = &[
    (
        "mbufpool replay a.script",
        r#"One(Request { file: "a.script", task: Replay(Text) })"#,
    ),
    (
        "mbufpool replay a --json",
        r#"One(Request { file: "a", task: Replay(Json) })"#,
    ),
    (
        "mbufpool replay --json a",
        r#"One(Request { file: "a", task: Replay(Json) })"#,
    ),
    (
        "mbufpool replay -- --json",
        r#"One(Request { file: "--json", task: Replay(Text) })"#,
    ),
    (
        "mbufpool replay a --snapshot",
        r#"One(Request { file: "a", task: ReplaySnapshot })"#,
    ),
    (
        "mbufpool run --snapshot a",
        r#"One(Request { file: "a", task: RunSnapshot(Words, Turns { count: 1000 }) })"#,
    ),
    (
        "mbufpool run a --ground locked --turns 5 --snapshot",
        r#"One(Request { file: "a", task: RunSnapshot(Locked, Turns { count: 5 }) })"#,
    ),
    (
        "mbufpool run a",
        r#"One(Request { file: "a", task: Run(Words, Turns { count: 1000 }, Text) })"#,
    ),
    (
        "mbufpool run a --ground words",
        r#"One(Request { file: "a", task: Run(Words, Turns { count: 1000 }, Text) })"#,
    ),
    (
        "mbufpool run a --ground locked",
        r#"One(Request { file: "a", task: Run(Locked, Turns { count: 1000 }, Text) })"#,
    ),
    (
        "mbufpool run a --turns 1 --json",
        r#"One(Request { file: "a", task: Run(Words, Turns { count: 1 }, Json) })"#,
    ),
    (
        "mbufpool run --turns 1000000 a --ground=locked",
        r#"One(Request { file: "a", task: Run(Locked, Turns { count: 1000000 }, Text) })"#,
    ),
    (
        "mbufpool run a --lose 2",
        r#"One(Request { file: "a", task: RunLost(Words, Turns { count: 1000 }, 2, Text) })"#,
    ),
    (
        "mbufpool run a --lose 0 --json",
        r#"One(Request { file: "a", task: RunLost(Words, Turns { count: 1000 }, 0, Json) })"#,
    ),
    (
        "mbufpool run --ground locked --lose=4294967295 a",
        r#"One(Request { file: "a", task: RunLost(Locked, Turns { count: 1000 }, 4294967295, Text) })"#,
    ),
    (
        "mbufpool steps aba.script",
        r#"One(Request { file: "aba.script", task: Steps })"#,
    ),
    (
        "mbufpool steps -- -",
        r#"One(Request { file: "-", task: Steps })"#,
    ),
    (
        "mbufpool replay - --explain",
        r#"Explained(Request { file: "-", task: Replay(Text) })"#,
    ),
    (
        "mbufpool run --explain a --lose 2",
        r#"Explained(Request { file: "a", task: RunLost(Words, Turns { count: 1000 }, 2, Text) })"#,
    ),
    (
        "mbufpool steps a --explain",
        r#"Explained(Request { file: "a", task: Steps })"#,
    ),
    (
        "mbufpool audit a.json",
        r#"One(Request { file: "a.json", task: Audit(Text) })"#,
    ),
    (
        "mbufpool audit -",
        r#"One(Request { file: "-", task: Audit(Text) })"#,
    ),
    (
        "mbufpool audit --json a",
        r#"One(Request { file: "a", task: Audit(Json) })"#,
    ),
    (
        "mbufpool audit a --dot",
        r#"One(Request { file: "a", task: Picture })"#,
    ),
    (
        "mbufpool audit a --all",
        r#"All(Listing { file: "a", form: Text })"#,
    ),
    (
        "mbufpool audit --json - --all",
        r#"All(Listing { file: "-", form: Json })"#,
    ),
    (
        "mbufpool audit b --since a",
        r#"Two(Pair { newer: "b", older: "a", form: Text })"#,
    ),
    (
        "mbufpool audit --since=a.json --json b.json",
        r#"Two(Pair { newer: "b.json", older: "a.json", form: Json })"#,
    ),
    (
        "mbufpool audit - --since a",
        r#"Two(Pair { newer: "-", older: "a", form: Text })"#,
    ),
    (
        "mbufpool audit b --since -",
        r#"Two(Pair { newer: "b", older: "-", form: Text })"#,
    ),
    (
        "mbufpool audit --since=- b",
        r#"Two(Pair { newer: "b", older: "-", form: Text })"#,
    ),
    (
        "mbufpool audit a --since a",
        r#"Two(Pair { newer: "a", older: "a", form: Text })"#,
    ),
];

#[test]
fn words_name_files_and_what_is_to_be_done_with_them(rt: HostRuntime) -> Result<(), Fail> {
    for (line, wanted) in ASKED {
        let words = words_of(rt.alloc(), line)?;
        match request_of(rt.alloc(), words.as_slice()) {
            Ok(asked) => {
                let asked = format!(in rt.alloc(); "{asked:?}")?;
                same(&rt, &asked.as_str(), wanted, line);
            }
            Err(_) => return Err(Fail::from("nothing is asked for")),
        }
    }
    Ok(())
}

static WRONG: &[&str] = &[
    "mbufpool audit",
    "mbufpool audit a b",
    "mbufpool audit a --turns 5",
    "mbufpool audit --since a",
    "mbufpool audit b --since",
    "mbufpool audit b --since a --since a",
    "mbufpool audit - --since -",
    "mbufpool audit --since=- -",
    "mbufpool replay b --since a",
    "mbufpool steps",
    "mbufpool steps a --json",
    "mbufpool steps a b",
    "mbufpool run",
    "mbufpool run a --turns 0",
    "mbufpool run a --turns 1000001",
    "mbufpool run a --turns -1",
    "mbufpool run a --turns many",
    "mbufpool run a --lose",
    "mbufpool run a --lose 4294967296",
    "mbufpool run a --lose -1",
    "mbufpool run a --lose all",
    "mbufpool run a --lose 1 --lose 2",
    "mbufpool replay a --lose 1",
    "mbufpool replay a --json --snapshot",
    "mbufpool run a --snapshot --json",
    "mbufpool run a --snapshot --lose 1",
    "mbufpool audit a --snapshot",
    "mbufpool audit a --explain",
    "mbufpool replay a --explain --explain",
    "mbufpool audit a --dot --json",
    "mbufpool audit b --dot --since a",
    "mbufpool audit b --all --since a",
    "mbufpool audit a --all --dot",
    "mbufpool audit a --all --all",
    "mbufpool replay a --all",
    "mbufpool replay a --dot",
    "mbufpool steps a --snapshot",
    "mbufpool run a --ground lists",
    "mbufpool run a --ground ",
    "mbufpool run a --ground",
    "mbufpool replay a --ground words",
    "mbufpool replay a --turns 5",
    "mbufpool",
    "mbufpool replay",
    "mbufpool replay a b",
    "mbufpool play a",
    "mbufpool play",
    "mbufpool replay -x",
    "mbufpool replay --json",
    "mbufpool replay a --json --json",
    "mbufpool replay a --json=true",
];

#[test]
fn wrong_words_are_told_of_as_an_error_with_status_2(rt: HostRuntime) -> Result<(), Fail> {
    for line in WRONG {
        let (output, errors, status) = told(&rt, &TABLES, line, usize::MAX)?;
        let (_, _, untold) = told(&rt, &TABLES, line, 0)?;
        let given = (
            output.is_empty(),
            errors.starts_with("error: "),
            status,
            untold,
        );
        same(&rt, &given, &(true, true, 2, 2), line);
    }
    Ok(())
}

/// Command lines that ask for a text, and a part of it.
static HELP: &[(&str, &str)] = &[
    (
        "mbufpool replay --help",
        "Usage: mbufpool replay [OPTIONS] <FILE>",
    ),
    ("mbufpool replay --help", "--json"),
    ("mbufpool replay --help", "--explain"),
    ("mbufpool replay --help", "- is the standard input"),
    ("mbufpool run --help", "- is the standard input"),
    ("mbufpool steps --help", "- is the standard input"),
    ("mbufpool run --help", "--snapshot"),
    (
        "mbufpool audit --help",
        "Usage: mbufpool audit [OPTIONS] <FILE>",
    ),
    ("mbufpool audit --help", "- is the standard input"),
    ("mbufpool audit --help", "--since <OLD>"),
    ("mbufpool audit --help", "--all"),
    ("mbufpool --help", "Usage: mbufpool"),
    ("mbufpool --version", "mbufpool 0.1.0\n"),
];

#[test]
fn help_and_the_version_are_written_to_the_output(rt: HostRuntime) -> Result<(), Fail> {
    for (line, text) in HELP {
        let (output, errors, status) = told(&rt, &TABLES, line, usize::MAX)?;
        let (_, _, untold) = told(&rt, &TABLES, line, 0)?;
        let given = (output.contains(*text), errors.is_empty(), status, untold);
        same(&rt, &given, &(true, true, 0, 1), text);
    }
    Ok(())
}
