//! Why texts aren't scripts: the line, the column and the reason that are told, from docs/FORMATS.md.

use super::same;
use commons::refusal::Refusal;
use script_reasons::reason::Explanation;
use script_reasons::{explain, explain_steps};
use script_text::{parse, parse_steps};
use std::process::Abort;
use std::string::FromUtf8Error;
use std::test::Fail;

/// A text and its explanation, which of a script is empty.
type ReasonRow = (&'static str, &'static str);

/// A text's front, how often its middle stands in it, the middle, its end, and its explanation.
type LongReasonRow = (&'static str, u32, &'static str, &'static str, &'static str);

const COMMANDS: &[ReasonRow] = &[
    ("pool 3\nalloc a\nfree a\n", ""),
    // The form of the text and of its lines.
    (
        "",
        "line 1, column 1: there is no pool line: write 'pool N', with N elements",
    ),
    (
        "# none\n  \n",
        "line 2, column 3: there is no pool line: write 'pool N', with N elements",
    ),
    (
        "pool 3\nflush",
        "line 2, column 6: the line has no end: put a line feed behind it",
    ),
    (
        "pool 3\nalloc\ta\n",
        "line 2, column 6: byte 9 is not of a line: write spaces and printed ASCII characters",
    ),
    (
        "# \u{7f}\npool 3\n",
        "line 1, column 3: byte 127 is not of a line: write spaces and printed ASCII characters",
    ),
    // The words of the pool line.
    (
        "flush\npool 3\n",
        "line 1, column 1: 'flush' stands before the pool line: write 'pool N' first",
    ),
    (
        "  pool  \n",
        "line 1, column 7: a word is missing: write 'pool N'",
    ),
    (
        "pool three\n",
        "line 1, column 6: 'three' is not a number: write 1 to 20 decimal digits",
    ),
    (
        "pool 000000000000000000003\n",
        "line 1, column 6: '000000000000000000003' is too long: a number has 1 to 20 digits",
    ),
    (
        "pool 18446744073709551616\n",
        "line 1, column 6: '18446744073709551616' is above 18446744073709551615",
    ),
    (
        "pool 3 caches 2\n",
        "line 1, column 8: unknown key 'caches'",
    ),
    (
        "pool 3 cache\n",
        "line 1, column 13: 'cache' has no number: write one behind it",
    ),
    (
        "pool 3 cache -1\n",
        "line 1, column 14: '-1' is not a number: write 1 to 20 decimal digits",
    ),
    (
        "pool 3 cache 1 cache 1\n",
        "line 1, column 16: 'cache' stands twice: give it once",
    ),
    (
        "pool 3 secondcache 1\n",
        "line 1, column 8: 'secondcache' needs a second pool: give 'second N' on the pool line",
    ),
    // Its numbers.
    (
        "pool 8 cache 600\n",
        "line 1, column 14: cache 600 is above 512",
    ),
    (
        "\npool 0\nfrobnicate\n",
        "line 2, column 6: pool 0 is below 1",
    ),
    (
        "pool 16777215\n",
        "line 1, column 6: pool 16777215 is above 16777214",
    ),
    (
        "pool 8 workers 0\n",
        "line 1, column 16: workers 0 is below 1",
    ),
    (
        "pool 8 workers 65\n",
        "line 1, column 16: workers 65 is above 64",
    ),
    (
        "pool 8 desks 65\n",
        "line 1, column 14: desks 65 is above 64",
    ),
    (
        "pool 8 buf 65536\n",
        "line 1, column 12: buf 65536 is above 65535",
    ),
    ("pool 8 refs 0\n", "line 1, column 13: refs 0 is below 1"),
    (
        "pool 8 refs 65536\n",
        "line 1, column 13: refs 65536 is above 65535",
    ),
    ("pool 8 tries 0\n", "line 1, column 14: tries 0 is below 1"),
    (
        "pool 8 tries 1000001\n",
        "line 1, column 14: tries 1000001 is above 1000000",
    ),
    (
        "pool 8 start 1099511627776\n",
        "line 1, column 14: start 1099511627776 is above 1099511627775",
    ),
    (
        "pool 8 putrule 2\n",
        "line 1, column 16: putrule 2 is above 1",
    ),
    (
        "pool 8 second 0\n",
        "line 1, column 15: second 0 is below 1",
    ),
    (
        "pool 8 second 8 secondcache 513\n",
        "line 1, column 29: secondcache 513 is above 512",
    ),
    (
        "pool 8 cache 6\n",
        "line 1, column 14: cache 6 needs a pool of at least 9",
    ),
    (
        "pool 8 secondcache 6 second 8\n",
        "line 1, column 20: secondcache 6 needs a pool of at least 9",
    ),
    // The worker in front of a command.
    (
        "pool 3\n0: flush\n",
        "line 2, column 1: worker 0 is below 1",
    ),
    (
        "pool 3 workers 2\n\n 3: flush\n",
        "line 3, column 2: worker 3 is above 2",
    ),
    (
        "pool 3\nx: flush\n",
        "line 2, column 1: 'x' is not a number: write 1 to 20 decimal digits",
    ),
    (
        "pool 3\n1:\n",
        "line 2, column 3: '1:' has no command: write one behind it",
    ),
    (
        "pool 3\n1: # none\n",
        "line 2, column 4: unknown command '#'",
    ),
    // The words of a command.
    (
        "pool 3\nflush\nfrobnicate\n",
        "line 3, column 1: unknown command 'frobnicate'",
    ),
    (
        "pool 3\nloadlength\n",
        "line 2, column 1: unknown command 'loadlength'",
    ),
    (
        "pool 3\npool 3\n",
        "line 2, column 1: a second pool line: a script has one",
    ),
    (
        "pool 3\n1: free\n",
        "line 2, column 8: a word is missing: write 'free P'",
    ),
    (
        "pool 3\nbulk\n",
        "line 2, column 5: a word is missing: write 'bulk P ..'",
    ),
    (
        "pool 3\nchain a\n",
        "line 2, column 8: a word is missing: write 'chain P Q'",
    ),
    (
        "pool 3\nflush a\n",
        "line 2, column 7: 'a' is a word too many: write 'flush'",
    ),
    (
        "pool 3\nclone a b  c\n",
        "line 2, column 12: 'c' is a word too many: write 'clone Q P'",
    ),
    (
        "pool 3\nbulk a B\n",
        "line 2, column 8: 'B' is not a name: write 1 to 16 of a to z and 0 to 9, a letter first",
    ),
    (
        "pool 3\ntake a 0\n",
        "line 2, column 6: 'a' is not a number: write 1 to 20 decimal digits",
    ),
    (
        "pool 3\ntake 0 abcdefghijklmnopq\n",
        "line 2, column 8: 'abcdefghijklmnopq' is not a name: write 1 to 16 of a to z and 0 to 9, a letter first",
    ),
    (
        "pool 3\nappend a 65536\n",
        "line 2, column 10: length 65536 is above 65535",
    ),
    (
        "pool 3\noffer a 65536\n",
        "line 2, column 9: desk 65536 is above 65535",
    ),
    (
        "pool 3\ncloneto a b\n",
        "line 2, column 1: 'cloneto' needs a second pool: give 'second N' on the pool line",
    ),
    // The names that it makes.
    (
        "pool 9 workers 2\n2: alloc b\nalloc a\nbulk b a\n",
        "line 4, column 8: 'a' is made by line 3: give each packet its own name",
    ),
    (
        "pool 9\ntake 0 b\nclone a b\n",
        "line 3, column 9: 'b' is made by line 2: give each packet its own name",
    ),
    (
        "pool 9\nbulk a b a\n",
        "line 2, column 10: 'a' is made twice in this line: give each packet its own name",
    ),
];

const STEPS: &[ReasonRow] = &[
    ("pool 3 workers 2\nloadlength\n2: putin 0 0>1 2\n", ""),
    (
        "pool 3 second 3\n",
        "line 1, column 8: 'second' is for scripts of commands: steps have one pool",
    ),
    (
        "pool 3 secondcache 1\n",
        "line 1, column 8: 'secondcache' is for scripts of commands: steps have one pool",
    ),
    (
        "pool 3\nalloc a\n",
        "line 2, column 1: unknown step 'alloc'",
    ),
    (
        "pool 3\n1: pool 3\n",
        "line 2, column 4: a second pool line: a script has one",
    ),
    (
        "pool 3 cache 9\n",
        "line 1, column 14: cache 9 needs a pool of at least 13",
    ),
    (
        "pool 3\nreserve 1\n",
        "line 2, column 10: a word is missing: write 'reserve S N'",
    ),
    (
        "pool 3\ncut 1\n",
        "line 2, column 5: '1' is a word too many: write 'cut'",
    ),
    (
        "pool 3\nadd -\n",
        "line 2, column 5: '-' is not a number: write 1 to 20 decimal digits",
    ),
    (
        "pool 3\nclaim a\n",
        "line 2, column 7: 'a' is not an element: write a number, or - for the end",
    ),
    (
        "pool 3\nhold 65536\n",
        "line 2, column 6: desk 65536 is above 65535",
    ),
    (
        "pool 3\nputin 0 1>\n",
        "line 2, column 9: '1>' is not a segment: write E, or E>B with a base B",
    ),
    (
        "pool 3\nputin 0\n",
        "line 2, column 8: a word is missing: write 'putin D G ..'",
    ),
];

const LONG: &[LongReasonRow] = &[
    (
        "pool 3\n#",
        1_048_569,
        "\n",
        "",
        "line 0, column 0: a script has at most 1048576 bytes",
    ),
    (
        "pool 3\n#",
        8_192,
        "x",
        "\n",
        "line 2, column 8193: a line has at most 8192 bytes",
    ),
    (
        "pool 3\n",
        10_001,
        "flush\n",
        "",
        "line 10002, column 1: a script has at most 10000 lines behind the pool line",
    ),
    (
        "pool 3\nbulk",
        257,
        " a",
        "\n",
        "line 2, column 518: a bulk has at most 256 names",
    ),
];

const LONG_STEPS: &[LongReasonRow] = &[
    (
        "pool 3\nputin 0",
        33,
        " 1",
        "\n",
        "line 2, column 73: a packet has at most 32 segments",
    ),
    (
        "pool 3\n",
        10_001,
        "cut\n",
        "",
        "line 10002, column 1: a script has at most 10000 lines behind the pool line",
    ),
];

/// Where each of these texts is explained.
const PLACES: &[(&str, u32, usize)] = &[
    ("pool 9\nalloc b\nclone a b\n", 3, 9),
    ("# none\npool 8 cache 600\n", 2, 14),
    ("pool 3\nbulk a b c\nfree\n", 3, 5),
];

#[test]
fn refused_memory_changes_no_explanation(rt: HostRuntime) -> Result<(), Fail> {
    for (text, line, column) in PLACES {
        for explained in [
            explain(rt.alloc(), text.as_bytes()),
            explain(rt.alloc(), text.as_bytes()),
        ] {
            match explained {
                Err(Refusal::OutOfMemory) => {}
                explained => {
                    let place = explained.map(|found| found.map(|e| (e.line, e.column)));
                    same(&rt, &place, &Ok(Some((*line, *column))), text);
                }
            }
        }
    }
    Ok(())
}

/// What is told of an explanation, or of none.
fn told<R: Abort + AllocGlobal>(
    rt: &R,
    explained: Result<Option<Explanation<'_>>, Refusal>,
) -> Result<String, Fail> {
    let mut text = Vec::new(rt.alloc());
    if let Some(explanation) = explained? {
        explanation.write(&mut text)?;
    }
    Ok(String::from_utf8(text)?)
}

/// A text of commands is explained so, or is a script, and its line is that of its refusal.
fn explain_text<R: Abort + AllocGlobal>(rt: &R, text: &str, wanted: &str) -> Result<(), Fail> {
    let explained = explain(rt.alloc(), text.as_bytes());
    if let Err(Refusal::ScriptFault(line)) = parse(rt.alloc(), text.as_bytes()) {
        let told = explained.map(|found| found.map(|explanation| explanation.line));
        same(rt, &told, &Ok(Some(line)), wanted);
    }
    let told = told(rt, explain(rt.alloc(), text.as_bytes()))?;
    same(rt, &told.as_str(), &wanted, wanted);
    Ok(())
}

/// So is a text of steps.
fn explain_step_text<R: Abort + AllocGlobal>(rt: &R, text: &str, wanted: &str) -> Result<(), Fail> {
    let told = told(rt, explain_steps(rt.alloc(), text.as_bytes()))?;
    same(rt, &told.as_str(), &wanted, wanted);
    Ok(())
}

/// A text with its middle so often.
fn long_text<R: AllocGlobal>(rt: &R, row: &LongReasonRow) -> Result<String, Fail> {
    let (front, count, middle, end, _) = row;
    let mut text = String::new(rt.alloc());
    text.push_str(front)?;
    for _ in 0..*count {
        text.push_str(middle)?;
    }
    text.push_str(end)?;
    Ok(text)
}

#[test]
fn each_text_that_is_no_script_is_explained(rt: HostRuntime) -> Result<(), Fail> {
    for (text, wanted) in COMMANDS {
        explain_text(&rt, text, wanted)?;
    }
    for row in LONG {
        explain_text(&rt, long_text(&rt, row)?.as_str(), row.4)?;
    }
    Ok(())
}

#[test]
fn each_text_that_is_no_script_of_steps_is_explained(rt: HostRuntime) -> Result<(), Fail> {
    for (text, wanted) in STEPS {
        explain_step_text(&rt, text, wanted)?;
    }
    for row in LONG_STEPS {
        explain_step_text(&rt, long_text(&rt, row)?.as_str(), row.4)?;
    }
    Ok(())
}
