//! Runs in which workers are in each other's way: with enough turns each line succeeds.
use super::files::Files;
use super::told;
use script_rows::parts::{Field, Part, written};
use std::test::Fail;

/// Command lines, a line each, and what each of them prints.
struct Printed {
    lines: &'static str,
    front: &'static [Part],
    /// Whether that is all. Which worker has which element depends on who comes first.
    is_all: bool,
}

/// A script, what is printed at the end of its run, and what where a worker is lost then.
struct Row {
    name: &'static str,
    script: &'static [Part],
    end: Printed,
    lost: Printed,
}

static ROWS: &[Row] = &[
    // An offer succeeds only once the packet before it is taken, and a take only once the next one
    // is offered.
    Row {
        name: "ten packets pass over one desk",
        script: &[
            Part::Text("pool 10 workers 2 desks 1\n"),
            Part::Each(10, &[Field("alloc a", 0, 1)], "\n"),
            Part::Each(10, &[Field("offer a", 0, 1)], " 0\n"),
            Part::Each(10, &[Field("2: take 0 b", 0, 1)], "\n"),
        ],
        end: Printed {
            lines: "mbufpool run a --turns 1000000\n\
                mbufpool run a --turns 1000000 --ground locked",
            front: &[
                Part::Text(
                    "population 10\navailable 0\nin use 10\ncommon 0:\ncache 1 0:\ncache 2 0:\n",
                ),
                Part::Each(
                    10,
                    &[Field("packet 2 ", 0, 1), Field(" segs 1 len 0: ", 0, 1)],
                    "@128+0/2048\n",
                ),
                Part::Each(10, &[Field("held ", 0, 1)], " count 1: 2\n"),
            ],
            is_all: true,
        },
        lost: Printed {
            lines: "mbufpool run a --turns 1000000 --lose 2\n\
                mbufpool run a --turns 1000000 --lose 2 --ground locked",
            front: &[Part::Text("lost 10: 0 1 2 3 4 5 6 7 8 9\n")],
            is_all: true,
        },
    },
    // Workers 2 to 4 tell worker 1 over desks 0 to 2 that they are there, and it gives each a word
    // to begin over desks 3 to 5. Then each of the four takes 200 elements, and one lost try is a
    // refusal. A get may hold one element back that it gives back when it loses; since the pool has
    // more, none of the others is refused NoEntries for that. Who comes first is chance, so each
    // line is run three times.
    Row {
        name: "four workers take 200 elements each",
        script: &[
            Part::Text("pool 810 workers 4 desks 6 tries 1\n"),
            Part::Text("2: alloc r\n2: offer r 0\n2: take 3 g\n"),
            Part::Text("3: alloc r\n3: offer r 1\n3: take 4 g\n"),
            Part::Text("4: alloc r\n4: offer r 2\n4: take 5 g\n"),
            Part::Text("take 0 p\ntake 1 q\ntake 2 s\noffer p 3\noffer q 4\noffer s 5\n"),
            Part::Each(200, &[Field("alloc a", 0, 1)], "\n"),
            Part::Each(200, &[Field("2: alloc a", 0, 1)], "\n"),
            Part::Each(200, &[Field("3: alloc a", 0, 1)], "\n"),
            Part::Each(200, &[Field("4: alloc a", 0, 1)], "\n"),
        ],
        end: Printed {
            lines: "mbufpool run a --turns 1000000\n\
                mbufpool run a --turns 1000000\n\
                mbufpool run a --turns 1000000\n\
                mbufpool run a --turns 1000000 --ground locked\n\
                mbufpool run a --turns 1000000 --ground locked\n\
                mbufpool run a --turns 1000000 --ground locked",
            front: &[Part::Text("population 810\navailable 7\nin use 803\ncommon 7:")],
            is_all: false,
        },
        lost: Printed {
            lines: "mbufpool run a --turns 1000000 --lose 1\n\
                mbufpool run a --turns 1000000 --lose 1\n\
                mbufpool run a --turns 1000000 --lose 1\n\
                mbufpool run a --turns 1000000 --lose 1 --ground locked\n\
                mbufpool run a --turns 1000000 --lose 1 --ground locked\n\
                mbufpool run a --turns 1000000 --lose 1 --ground locked",
            front: &[Part::Text("lost 200:")],
            is_all: false,
        },
    },
];

#[test]
fn with_a_million_turns_each_line_succeeds(rt: HostRuntime) -> Result<(), Fail> {
    for row in ROWS {
        let script = written(rt.alloc(), row.script)?;
        let files = Files {
            scripts: &[("a", script.as_str())],
            snapshots: &[],
        };
        for printed in [&row.end, &row.lost] {
            let front = written(rt.alloc(), printed.front)?;
            for line in printed.lines.lines() {
                let (output, errors, status) = told(&rt, &files, line, usize::MAX)?;
                let begins = output.starts_with(front.as_str())
                    && (!printed.is_all || output.len() == front.len());
                let is = begins && errors.is_empty() && status == 0;
                let name = row.name;
                assert!(rt;
                    is,
                    "{name}, {line}: {output}{errors} status {status}, not {front}"
                );
            }
        }
    }
    Ok(())
}
