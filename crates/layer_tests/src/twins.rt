//! Plays what a worker of two pools does on two lists, and looks at what is reported to it and what
//! is left of either pool.

ghost use Rattle.layer_tests.specs.OwnAtSite.{OwnAtSites};

use crate::equal::{same, text_of};
use commons::limits::{Limits, PutRule};
use commons::place::Place;
use commons::plain::PlainCommons;
use commons::site::PlainSite;
use mbuf::acts::Act;
use mbuf::twin::Twin;
use std::alloc::Global;
use std::process::Abort;
use std::test::Fail;

/// What a worker of two pools does at one step.
enum Step {
    /// It does this with its packets of the first pool, and its reply is reported.
    First(Act),
    /// It clones the packet in this slot into the second pool, and the answer is reported.
    CloneInto(u32),
    /// It takes this many bytes off the front of the clone in this slot, and the answer is told.
    Adj(u32, u16),
    /// It takes this many bytes off the end of it.
    Trim(u32, u16),
    /// It counts the clone's first element.
    Count(u32),
    /// It frees the clone.
    Free(u32),
    /// The clone in this slot is reported.
    Place(u32),
    /// Its caches are reported, that of the first pool and that of the second.
    Caches,
}

/// What is left of a pool: the common list, top last, and so often is each element held, 0 being
/// one that isn't.
struct Left {
    common: &'static [u32],
    held: &'static [u32],
}

/// What a worker of two new pools does.
struct Row {
    name: &'static str,
    first: Limits,
    second: Limits,
    steps: &'static [(Step, &'static str)],
    first_left: Left,
    second_left: Left,
}

const FIRST: Limits = Limits {
    population: 4,
    cache: 0,
    workers: 1,
    desks: 1,
    buf: 2_048,
    ref_limit: 65_535,
    tries: 64,
    start_count: 0,
    put_rule: PutRule::Keep,
};

const SECOND: Limits = Limits {
    population: 2,
    desks: 0,
    buf: 0,
    ..FIRST
};

static ROWS: [Row; 9] = [
    Row {
        name: "a foreign clone keeps its base when the packet is freed",
        first: FIRST,
        second: SECOND,
        steps: &[
            (Step::First(Act::Alloc), "Allocated(0, 0)"),
            (Step::First(Act::Append(0, 100)), "Len(100)"),
            (Step::CloneInto(0), "Ok(0)"),
            (Step::First(Act::CountOf(0)), "Count(2)"),
            (
                Step::First(Act::Free(0)),
                "Freed(Freed { back: 0, flushed: 0, put_off: None })",
            ),
            (Step::Count(0), "Ok(1)"),
            (
                Step::Place(0),
                "Some(Packet { segs: [Seg { elem: 0, base: Some(0), data_off: 128, data_len: 100, buf_len: 2048 }] })",
            ),
        ],
        first_left: Left {
            common: &[3, 2, 1],
            held: &[1, 0, 0, 0],
        },
        second_left: Left {
            common: &[1],
            held: &[1, 0],
        },
    },
    Row {
        name: "a foreign clone that is freed gives its base to the first pool and its element to the second",
        first: FIRST,
        second: SECOND,
        steps: &[
            (Step::First(Act::Alloc), "Allocated(0, 0)"),
            (Step::CloneInto(0), "Ok(0)"),
            (
                Step::First(Act::Free(0)),
                "Freed(Freed { back: 0, flushed: 0, put_off: None })",
            ),
            (
                Step::Free(0),
                "Ok(Freed { back: 2, flushed: 2, put_off: None })",
            ),
            (Step::Free(0), "Err(NoSuchPacket)"),
        ],
        first_left: Left {
            common: &[3, 2, 1, 0],
            held: &[0, 0, 0, 0],
        },
        second_left: Left {
            common: &[1, 0],
            held: &[0, 0],
        },
    },
    Row {
        name: "a foreign clone of a chain is refused where the second pool has too few",
        first: FIRST,
        second: Limits {
            population: 1,
            ..SECOND
        },
        steps: &[
            (Step::First(Act::Alloc), "Allocated(0, 0)"),
            (Step::First(Act::Alloc), "Allocated(1, 1)"),
            (Step::First(Act::Chain(0, 1)), "Chained(2, 0)"),
            (Step::CloneInto(0), "Err(NoEntries)"),
            (Step::Place(0), "None"),
        ],
        first_left: Left {
            common: &[3, 2],
            held: &[1, 1, 0, 0],
        },
        second_left: Left {
            common: &[0],
            held: &[0],
        },
    },
    Row {
        name: "a foreign clone is refused where the count of the buffer is at its limit",
        first: Limits {
            ref_limit: 2,
            ..FIRST
        },
        second: Limits {
            ref_limit: 2,
            ..SECOND
        },
        steps: &[
            (Step::First(Act::Alloc), "Allocated(0, 0)"),
            (Step::CloneInto(0), "Ok(0)"),
            (Step::CloneInto(0), "Err(RefSpent)"),
            (Step::Place(1), "None"),
        ],
        first_left: Left {
            common: &[3, 2, 1],
            held: &[2, 0, 0, 0],
        },
        second_left: Left {
            common: &[1],
            held: &[1, 0],
        },
    },
    Row {
        name: "a foreign clone of a clone uses the buffer of the direct one",
        first: FIRST,
        second: SECOND,
        steps: &[
            (Step::First(Act::Alloc), "Allocated(0, 0)"),
            (Step::First(Act::ClonePacket(0)), "Cloned(1, [1])"),
            (Step::CloneInto(1), "Ok(0)"),
            (
                Step::Place(0),
                "Some(Packet { segs: [Seg { elem: 0, base: Some(0), data_off: 128, data_len: 0, buf_len: 2048 }] })",
            ),
        ],
        first_left: Left {
            common: &[3, 2],
            held: &[3, 1, 0, 0],
        },
        second_left: Left {
            common: &[1],
            held: &[1, 0],
        },
    },
    Row {
        name: "lengths of a foreign clone change and leave those of the packet",
        first: FIRST,
        second: SECOND,
        steps: &[
            (Step::First(Act::Alloc), "Allocated(0, 0)"),
            (Step::First(Act::Append(0, 100)), "Len(100)"),
            (Step::CloneInto(0), "Ok(0)"),
            (Step::Adj(0, 101), "Err(TooShort)"),
            (Step::Adj(0, 10), "Ok(90)"),
            (Step::Trim(0, 20), "Ok(70)"),
            (Step::Trim(0, 71), "Err(TooShort)"),
            (
                Step::Place(0),
                "Some(Packet { segs: [Seg { elem: 0, base: Some(0), data_off: 138, data_len: 70, buf_len: 2048 }] })",
            ),
            (Step::First(Act::PktLen(0)), "Len(100)"),
        ],
        first_left: Left {
            common: &[3, 2, 1],
            held: &[2, 0, 0, 0],
        },
        second_left: Left {
            common: &[1],
            held: &[1, 0],
        },
    },
    Row {
        name: "nothing stands in a slot that is empty, or above 255",
        first: FIRST,
        second: SECOND,
        steps: &[
            (Step::CloneInto(0), "Err(NoSuchPacket)"),
            (Step::CloneInto(256), "Err(NoSuchPacket)"),
            (Step::Adj(0, 0), "Err(NoSuchPacket)"),
            (Step::Trim(256, 0), "Err(NoSuchPacket)"),
            (Step::Count(0), "Err(NoSuchPacket)"),
            (Step::Free(256), "Err(NoSuchPacket)"),
        ],
        first_left: Left {
            common: &[3, 2, 1, 0],
            held: &[0, 0, 0, 0],
        },
        second_left: Left {
            common: &[1, 0],
            held: &[0, 0],
        },
    },
    Row {
        name: "each element goes back through the cache of its pool",
        first: Limits { cache: 2, ..FIRST },
        second: Limits {
            population: 4,
            cache: 2,
            ..SECOND
        },
        steps: &[
            (Step::First(Act::Alloc), "Allocated(0, 2)"),
            (Step::Caches, "([0, 1], [])"),
            (Step::CloneInto(0), "Ok(0)"),
            (Step::Caches, "([0, 1], [0, 1])"),
            (
                Step::First(Act::Free(0)),
                "Freed(Freed { back: 0, flushed: 0, put_off: None })",
            ),
            (
                Step::Free(0),
                "Ok(Freed { back: 2, flushed: 2, put_off: None })",
            ),
            (Step::Caches, "([0, 1], [0, 1])"),
        ],
        first_left: Left {
            common: &[3, 2],
            held: &[0, 0, 0, 0],
        },
        second_left: Left {
            common: &[3, 2],
            held: &[0, 0, 0, 0],
        },
    },
    Row {
        name: "the last push that is refused is that of the clone's own element",
        first: Limits {
            start_count: 1_099_511_627_774,
            ..FIRST
        },
        second: Limits {
            start_count: 1_099_511_627_774,
            cache: 1,
            ..SECOND
        },
        steps: &[
            (Step::First(Act::Alloc), "Allocated(0, 0)"),
            (Step::CloneInto(0), "Ok(0)"),
            (
                Step::First(Act::Free(0)),
                "Freed(Freed { back: 0, flushed: 0, put_off: None })",
            ),
            (
                Step::Free(0),
                "Ok(Freed { back: 2, flushed: 0, put_off: Some((1, HeadSpent)) })",
            ),
            (Step::Caches, "([0], [0])"),
        ],
        first_left: Left {
            common: &[3, 2, 1],
            held: &[0, 0, 0, 0],
        },
        second_left: Left {
            common: &[1],
            held: &[0, 0],
        },
    },
];

// Lets a worker take a step, and reports what came of it.
fn said(
    alloc: Global,
    twin: &mut Twin,
    c: &mut PlainCommons,
    d: &mut PlainCommons,
    step: &Step,
) -> Result<String, Fail>
    requires own { OwnAtSites twin.old c.old d.old }
    ensures own { OwnAtSites twin.new c.new d.new }
{
    match step {
        Step::First(act) => text_of(alloc, &twin.perform_first(c, d, *act)),
        Step::CloneInto(p) => text_of(alloc, &twin.clone_into(c, d, *p)),
        Step::Adj(p, len) => text_of(alloc, &twin.adj_clone(c, d, *p, *len)),
        Step::Trim(p, len) => text_of(alloc, &twin.trim_clone(c, d, *p, *len)),
        Step::Count(p) => text_of(alloc, &twin.count_clone(c, d, *p)),
        Step::Free(p) => text_of(alloc, &twin.free_clone(c, d, *p)),
        Step::Place(slot) => text_of(alloc, &twin.second().place(*slot)),
        Step::Caches => text_of(alloc, &(twin.first().cache(), twin.second().cache())),
    }
}

// Lets a worker take its steps, each of which has to come to what is expected.
fn all_said<R: Abort + AllocGlobal>(
    rt: &R,
    twin: &mut Twin,
    c: &mut PlainCommons,
    d: &mut PlainCommons,
    row: &Row,
) -> Result<(), Fail>
    requires own { OwnAtSites twin.old c.old d.old }
{
    for (place, (step, wanted)) in row.steps.iter().enumerate() {
        let said = said(rt.alloc(), twin, c, d, step)?;
        same(
            rt,
            &("step", place, said.as_str()),
            &("step", place, *wanted),
            row.name,
        );
    }
    Ok(())
}

// This is left of a pool.
fn assert_left<R: Abort>(rt: &R, site: &PlainSite, left: &Left, name: &str) {
    same(rt, &site.common(), &left.common, name);
    same(rt, &site.places().len(), &left.held.len(), name);
    for (element, (place, wanted)) in site.places().iter().zip(left.held).enumerate() {
        let held = match place {
            Place::Held(count) => *count,
            _ => 0,
        };
        same(rt, &(element, held), &(element, *wanted), name);
    }
}

// Lets a worker of two new pools take its steps, and looks at what is left of both.
fn play<R: Abort + AllocGlobal>(rt: &R, row: &Row) -> Result<(), Fail> {
    let mut first = PlainSite::make(rt.alloc(), &row.first)?;
    let mut second = PlainSite::make(rt.alloc(), &row.second)?;
    let mut twin = Twin::make(rt.alloc(), &row.first, &row.second, 1)?;
    let taken = {
        let mut c = PlainCommons::new(&mut first, 1);
        let mut d = PlainCommons::new(&mut second, 1);
        all_said(rt, &mut twin, &mut c, &mut d, row)
    };
    twin.lose();
    taken?;
    assert_left(rt, &first, &row.first_left, row.name);
    assert_left(rt, &second, &row.second_left, row.name);
    Ok(())
}

#[test]
fn each_row_of_two_pools_goes_as_it_says(rt: HostRuntime) -> Result<(), Fail> {
    for row in ROWS.iter() {
        play(&rt, row)?;
    }
    Ok(())
}
