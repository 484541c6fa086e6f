//! How a print ends on writers that take nothing, little or all.
use super::files::TABLES;
use super::screen::Narrow;
use super::{same, told, words_of};
use command_line::request_of;
use script_io::Tally;
use std::sync::Wait;
use std::test::Fail;
use std::thread::Threads;
use tasks::task::Asked;
use tasks::{End, print, print_all, print_explained, print_pair};

/// A command line, how many bytes its output and its errors have room for, and how its print ends
/// there, with the status.
static ENDED: &[(&str, usize, usize, (End, u8))] = &[
    ("mbufpool replay a.script", 0, 0, (End::Untold, 1)),
    ("mbufpool replay first", 0, 0, (End::BrokenOff(0), 1)),
    // The whole print has 154 bytes.
    ("mbufpool replay first", 0, 1_000, (End::BrokenOff(0), 1)),
    ("mbufpool replay first", 1, 1_000, (End::BrokenOff(1), 1)),
    ("mbufpool replay first", 3, 1_000, (End::BrokenOff(3), 1)),
    (
        "mbufpool replay first",
        153,
        1_000,
        (End::BrokenOff(153), 1),
    ),
    ("mbufpool replay first", 154, 1_000, (End::Printed, 0)),
    ("mbufpool replay pull", 0, 1_000, (End::Told, 1)),
    // The line of the fault has 28 bytes.
    ("mbufpool replay pull --explain", 0, 27, (End::Untold, 1)),
    ("mbufpool replay pull --explain", 0, 28, (End::Untold, 1)),
    ("mbufpool replay pull --explain", 0, 1_000, (End::Told, 1)),
    (
        "mbufpool audit healthy --since healthy",
        1_000,
        0,
        (End::Printed, 0),
    ),
    (
        "mbufpool audit healthy --all",
        1_000,
        0,
        (End::Listed(0), 0),
    ),
    ("mbufpool audit lost --all", 1_000, 0, (End::Listed(1), 1)),
    (
        "mbufpool audit lost --all",
        32,
        1_000,
        (End::BrokenOff(32), 1),
    ),
    (
        "mbufpool audit healthy --since none",
        0,
        1_000,
        (End::Told, 1),
    ),
];

/// How the print of a command line ends on writers with this room, and what they took.
fn ended<R: Threads + Wait + Sync + AllocGlobal>(
    rt: &R,
    line: &str,
    (room, errors_room): (usize, usize),
) -> Result<(End, String, String), Fail> {
    let words = words_of(rt.alloc(), line)?;
    let mut screen = Tally::new(Narrow::new(rt.alloc(), room));
    let mut errors = Tally::new(Narrow::new(rt.alloc(), errors_room));
    let end = match request_of(rt.alloc(), words.as_slice()) {
        Ok(Asked::One(request)) => {
            print(rt, rt.alloc(), &TABLES, &request, &mut screen, &mut errors)
        }
        Ok(Asked::Explained(request)) => {
            print_explained(rt, rt.alloc(), &TABLES, &request, &mut screen, &mut errors)
        }
        Ok(Asked::Two(pair)) => print_pair(rt.alloc(), &TABLES, &pair, &mut screen, &mut errors),
        Ok(Asked::All(listing)) => {
            print_all(rt.alloc(), &TABLES, &listing, &mut screen, &mut errors)
        }
        Err(_) => return Err(Fail::from("nothing is asked for")),
    };
    Ok((end, screen.inner.text()?, errors.inner.text()?))
}

/// A writer without room for all has the first bytes, and the other one has nothing.
#[test]
fn a_print_and_a_failure_end_as_their_writers_do(rt: HostRuntime) -> Result<(), Fail> {
    for (line, room, errors_room, wanted) in ENDED {
        let (output, errors, _) = told(&rt, &TABLES, line, usize::MAX)?;
        let (end, taken, said) = ended(&rt, line, (*room, *errors_room))?;
        same(&rt, &(end, end.status()), wanted, line);
        same(&rt, &taken.len(), &output.len().min(*room), line);
        same(&rt, &said.len(), &errors.len().min(*errors_room), line);
        let begins = output.starts_with(taken.as_str()) && errors.starts_with(said.as_str());
        assert!(rt; begins, "{line}: other bytes");
    }
    Ok(())
}
