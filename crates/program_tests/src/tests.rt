//! Tests of the program, from its words and files to its statuses and lines.
use command_line::{request_of, serve};
use screen::Narrow;
use script_io::Tally;
use std::alloc::{AllocError, Global};
use std::fmt::Debug;
use std::process::Abort;
use std::sync::Wait;
use std::test::Fail;
use std::thread::Threads;
use tasks::scripts::Scripts;

mod ends;
mod faults;
mod files;
mod lines;
mod pairs;
mod real;
mod screen;
mod turns;
mod words;

/// Asserts that both are equal, and else says of what, with both.
pub(crate) fn same<R: Abort, T: PartialEq + Debug>(rt: &R, given: &T, wanted: &T, what: &str) {
    assert!(rt; *given == *wanted, "{what}: {given:?}, not {wanted:?}");
}

/// The words of a command line as it is typed, the program's name first. Each space parts two
/// words, so that one at the end is followed by an empty word.
fn words_of(alloc: Global, line: &str) -> Result<Vec<String>, AllocError> {
    let mut words = Vec::new(alloc);
    for word in line.split(' ') {
        words.push(String::from_str(alloc, word)?)?;
    }
    Ok(words)
}

/// What comes of a command line, where both writers have room for so many bytes: what stands on the
/// output and on the errors, and the status.
fn told<R: Threads + Wait + Sync + AllocGlobal, S: Scripts>(
    rt: &R,
    scripts: &S,
    line: &str,
    room: usize,
) -> Result<(String, String, u8), Fail> {
    let words = words_of(rt.alloc(), line)?;
    let asked = request_of(rt.alloc(), words.as_slice());
    let mut screen = Tally::new(Narrow::new(rt.alloc(), room));
    let mut errors = Tally::new(Narrow::new(rt.alloc(), room));
    let status = serve(rt, scripts, asked, &mut screen, &mut errors);
    Ok((screen.inner.text()?, errors.inner.text()?, status))
}

/// Asserts that each of these command lines, a line each, has this output, these errors and this
/// status; and where neither writer takes a byte, a status that isn't 0.
fn assert_told<R: Threads + Wait + Sync + Abort + AllocGlobal, S: Scripts>(
    rt: &R,
    scripts: &S,
    lines: &str,
    wanted: (&str, &str, u8),
) -> Result<(), Fail> {
    for line in lines.lines() {
        let (output, errors, status) = told(rt, scripts, line, usize::MAX)?;
        same(
            rt,
            &(output.as_str(), errors.as_str(), status),
            &wanted,
            line,
        );
        let (_, _, untold) = told(rt, scripts, line, 0)?;
        same(rt, &untold, &wanted.2.max(1), line);
    }
    Ok(())
}
