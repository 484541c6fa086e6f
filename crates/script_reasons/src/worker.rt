//! The worker in front of a command or a step, and its first word.

use crate::numbers::{Range, number_within};
use crate::reason::{Reason, WordFault};
use crate::words::{Word, Words, Wrong};
use script_text::worker_command::prefix_of;

/// Whose line it is, and the words that say what is to be done.
#[derive(Clone, Copy)]
pub(crate) struct OfWorker<'a> {
    pub worker: u64,
    pub verb: Word<'a>,
    pub words: Words<'a>,
}

/// The worker of a line whose first word this is, in a pool of so many workers.
pub(crate) fn of_worker<'a>(
    workers: u64,
    first: Word<'a>,
    words: Words<'a>,
) -> Result<OfWorker<'a>, Wrong<'a>> {
    let Some(number) = prefix_of(first.text) else {
        return Ok(OfWorker {
            worker: 1,
            verb: first,
            words,
        });
    };
    let range = Range {
        what: "worker",
        least: 1,
        most: workers,
    };
    let column = first.column;
    let worker = number_within(
        range,
        Word {
            column,
            text: number,
        },
    )?;
    match words.next() {
        None => Err(words.lack(Reason::Word(WordFault::WorkerAlone, first.text))),
        Some((verb, words)) => Ok(OfWorker {
            worker,
            verb,
            words,
        }),
    }
}
