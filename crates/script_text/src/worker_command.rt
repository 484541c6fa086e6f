//! The words of a command line: the worker whose number may stand in front, and the command.

ghost use Rattle.commons.specs.Bounds.{max_workers};
ghost use Rattle.std.specs.Prelude.{◌≡◌, ◌≤◌, ◌∷◌, codes, IfOk, IfSome, if◌then◌else◌, Option, None, Some};
ghost use Rattle.std.specs.Str.{bytes_eq};
ghost use Rattle.std.specs.List.{AllByRecursion};
ghost use Rattle.std.specs.Option.{option_copied};
ghost use Rattle.script_text.specs.Names.{IsName};
ghost use Rattle.script_text.specs.inside.Reading.{words_of};
ghost use Rattle.script_text.specs.inside.ScriptReading.{before_colon, worker_command_from, worker_at};

use crate::from_words::FromWords;
use crate::line::next_word;
use crate::number::number_of;
use std::alloc::{AllocError, Global};

/// The part of a word before a colon at its end.
pub fn prefix_of(word: &[u8]) -> Option<&[u8]>
    ensures { option_copied result ≡ before_colon word.now }
{
    word.strip_suffix(b":".as_slice())
}

/// The worker whose number a word spells, in a pool of this many workers.
fn worker_of(workers: u64, number: &[u8]) -> Option<u32>
    requires { workers ≤ max_workers }
    ensures { result ≡ worker_at workers number.now }
{
    let worker = number_of(number)?;
    if 1 <= worker && worker <= workers {
        Some(worker as u32)
    } else {
        None
    }
}

/// The worker and the command that a line spells in a pool of this many workers, or `None` where
/// it spells none. A line that names no worker is of the first.
pub(crate) fn worker_command<C: FromWords>(
    alloc: Global,
    workers: u64,
    line: &[u8],
) -> Result<Option<(u32, C)>, AllocError>
    requires { workers ≤ max_workers }
    ensures read { IfOk result (λ found.
        found ≡ worker_command_from C.lexicon workers (words_of line.now)) }
    ensures named { IfOk result
        (λ found. IfSome found (λ o. AllByRecursion IsName (C.lexicon.language.names_made o.1))) }
{
    let Some((word, rest)) = next_word(line) else {
        return Ok(None);
    };
    let (worker, words) = match prefix_of(word) {
        None => (1, line),
        Some(number) => match worker_of(workers, number) {
            None => return Ok(None),
            Some(worker) => (worker, rest),
        },
    };
    match C::from_words(alloc, words)? {
        None => Ok(None),
        Some(command) => Ok(Some((worker, command))),
    }
}
