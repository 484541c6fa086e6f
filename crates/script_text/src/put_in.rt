//! The words of a step that puts a packet into a slot.

ghost use Rattle.std.specs.Prelude.{◌≡◌, ◌==◌, [], IfOk, Option, None, Some, position};
ghost use Rattle.script_text.specs.inside.Reading.{words_of};
ghost use Rattle.script_text.specs.inside.PutInReading.{put_in_from, segment_at, segments_from};

use crate::line::next_word;
use crate::number::{number_of, short_number_of};
use crate::steps::{Step, StepSegment};
use commons::seq::Seq;
use std::alloc::{AllocError, Global};

/// The most segments that a packet has.
pub const MAX_SEGMENTS: usize = 32;

/// Where a `>` stands in a word.
fn mark_of(word: &[u8]) -> Option<usize>
    ensures { result ≡ position (λ byte. byte == 62) word.now }
{
    word.iter().position(|byte| *byte == b'>')
}

/// The segment that a word spells.
pub fn segment_of(word: &[u8]) -> Option<StepSegment>
    ensures { result ≡ segment_at word.now }
{
    match mark_of(word) {
        None => {
            let element = number_of(word)?;
            Some(StepSegment {
                element,
                base: None,
            })
        }
        Some(end) => {
            let element = number_of(&word[..end])?;
            let base = number_of(&word[end + 1..])?;
            Some(StepSegment {
                element,
                base: Some(base),
            })
        }
    }
}

/// The segments that the words of a rest of a line spell, where they are 1 to 32.
fn segments_of(alloc: Global, rest: &[u8]) -> Result<Option<Seq<StepSegment>>, AllocError>
    ensures { IfOk result (λ segments. segments ≡ segments_from [] (words_of rest.now)) }
{
    let mut segments = Vec::new(alloc);
    let mut left = rest;
    while let Some((word, after)) = next_word(left) {
        if segments.len() == MAX_SEGMENTS {
            return Ok(None);
        }
        let Some(segment) = segment_of(word) else {
            return Ok(None);
        };
        segments.push(segment)?;
        left = after;
    }
    if segments.is_empty() {
        Ok(None)
    } else {
        Ok(Some(Seq::new(segments)))
    }
}

/// The step that puts a packet into a slot, from the words after its verb, or `None` where they
/// are none.
pub(crate) fn put_in_of(alloc: Global, rest: &[u8]) -> Result<Option<Step>, AllocError>
    ensures { IfOk result (λ step. step ≡ put_in_from (words_of rest.now)) }
{
    let Some((word, rest)) = next_word(rest) else {
        return Ok(None);
    };
    let Some(desk) = short_number_of(word) else {
        return Ok(None);
    };
    match segments_of(alloc, rest)? {
        None => Ok(None),
        Some(segments) => Ok(Some(Step::PutIn { desk, segments })),
    }
}
