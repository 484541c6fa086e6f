//! Lines of a script, and the words of a line.

ghost use Rattle.std.specs.Prelude.{◌≡◌, ◌==◌, not, position, ◌+◌, ◌<◌, [], ◌∷◌, length, MatchOption, ⊤, Some, None};
ghost use Rattle.std.specs.List.{list_all};
ghost use Rattle.script_text.specs.inside.Reading.{parts, is_printed as is_printed_byte, is_plain as is_plain_line, is_skipped as is_skipped_line, words_of, only_of, both_of};

/// The most bytes that a line has before its end.
pub const MAX_LINE: usize = 8_192;

/// Where the first line of a text ends.
fn line_end(text: &[u8]) -> Option<usize>
    ensures { result ≡ position (λ byte. byte == 10) text.now }
{
    text.iter().position(|byte| *byte == b'\n')
}

/// Where the first word of a line begins.
fn word_start(line: &[u8]) -> Option<usize>
    ensures { result ≡ position (λ byte. not (byte == 32)) line.now }
{
    line.iter().position(|byte| *byte != b' ')
}

/// Where the first space of a line is.
fn first_space(line: &[u8]) -> Option<usize>
    ensures { result ≡ position (λ byte. byte == 32) line.now }
{
    line.iter().position(|byte| *byte == b' ')
}

/// Whether a byte is a space or a character that is printed.
pub fn is_printed(byte: u8) -> bool
    ensures { result ≡ is_printed_byte byte }
{
    b' ' <= byte && byte <= b'~'
}

/// Whether each byte is a space or a character that is printed.
fn is_printed_text(line: &[u8]) -> bool
    ensures { result ≡ list_all is_printed_byte line.now }
{
    line.iter().all(|byte| is_printed(*byte))
}

/// The first line of a text, without its line end, and what follows it.
pub fn next_line(text: &[u8]) -> Option<(&[u8], &[u8])>
    ensures lines { MatchOption result
        (parts text.now ≡ record { lines = []; rest = text.now })
        (λ found. parts text.now ≡ record {
          lines = found.0.now ∷ (parts found.1.now).lines;
          rest = (parts found.1.now).rest;
        }) }
    ensures shorter { MatchOption result ⊤
        (λ found. length found.0.now + length found.1.now + 1 ≡ length text.now) }
{
    let end = line_end(text)?;
    Some((&text[..end], &text[end + 1..]))
}

/// Whether a line isn't too long, and each byte is a space or a character that is printed.
pub(crate) fn is_plain(line: &[u8]) -> bool
    ensures { result ≡ is_plain_line line.now }
{
    line.len() <= MAX_LINE && is_printed_text(line)
}

/// The first word of a line, and what follows it.
pub fn next_word(line: &[u8]) -> Option<(&[u8], &[u8])>
    ensures words { MatchOption result
        (words_of line.now ≡ [])
        (λ found. words_of line.now ≡ found.0.now ∷ words_of found.1.now) }
    ensures shorter { MatchOption result ⊤ (λ found. length found.1.now < length line.now) }
{
    let start = word_start(line)?;
    let text = &line[start..];
    let len = first_space(text).unwrap_or(text.len());
    Some((&text[..len], &text[len..]))
}

/// Whether a line has no word, or its first word begins with `#`.
pub fn is_skipped(line: &[u8]) -> bool
    ensures { result ≡ is_skipped_line (words_of line.now) }
{
    match next_word(line) {
        None => true,
        Some((word, _)) => matches!(word, [b'#', ..]),
    }
}

/// The only word of a rest of a line.
pub(crate) fn only_word(rest: &[u8]) -> Option<&[u8]>
    ensures { MatchOption result
        (only_of (words_of rest.now) ≡ None)
        (λ word. only_of (words_of rest.now) ≡ Some word.now) }
{
    let (word, after) = next_word(rest)?;
    if next_word(after).is_none() {
        Some(word)
    } else {
        None
    }
}

/// The only two words of a rest of a line.
pub(crate) fn both_words(rest: &[u8]) -> Option<(&[u8], &[u8])>
    ensures { MatchOption result
        (both_of (words_of rest.now) ≡ None)
        (λ found. both_of (words_of rest.now) ≡ Some (found.0.now, found.1.now)) }
{
    let (first, after) = next_word(rest)?;
    let (second, behind) = next_word(after)?;
    if next_word(behind).is_none() {
        Some((first, second))
    } else {
        None
    }
}
