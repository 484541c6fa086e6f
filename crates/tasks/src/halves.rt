//! A text of two snapshots, parted into both.
ghost use Rattle.std.specs.Prelude.{MatchOption};
ghost use Rattle.tasks.specs.Halves.{AreTwoTexts, IsFirstSeam, IsOneText, IsSeamless};

use snapshot_json::MAX_BYTES;

/// The two texts that these bytes are, parted where a line feed stands between `}` and `{` for the
/// first time: in no text of JSON it does. Nothing where they are one text, or more than one may be.
pub(crate) fn halves(bytes: &[u8]) -> Option<(&[u8], &[u8])>
    ensures { MatchOption result (IsOneText bytes.now) (λ both. AreTwoTexts bytes.now both.0.now both.1.now) }
{
    if bytes.len() > MAX_BYTES {
        return None;
    }
    match seam(bytes) {
        Some(at) => Some((&bytes[..at + 1], &bytes[at + 2..])),
        None => None,
    }
}

/// Where the first of two texts ends.
fn seam(bytes: &[u8]) -> Option<usize>
    ensures { MatchOption result (IsSeamless bytes.now) (IsFirstSeam bytes.now) }
{
    for at in 0..bytes.len().saturating_sub(2) {
        if bytes[at] == b'}' && bytes[at + 1] == b'\n' && bytes[at + 2] == b'{' {
            return Some(at);
        }
    }
    None
}
