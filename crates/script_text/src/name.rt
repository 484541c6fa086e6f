//! Names of packets.

ghost use Rattle.std.specs.Prelude.{◌≡◌, ◌≤◌, ◌||◌, length, true};
ghost use Rattle.std.specs.List.{list_all};
ghost use Rattle.script_text.specs.inside.Reading.{is_digit, is_letter, is_name_word};

use arrayvec::ArrayVec;
use std::marker::Model;

/// The most bytes that a name has.
pub const MAX_NAME: usize = 16;

/// A packet's name, in its place: 1 to 16 of `a` to `z` and `0` to `9`, beginning with a letter.
/// Contracts see its bytes.
#[derive(Debug, Drop)]
pub struct Name {
    bytes: ArrayVec<u8, MAX_NAME>,
}

impl Model for Name {
    ghost use Rattle.std.specs.Prelude.{ℕ, List};

    ghost Value = { List ℕ };

    ghost view = { λ n. n.bytes.items };
}

impl Name {
    /// The name of these bytes, 16 at most.
    pub(crate) fn new(bytes: &[u8]) -> Name
        requires { length bytes.now ≤ 16 }
        ensures { result ≡ bytes.now }
    {
        Name {
            bytes: in_place(bytes),
        }
    }

    /// The bytes.
    pub fn as_slice(&self) -> &[u8]
        ensures { result.now ≡ self.now }
    {
        self.bytes.as_slice()
    }
}

/// A copy of these bytes, 16 at most, that takes no memory of its own.
pub(crate) fn in_place(bytes: &[u8]) -> ArrayVec<u8, MAX_NAME>
    requires { length bytes.now ≤ 16 }
    ensures { result.items ≡ bytes.now }
{
    let mut copy = ArrayVec::new();
    match copy.try_extend_from_slice(bytes) {
        Ok(()) => copy,
        Err(_) => unreachable!(),
    }
}

/// Whether each byte is a letter or a digit.
fn is_name_text(word: &[u8]) -> bool
    ensures { result ≡ list_all (λ byte. is_letter byte || is_digit byte) word.now }
{
    word.iter().all(|byte| (b'a' <= *byte && *byte <= b'z') || (b'0' <= *byte && *byte <= b'9'))
}

#[tactic(auto, unfolding(crate::specs::inside::Reading::is_name_word))]
/// Whether a word is a name: 1 to 16 of `a` to `z` and `0` to `9`, beginning with a letter.
pub fn is_name(word: &[u8]) -> bool
    ensures name { result ≡ is_name_word word.now }
    ensures few { result ≡ true → length word.now ≤ 16 }
{
    matches!(word, [b'a'..=b'z', ..]) && word.len() <= MAX_NAME && is_name_text(word)
}
