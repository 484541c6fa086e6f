//! The head as a word.

ghost use Rattle.std.specs.Prelude.{◌≡◌, ◌+◌, ◌<◌, ◌≤◌, IfSome};
ghost use Rattle.head_word.specs.Heads.{low_in, no_low, spent};
ghost use Rattle.ground.specs.Layout.{pack, unpack};

use step_core::view::Head;

/// The word of a head.
pub(crate) fn word_of(head: Head) -> u64
    requires top { head.top < no_low }
    requires count { head.count ≤ spent }
    ensures { result ≡ pack head }
{
    let top = if head.top == 0 {
        None
    } else {
        Some(head.top - 1)
    };
    head_word::pack(top, head.count)
}

/// The head that a word is. Its low bits are those of a head.
pub(crate) fn head_of(word: u64) -> Head
    requires { low_in word < no_low }
    ensures head { result ≡ unpack word }
    ensures count { result.count ≤ spent }
{
    match head_word::unpack(word) {
        Some((Some(element), count)) => Head {
            top: element + 1,
            count,
        },
        Some((None, count)) => Head { top: 0, count },
        None => unreachable!(),
    }
}
