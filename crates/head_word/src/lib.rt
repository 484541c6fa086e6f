//! The head of the common stack as one 64-bit word: its top element and its modification count.
#![tactic(auto)]

ghost use Rattle.std.specs.Prelude.{◌≡◌, ℕ, ◌+◌, ◌<◌, ◌≤◌, ◌↔◌, Option, IfSome, MatchOption};
ghost use Rattle.head_word.specs.Heads.{IsHead, OneHead, OneWord, spent, max_elements, low_in, no_low};

/// How many low bits of a head's word are the top's; the others are the count's. The width stands
/// here and, as `low_bits`, in the specs alone: every other number of a head follows from it.
pub const LOW_BITS: u32 = 24;

/// What one step of the count is worth.
const LOW: u64 = 1 << LOW_BITS;

/// The low bits that no head has.
const NO_LOW: u64 = LOW - 1;

/// The most elements of a pool, each of which can be the top.
pub const MAX_ELEMENTS: u32 = (LOW - 2) as u32;

/// The modification count at which the head is spent: the greatest that the bits above the low ones
/// hold.
pub const SPENT: u64 = u64::MAX / LOW;

/// The word of a head: its count above the low bits, which are 0 for no top and else the top + 1.
pub fn pack(top: Option<u32>, count: u64) -> u64
    requires top { IfSome top (λ element. element < max_elements) }
    requires count { count ≤ spent }
    ensures head { IsHead top count result }
{
    let low = match top {
        None => 0,
        Some(element) => u64::from(element) + 1,
    };
    count * LOW + low
}

/// The head that a word is; `None` exactly where its low bits are all ones.
pub fn unpack(word: u64) -> Option<(Option<u32>, u64)>
    ensures head { MatchOption result (low_in word ≡ no_low) (λ head. IsHead head.0 head.1 word) }
{
    let low = word % LOW;
    let count = word / LOW;
    if low == NO_LOW {
        return None;
    }
    if low == 0 {
        Some((None, count))
    } else {
        Some((Some((low - 1) as u32), count))
    }
}

/// The count after one more change; `None` exactly where the count is spent.
pub fn next_count(count: u64) -> Option<u64>
    requires { count ≤ spent }
    ensures { MatchOption result (count ≡ spent) (λ next. (count < spent) × (next ≡ count + 1)) }
{
    if count == SPENT {
        None
    } else {
        Some(count + 1)
    }
}

/// A head has one word, and a word is of one head: what is packed unpacks to itself, and a word
/// that unpacks packs to itself.
pub fn word_and_head_are_one()
    ensures word { OneWord }
    ensures head { OneHead }
{}
