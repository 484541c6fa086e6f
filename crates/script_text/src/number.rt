//! Numbers.

ghost use Rattle.std.specs.Prelude.{◌≡◌, ◌-◌, is_some, IfSome};
ghost use Rattle.script_text.specs.inside.Reading.{is_digit, number_at, short_number_at};

/// The most digits that a number has.
pub const MAX_DIGITS: usize = 20;

/// The value of a digit.
pub fn digit_of(byte: u8) -> Option<u64>
    ensures digit { is_some result ≡ is_digit byte }
    ensures value { IfSome result (λ value. value ≡ byte - 48) }
{
    if b'0' <= byte && byte <= b'9' {
        Some(u64::from(byte - b'0'))
    } else {
        None
    }
}

/// The number that a word spells: 1 to 20 decimal digits, with a value below 2^64.
pub fn number_of(word: &[u8]) -> Option<u64>
    ensures { result ≡ number_at word.now }
{
    if word.is_empty() || word.len() > MAX_DIGITS {
        return None;
    }
    let mut value = 0u64;
    for byte in word {
        let digit = digit_of(*byte)?;
        value = value.checked_mul(10)?.checked_add(digit)?;
    }
    Some(value)
}

/// The number that a word spells, at most 65,535, as of a length in bytes or of a desk.
pub fn short_number_of(word: &[u8]) -> Option<u16>
    ensures { result ≡ short_number_at word.now }
{
    let number = number_of(word)?;
    if number <= 65_535 {
        Some(number as u16)
    } else {
        None
    }
}
