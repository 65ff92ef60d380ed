// A word of digits.
ghost use Rattle.std.specs.Prelude.{◌≡◌};
ghost use Rattle.word_value.specs.Digits.{grown, digits_read};

// A value above this one counts as it, so that digits that follow do not matter.
const TOO_LARGE: u64 = 4294967296;

// A kept value with one more digit.
pub fn grown(value: u64, digit: u8) -> u64
    ensures { result ≡ grown value digit }
{
    value
        .saturating_mul(10)
        .saturating_add(digit as u64)
        .min(TOO_LARGE)
}

// What is kept of a word's value, if the word is a number.
pub fn digits_read(word: &[u8]) -> Option<u64>
    ensures { result ≡ digits_read word.now }
{
    if word.is_empty() {
        return None;
    }
    let mut value: u64 = 0;
    for b in word {
        if *b < b'0' {
            return None;
        }
        if b'9' < *b {
            return None;
        }
        value = grown(value, *b - b'0');
    }
    Some(value)
}
