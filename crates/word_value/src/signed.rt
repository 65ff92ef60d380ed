// A word with a sign or none, and digits behind it.
ghost use Rattle.std.specs.Prelude.{◌≡◌, ◌≤◌, IfSome};
ghost use Rattle.word_value.specs.Signed.{of_digits, kept_word, word_read};

use crate::digits;

// Why a word says no number.
#[derive(Clone, Copy, PartialEq, Eq)]
pub enum BadWord {
    Empty,
    TooLong,
    NoNumber,
}

// The most bytes of a word that is read.
pub const LONGEST_WORD: usize = 4096;

fn of_digits(negative: bool, digits: Option<u64>) -> Result<i64, BadWord>
    requires { IfSome digits (λ size. size ≤ 4294967296) }
    ensures { result ≡ of_digits negative digits }
{
    match digits {
        None => Err(BadWord::NoNumber),
        Some(size) => Ok(if negative {
            0 - size as i64
        } else {
            size as i64
        }),
    }
}

// What a word says; a size above 4294967296 counts as that.
pub fn read(word: &[u8]) -> Result<i64, BadWord>
    ensures { result ≡ kept_word (word_read word.now) }
{
    if word.is_empty() {
        return Err(BadWord::Empty);
    }
    if LONGEST_WORD < word.len() {
        return Err(BadWord::TooLong);
    }
    let first = word[0];
    if first == b'-' {
        return of_digits(true, digits::digits_read(&word[1..]));
    }
    if first == b'+' {
        return of_digits(false, digits::digits_read(&word[1..]));
    }
    of_digits(false, digits::digits_read(word))
}
