// The lamps in a tick's line.
ghost use Rattle.std.specs.Prelude.{◌≡◌, ◌∷◌, [], get_or, take};
ghost use Rattle.text.specs.Puts.{Puts};
ghost use Rattle.tick_text.specs.Lamps.{letter_of, word_of, lamps_text};

use group::Indications;
use text::Text;

// A number's letter, and `?` where it has none.
fn letter_of(letters: &[u8], x: u16) -> u8
    ensures { result ≡ letter_of letters.now x }
{
    let i = x as usize;
    if i < letters.len() { letters[i] } else { b'?' }
}

// The first n of four letters.
fn put_first(out: &mut Text, a: u8, b: u8, c: u8, d: u8, n: u16)
    ensures { Puts out.old (take n (a ∷ b ∷ c ∷ d ∷ [])) out.new }
{
    let letters = [a, b, c, d];
    let k = n as usize;
    if 4 <= k {
        return out.put(&letters);
    }
    out.put(&letters[..k]);
}

// The letters of the first n of four lanes' numbers.
fn put_word(out: &mut Text, letters: &[u8], v: [u16; 4], n: u16)
    ensures { Puts out.old (word_of letters.now v n) out.new }
{
    put_first(
        out,
        letter_of(letters, v[0]),
        letter_of(letters, v[1]),
        letter_of(letters, v[2]),
        letter_of(letters, v[3]),
        n,
    );
}

// The lamps of the first n lanes.
pub fn put_lamps(out: &mut Text, s: Indications, n: u16)
    ensures { Puts out.old (lamps_text s n) out.new }
{
    out.put_byte(b' ');
    put_word(out, b"DRYG", s.colours, n);
    out.put_byte(b' ');
    put_word(out, b"01", s.lower, n);
    phrases::put_blank_and_decimal(out, s.sign as u64);
}
