// Text in the front of a buffer. What does not fit is counted, so that on an empty buffer a text is only measured.
#![tactic(auto)]

ghost use Rattle.std.specs.Prelude.{◌≡◌, ◌<◌, ◌∷◌, [], length, take, MatchOption};
ghost use Rattle.text.specs.Decimal.{decimal, signed, two_digits};
ghost use Rattle.text.specs.Items.{item};
ghost use Rattle.text.specs.Puts.{Puts};

// A buffer, and where the text that is put into it ends: beyond the buffer, if the text did not fit.
#[derive(Drop)]
pub struct Text<'a> {
    pub out: &'a mut [u8],
    pub end: usize,
}

impl<'a> Text<'a> {
    // No text yet.
    pub fn new(out: &'a mut [u8]) -> Text<'a>
        ensures same_buffer { result.out.ghost_name ≡ out.entry.ghost_name }
        ensures bytes { result.out.now ≡ out.old }
        ensures end { result.end ≡ 0 }
    {
        Text { out, end: 0 }
    }

    // The text, where it fits.
    pub fn whole(&self) -> Option<&[u8]>
        ensures { MatchOption result (length self.now.out.now < self.now.end) (λ bytes. bytes.now ≡ take self.now.end self.now.out.now) }
    {
        self.out.get(..self.end)
    }

    pub fn put_byte(&mut self, byte: u8)
        ensures { Puts self.old (byte ∷ []) self.new }
    {
        if self.end < self.out.len() {
            self.out[self.end] = byte;
        }
        self.end = self.end.saturating_add(1);
    }

    pub fn put(&mut self, bytes: &[u8])
        ensures { Puts self.old bytes.now self.new }
    {
        // what does not fit is counted and not looked at
        let room = self.out.len().saturating_sub(self.end);
        let fits = room.min(bytes.len());
        if 0 < fits {
            self.out[self.end..self.end + fits].copy_from_slice(&bytes[..fits]);
        }
        self.end = self.end.saturating_add(bytes.len());
    }

    // The last two digits of n.
    pub fn put_two_digits(&mut self, n: u16)
        ensures { Puts self.old (two_digits n) self.new }
    {
        self.put_byte(48 + (n / 10 % 10) as u8);
        self.put_byte(48 + (n % 10) as u8);
    }

    // n in base 10.
    pub fn put_decimal(&mut self, n: u64)
        ensures { Puts self.old (decimal n) self.new }
    {
        if 10 <= n {
            self.put_decimal(n / 10);
        }
        self.put_byte(48 + (n % 10) as u8);
    }

    // A number that may be negative.
    pub fn put_signed(&mut self, n: i64)
        ensures { Puts self.old (signed n) self.new }
    {
        if n < 0 {
            self.put_byte(b'-');
            return self.put_decimal((-1 - n) as u64 + 1);
        }
        self.put_decimal(n as u64);
    }

    // Item i, from 0, of a list whose items stand between commas; nothing where the list has none.
    pub fn put_item(&mut self, list: &[u8], i: usize)
        ensures { Puts self.old (item list.now i) self.new }
    {
        let mut left = i;
        for byte in list {
            if *byte == b',' {
                if left == 0 {
                    return;
                }
                left -= 1;
            } else if left == 0 {
                self.put_byte(*byte);
            }
        }
    }
}
