// Test cases on standard input, each behind its length in two bytes.
#![tactic(auto)]

ghost use Rattle.std.specs.Prelude.{◌≤◌, length, IfSome};

use streams::STDIN_FILENO;

// The next case, at the front of the buffer; one that is longer than the buffer ends the input.
pub fn next_case(buf: &mut [u8]) -> Option<&[u8]>
    ensures { IfSome result (λ case. length case.now ≤ length buf.old) }
{
    let mut head = [0u8; 2];
    let got = io::read_full(STDIN_FILENO, &mut head);
    let length = numbers::word(&head, 0) as usize;
    if got < 2 || buf.len() < length {
        return None;
    }
    let count = io::read_full(STDIN_FILENO, &mut buf[..length]);
    Some(&buf[..count])
}

// The most cases of a run.
const MOST_CASES: u32 = 65536;

// Answers one case after the other, each read into the buffer, to the end of the input.
pub fn answer_all<F: Fn(&[u8])>(buf: &mut [u8], answer: F)
    requires { F.IsAlwaysCallable answer }
{
    for _ in 0..MOST_CASES {
        match next_case(buf) {
            Some(case) => answer(case),
            None => return,
        }
    }
}

// Numbers i and i + 1 of a case as one.
fn pair_at(case: &[u8], i: usize) -> u64
    requires { i ≤ 16 }
    ensures { result ≤ 4294967295 }
{
    (numbers::word(case, i) as u64) * 65536 + (numbers::word(case, i + 1) as u64)
}

// Four numbers of a case as one, from number i on, the highest first.
pub fn long_at(case: &[u8], i: usize) -> u64
    requires { i ≤ 12 }
{
    pair_at(case, i) * 4294967296 + pair_at(case, i + 2)
}
