// Reads cases from standard input, each behind its length in two bytes: a speed and a grade. Each is five
// numbers, a sign and a k, which has four of them, the highest first: k where the sign is 0, else -1 - k.
// Prints of each case the speed, the grade and what the call answers.
#![tactic(auto)]

ghost use Rattle.std.specs.Prelude.{◌≤◌};

use text::Text;

// 2^63: a k is below it.
const HALF: u64 = 9223372036854775808;

// One that is not below 2^63 counts from there.
fn k_at(case: &[u8], i: usize) -> u64
    requires { i ≤ 12 }
    ensures { result ≤ 9223372036854775807 }
{
    test_input::long_at(case, i) % HALF
}

fn number_at(case: &[u8], i: usize) -> i64
    requires { i ≤ 10 }
{
    let k = k_at(case, i + 1) as i64;
    if numbers::word(case, i) == 0 {
        return k;
    }
    -1 - k
}

fn answer(case: &[u8]) {
    let speed = number_at(case, 0);
    let grade = number_at(case, 5);
    let yellow = slope::yellow_at(speed, grade);
    let refusal = match yellow {
        Ok(_) => 0,
        Err(refusal) => refusal.number(),
    };
    let mut buffer = io::buffer();
    let mut line = Text::new(&mut buffer);
    line.put_signed(speed);
    line.put_byte(b' ');
    line.put_signed(grade);
    phrases::put_blank_and_decimal(&mut line, refusal as u64);
    phrases::put_blank_and_decimal(&mut line, slope::ticks_given(yellow) as u64);
    line.put_byte(b'\n');
    test_output::print(line.whole());
}

fn main() {
    test_input::answer_all(&mut io::buffer(), answer);
}
