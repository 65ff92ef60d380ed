// The lines that the replay program prints.
#![tactic(auto)]

mod decided;
mod lamps;

ghost use Rattle.std.specs.Prelude.{◌≡◌, ◌≤◌, ◌<◌, length};
ghost use Rattle.text.specs.Puts.{Puts};
ghost use Rattle.tick_text.specs.Lines.{heading_line, refusal_number, interval_text, tick_line, longest_tick, hex_digit, hex_text, poll_line};

pub use decided::{put_bypass, put_decision};
pub use lamps::put_lamps;
use refusals::Refusal;
use text::Text;
use tick::Ticked;

pub fn put_heading(out: &mut Text)
    ensures { Puts out.old heading_line out.new }
{
    out.put(
        b"tick refusal interval age lanes lower sign day entry source level wish rate cycle released bypass\n",
    );
}

// The number of a refusal; 0 of none.
pub fn refusal_number(refusal: Option<Refusal>) -> u8
    ensures { result ≡ refusal_number refusal }
{
    match refusal {
        Some(refusal) => refusal.number(),
        None => 0,
    }
}

// The refusal, and the interval and its age.
fn put_interval(out: &mut Text, t: Ticked)
    ensures { Puts out.old (interval_text t) out.new }
{
    phrases::put_blank_and_decimal(out, refusal_number(t.refusal) as u64);
    phrases::put_blank_and_decimal(out, t.state.group.interval as u64);
    phrases::put_blank_and_decimal(out, t.state.group.age as u64);
}

// The line of a tick at a site of n lanes.
pub fn put_tick(out: &mut Text, number: u64, n: u16, t: Ticked)
    ensures is { Puts out.old (tick_line number n t) out.new }
    ensures short { length (tick_line number n t) ≤ longest_tick }
{
    out.put_decimal(number);
    put_interval(out, t);
    lamps::put_lamps(out, t.shown, n);
    decided::put_decided(out, t);
    out.put_byte(b'\n');
}

fn hex_digit(n: u8) -> u8
    requires { n < 16 }
    ensures { result ≡ hex_digit n }
{
    if n < 10 { 48 + n } else { 87 + n }
}

// Bytes in hexadecimal.
pub fn put_hex(out: &mut Text, bytes: &[u8])
    ensures { Puts out.old (hex_text bytes.now) out.new }
{
    for b in bytes {
        let digits = [hex_digit(*b / 16), hex_digit(*b % 16)];
        out.put(&digits);
    }
}

// The line of a poll record.
pub fn put_poll(out: &mut Text, bytes: &[u8])
    ensures { Puts out.old (poll_line bytes.now) out.new }
{
    out.put(b"poll ");
    put_hex(out, bytes);
    out.put_byte(b'\n');
}
