// What the programs print alike: a day's name, a number and a time behind a blank, the line of
// what is refused and of a refused site file, how many arguments are wanted, and of what is wrong its
// trade word and the range that was left.
#![tactic(auto)]

mod wrong;

ghost use Rattle.text.specs.Puts.{Puts};
ghost use Rattle.phrases.specs.Phrases.{day_name, blank_and_decimal, blank_and_seconds, refused_line, refusal_line, arguments_text, wanted_line};

use text::Text;
pub use wrong::{put_allowed, put_not_allowed, put_opening};

const DAYS: [[u8; 3]; 8] = [
    *b"Sun", *b"Mon", *b"Tue", *b"Wed", *b"Thu", *b"Fri", *b"Sat", *b"Hol",
];

pub fn put_day_name(out: &mut Text, day: u16)
    ensures { Puts out.old (day_name day) out.new }
{
    match DAYS.get(day as usize) {
        Some(name) => out.put(name),
        None => out.put_byte(b'-'),
    }
}

pub fn put_blank_and_decimal(out: &mut Text, n: u64)
    ensures { Puts out.old (blank_and_decimal n) out.new }
{
    out.put_byte(b' ');
    out.put_decimal(n);
}

pub fn put_blank_and_seconds(out: &mut Text, ticks: u16)
    ensures { Puts out.old (blank_and_seconds ticks) out.new }
{
    put_blank_and_decimal(out, (ticks / 10) as u64);
    out.put_byte(b'.');
    out.put_decimal((ticks % 10) as u64);
}

pub fn put_refused(out: &mut Text, refusal: u8)
    ensures { Puts out.old (refused_line refusal) out.new }
{
    out.put(b"refused ");
    out.put_decimal(refusal as u64);
    out.put_byte(b'\n');
}

pub fn put_refusal(out: &mut Text, refusal: u8, place: usize)
    ensures { Puts out.old (refusal_line refusal place) out.new }
{
    out.put(b"refused ");
    out.put_decimal(refusal as u64);
    out.put(b" at ");
    out.put_decimal(place as u64);
    out.put(b"\n");
}

fn put_arguments(out: &mut Text, count: usize)
    ensures { Puts out.old (arguments_text count) out.new }
{
    if count == 1 {
        return out.put(b" argument, ");
    }
    out.put(b" arguments, ");
}

// How many arguments there are, and how many are wanted.
pub fn put_wanted(out: &mut Text, count: usize, wanted: &[u8])
    ensures { Puts out.old (wanted_line count wanted.now) out.new }
{
    out.put_decimal(count as u64);
    put_arguments(out, count);
    out.put(wanted);
    out.put(b" wanted\n");
}
