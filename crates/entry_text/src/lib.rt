// A plan entry in words, as the timetable says it: its days, start, mode, rate and table.
#![tactic(auto)]

ghost use Rattle.text.specs.Puts.{Puts};
ghost use Rattle.entry_text.specs.EntryText.{mode_name, clock_text, timed_text, day_text, days_text, entry_text};

use plan::Entry;
use text::Text;

fn put_mode_name(out: &mut Text, mode: u16)
    ensures { Puts out.old (mode_name mode) out.new }
{
    match mode {
        0 => out.put(b"dark"),
        1 => out.put(b"green"),
        2 => out.put(b"fixed"),
        3 => out.put(b"resp"),
        _ => {}
    }
}

// A minute of the day as hh:mm.
fn put_clock(out: &mut Text, minute: u16)
    ensures { Puts out.old (clock_text minute) out.new }
{
    out.put_two_digits(minute / 60);
    out.put_byte(b':');
    out.put_two_digits(minute % 60);
}

// What stands behind the day: start, mode, rate and table.
pub fn put_timed(out: &mut Text, e: Entry)
    ensures { Puts out.old (timed_text e) out.new }
{
    put_clock(out, e.start);
    out.put_byte(b' ');
    put_mode_name(out, e.mode);
    phrases::put_blank_and_decimal(out, e.rate as u64);
    phrases::put_blank_and_decimal(out, e.table as u64);
}

// A day's name and a blank, if the days have it.
fn put_day(out: &mut Text, days: u16, day: u16)
    ensures { Puts out.old (day_text days day) out.new }
{
    if !plan::on_day(days, day) {
        return;
    }
    phrases::put_day_name(out, day);
    out.put_byte(b' ');
}

fn put_days(out: &mut Text, days: u16)
    ensures { Puts out.old (days_text days) out.new }
{
    for day in 0..plan::DAY_TYPES {
        put_day(out, days, day);
    }
}

// All of an entry.
pub fn put_entry(out: &mut Text, e: Entry)
    ensures { Puts out.old (entry_text e) out.new }
{
    put_days(out, e.days);
    put_timed(out, e);
}
