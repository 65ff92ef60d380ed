// The text that the timetable program prints of a site file.
#![tactic(auto)]

mod line;

ghost use Rattle.std.specs.Prelude.{◌≡◌, ◌≤◌, ◌++◌, length, drop, None, IsOk};
ghost use Rattle.text.specs.Puts.{Puts};
ghost use Rattle.output.specs.Output.{answer_of, buffer_of};
ghost use Rattle.plan.specs.Entry.{day_types};
ghost use Rattle.listing.specs.Timetable.{day_minutes, starting_at, minutes_from, days_from, timetable_of, printed_of, text_of, longest_text};
ghost use Rattle.listing.specs.NextStart.{earlier_of, next_start_of};

use numbers::Rows;
use output::Written;
use refusals::Refusal;
use site::{Misread, Site};
use text::Text;

const MINUTES_OF_A_DAY: u16 = 1440;

// A start, if it is at or after a minute of the day and no later than the best so far; else that one.
#[tactic(auto, unfolding(crate::specs::NextStart::earlier_of))]
fn earlier(start: u16, from: u16, best: u16) -> u16
    ensures { result ≡ earlier_of start from best }
{
    if from <= start && start <= best {
        start
    } else {
        best
    }
}

// The earliest start at or after a minute of the day; 1440 where there is none.
fn next_start(plan: Rows, from: u16) -> u16
    ensures { result ≡ next_start_of plan.entry.numbers.now from plan.entry.count }
{
    let mut best = MINUTES_OF_A_DAY;
    for i in 0..plan.count {
        best = earlier(plan::entry_at(plan.numbers, i).start, from, best);
    }
    best
}

// The lines of one day's entries that start at one minute, as filed.
fn put_starting(out: &mut Text, plan: Rows, day: u16, minute: u16)
    ensures { Puts out.old (starting_at plan.entry.numbers.now day minute 0 plan.entry.count) out.new }
{
    for i in 0..plan.count {
        let e = plan::entry_at(plan.numbers, i);
        line::put_line_if(out, day, minute, e, i as u64 + 1);
    }
}

// The lines of one day, by start.
fn put_day(out: &mut Text, plan: Rows, day: u16)
    ensures { Puts out.old (minutes_from plan.entry.numbers.now plan.entry.count day 0 day_minutes) out.new }
{
    let mut start = next_start(plan, 0);
    // from start to start, and not minute by minute
    while start < MINUTES_OF_A_DAY {
        put_starting(out, plan, day, start);
        start = next_start(plan, start + 1);
    }
}

// The lines of all day types, in bit order.
fn put_days(out: &mut Text, plan: Rows)
    ensures { Puts out.old (days_from plan.entry.numbers.now plan.entry.count 0 day_types) out.new }
{
    for day in 0..plan::DAY_TYPES {
        put_day(out, plan, day);
    }
}

fn put_timetable(out: &mut Text, site: Site)
    ensures { Puts out.old (timetable_of site) out.new }
{
    out.put(b"day start mode rate table filed\n");
    let plan = Rows {
        numbers: &site.plan,
        count: site.entries,
    };
    put_days(out, plan);
}

// What is printed of what reading gave.
#[tactic(auto, unfolding(crate::specs::Timetable::printed_of))]
fn put_printed(out: &mut Text, read: Result<Site, Misread>)
    ensures { Puts out.old (printed_of read) out.new }
{
    match read {
        Ok(site) => put_timetable(out, site),
        Err(misread) => phrases::put_refusal(out, misread.refusal.number(), misread.place),
    }
}

// The longest text: a heading of 32 bytes, and on each of 8 day types 9 lines of 25 bytes, in places 1
// to 9, and 7 of 26.
pub const LONGEST_TEXT: usize = 3288;

// Writes what is printed of a site file's bytes to the front of out: its timetable, or the line
// that says why it is refused and where. A buffer with room for the longest text is never refused.
pub fn print(file: &[u8], out: &mut [u8]) -> Written
    ensures answer { result ≡ answer_of None (text_of file.now) out.old }
    ensures buffer { out.new ≡ buffer_of None (text_of file.now) out.old }
    ensures room { longest_text ≤ length out.old → IsOk result }
{
    let read = site_reader::read(file);
    let mut nowhere = [0u8; 1];
    let mut measured = Text::new(&mut nowhere);
    put_printed(&mut measured, read);
    if out.len() < measured.end {
        return Err(Refusal::SmallBuffer);
    }
    let mut text = Text::new(out);
    put_printed(&mut text, read);
    Ok(text.end)
}

// The same in a buffer with room for the longest text: how many bytes it has.
pub fn print_whole(file: &[u8], out: &mut [u8; LONGEST_TEXT]) -> usize
    ensures count { result ≡ length (text_of file.now) }
    ensures buffer { out.new ≡ text_of file.now ++ drop (length (text_of file.now)) out.old }
{
    print(file, out).unwrap()
}
