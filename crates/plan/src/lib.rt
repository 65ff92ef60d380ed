// The plan's entries.
#![tactic(auto)]

mod today;

ghost use Rattle.std.specs.Prelude.{◌≡◌};
ghost use Rattle.plan.specs.Entry.{entry_of, on_day};
ghost use Rattle.plan.specs.InForce.{applies, takes_over, in_force_of, InForce};

use numbers::Rows;
pub use today::{DayAndEntry, day_and_entry};

// One time-of-day entry.
#[derive(Clone, Copy)]
pub struct Entry {
    // bit 0 Sunday to bit 6 Saturday, bit 7 Holiday
    pub days: u16,
    // the minute of the day
    pub start: u16,
    // 0 dark, 1 green, 2 fixed, 3 responsive
    pub mode: u16,
    // vehicles an hour per lane
    pub rate: u16,
    // the level table
    pub table: u16,
}

// Sunday to Saturday, and Holiday.
pub const DAY_TYPES: u16 = 8;

// Entry i of a plan's rows, the first being 0; all 0 where there is none.
pub fn entry_at(rows: &[u16], i: u16) -> Entry
    ensures { result ≡ entry_of rows.now i }
{
    let at = (i as usize) * ranges::ENTRY_WIDTH;
    Entry {
        days: numbers::number_at(rows, at),
        start: numbers::number_at(rows, at + 1),
        mode: numbers::number_at(rows, at + 2),
        rate: numbers::number_at(rows, at + 3),
        table: numbers::number_at(rows, at + 4),
    }
}

// Whether a day mask has this day type, 0 Sunday to 6 Saturday and 7 Holiday.
pub fn on_day(days: u16, day: u16) -> bool
    ensures { result ≡ on_day days day }
{
    if DAY_TYPES <= day {
        return false;
    }
    (days >> day) & 1 == 1
}

// Whether an entry is of this day type and has started by this minute.
fn applies(e: Entry, day: u16, minute: u16) -> bool
    ensures { result ≡ applies e day minute }
{
    if !on_day(e.days, day) {
        return false;
    }
    e.start <= minute
}

// Whether an entry applies and starts no earlier than the one in force so far, if there is one.
fn takes_over(e: Entry, day: u16, minute: u16, best: u16, start: u16) -> bool
    ensures { result ≡ takes_over e day minute best start }
{
    if !applies(e, day, minute) {
        return false;
    }
    if best == 0 {
        return true;
    }
    start <= e.start
}

// The place from 1 of the entry in force on a day type at a minute; 0 for none. It is the one of the latest start among those that
// apply, and among equal starts the last filed.
pub fn in_force(plan: Rows, day: u16, minute: u16) -> u16
    ensures is { result ≡ in_force_of plan.entry.numbers.now plan.entry.count day minute }
    ensures latest { InForce plan.entry.numbers.now plan.entry.count day minute result }
{
    let mut best: u16 = 0;
    let mut start: u16 = 0;
    for i in 0..plan.count {
        let e = entry_at(plan.numbers, i);
        if takes_over(e, day, minute, best, start) {
            best = i + 1;
            start = e.start;
        }
    }
    best
}
