// The day type of a date: its weekday, or Holiday.
#![tactic(auto)]

mod clock;
mod day;

ghost use Rattle.std.specs.Prelude.{◌≡◌, true};
ghost use Rattle.calendar.specs.Dates.{is_date};
ghost use Rattle.calendar.specs.Holidays.{row_of, is_fixed, is_moving, in_week, is_named, is_holiday, day_type_of};
ghost use Rattle.calendar.specs.Named.{Typed};

pub use clock::{Clock, LAST_TENTH, clock_bad};
use day::Day;
pub use day::{Date, MONTHS, YEARS, day_before, days, is_date};
use numbers::Rows;

// The day type of a holiday; those of the other days are their weekdays, 0 Sunday to 6 Saturday.
pub const HOLIDAY: u16 = 7;

// What stands for the day type where there is no such date.
pub const NO_DAY: u16 = 8;

// The three kinds of holidays, as numbers: a site record may come with any, and `day_type` answers at each.
const FIXED: u16 = 1;

const FLOATING: u16 = 2;

const DAY_AFTER: u16 = 3;

// The fifth number of a fixed date that moves to the next day when it is a Sunday.
const MOVING: u16 = 1;

const SUNDAY: u16 = 0;

// Week 5 means the final such weekday.
const FINAL_WEEK: u16 = 5;

// One holiday of the site file.
#[derive(Clone, Copy)]
struct Row {
    // 1 fixed, 2 floating, 3 the day after a floating one
    kind: u16,
    month: u16,
    // the day of the month, or the week
    nth: u16,
    weekday: u16,
    // 1 for a fixed date that moves to the next day when it is a Sunday
    moves: u16,
}

// Holiday i of a site's rows, the first being 0.
fn row_at(rows: &[u16], i: u16) -> Row
    ensures { result ≡ row_of rows.now i }
{
    let at = (i as usize) * ranges::HOLIDAY_WIDTH;
    // one look at the length for a row that is there whole
    if at + 4 < rows.len() {
        return Row {
            kind: rows[at],
            month: rows[at + 1],
            nth: rows[at + 2],
            weekday: rows[at + 3],
            moves: rows[at + 4],
        };
    }
    Row {
        kind: numbers::number_at(rows, at),
        month: numbers::number_at(rows, at + 1),
        nth: numbers::number_at(rows, at + 2),
        weekday: numbers::number_at(rows, at + 3),
        moves: numbers::number_at(rows, at + 4),
    }
}

// Whether the row's month and day are this day's.
fn is_fixed(day: Day, row: Row) -> bool
    ensures { result ≡ is_fixed day row }
{
    if day.month != row.month {
        return false;
    }
    day.day == row.nth
}

// Whether the row's date is today and no Sunday, or was yesterday and a Sunday.
fn is_moving(today: Day, yesterday: Day, row: Row) -> bool
    ensures { result ≡ is_moving today yesterday row }
{
    let itself = is_fixed(today, row);
    let day_after = is_fixed(yesterday, row);
    (itself & (today.weekday != SUNDAY)) | (day_after & (yesterday.weekday == SUNDAY))
}

// Whether the row's month and week are this day's.
fn in_week(day: Day, row: Row) -> bool
    ensures { result ≡ in_week day row }
{
    if day.month != row.month {
        return false;
    }
    if row.nth == FINAL_WEEK {
        return day.last;
    }
    day.week == row.nth
}

// Whether the row makes today a holiday.
fn is_named(today: Day, yesterday: Day, row: Row) -> bool
    ensures { result ≡ is_named today yesterday row }
{
    if row.kind == FIXED {
        if row.moves == MOVING {
            return is_moving(today, yesterday, row);
        }
        return is_fixed(today, row);
    }
    if row.kind == FLOATING {
        if today.weekday != row.weekday {
            return false;
        }
        return in_week(today, row);
    }
    if row.kind == DAY_AFTER {
        if yesterday.weekday != row.weekday {
            return false;
        }
        return in_week(yesterday, row);
    }
    false
}

// Whether one of the rows that count names today.
fn is_holiday(today: Day, yesterday: Day, holidays: Rows) -> bool
    ensures { result ≡ is_holiday today yesterday holidays.entry.numbers.now holidays.entry.count }
{
    (0..holidays.count).any(|i| is_named(today, yesterday, row_at(holidays.numbers, i)))
}

// The day type of a date at a site with these holidays.
pub fn day_type(date: Date, holidays: Rows) -> u16
    ensures is { result ≡ day_type_of date holidays.entry.numbers.now holidays.entry.count }
    ensures named { is_date date ≡ true → Typed date holidays.entry.numbers.now holidays.entry.count result }
{
    if !is_date(date) {
        return NO_DAY;
    }
    let weekday = day::weekday(date);
    let today = day::in_month(date, weekday);
    let yesterday = day::yesterday(date, weekday);
    if is_holiday(today, yesterday, holidays) {
        return HOLIDAY;
    }
    weekday
}
