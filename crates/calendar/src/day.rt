// Dates from 2000 to 2099, their weekdays, and their places in the month.
ghost use Rattle.std.specs.Prelude.{◌≡◌, true, ◌≤◌, ◌-◌};
ghost use Rattle.calendar.specs.Dates.{days_before, month_length, days_of, is_date, last_of, day_before, day_number, weekday_of};
ghost use Rattle.calendar.specs.Days.{in_month, yesterday_of};

use numbers::Range;

#[derive(Clone, Copy, PartialEq, Eq)]
pub struct Date {
    pub year: u16,
    pub month: u16,
    pub day: u16,
}

// A day in its month.
#[derive(Clone, Copy)]
pub struct Day {
    pub month: u16,
    pub day: u16,
    // Sunday 0
    pub weekday: u16,
    // 1 for the month's first such weekday, and so on
    pub week: u16,
    // whether it is the month's final such weekday
    pub last: bool,
}

const FIRST_YEAR: u16 = 2000;

const DECEMBER: u16 = 12;

pub const YEARS: Range = Range {
    low: FIRST_YEAR,
    high: 2099,
};

pub const MONTHS: Range = Range {
    low: 1,
    high: DECEMBER,
};

const WEEK: u16 = 7;

const YEAR: u16 = 365;

// Every fourth year from 2000 is leap.
const LEAP_EVERY: u16 = 4;

// 1 January 2000 is a Saturday.
const FIRST_WEEKDAY: u16 = 6;

// Days of a year that is not leap before each of its months, and before its end.
const DAYS_BEFORE: [u16; 13] = [0, 31, 59, 90, 120, 151, 181, 212, 243, 273, 304, 334, 365];

// Days of the year before this month, the thirteenth being the next January.
fn days_before(year: u16, month: u16) -> u16
    requires { (1 ≤ month) × (month ≤ 13) }
    ensures { result ≡ days_before year month }
{
    let i = (month - 1) as usize;
    let days = DAYS_BEFORE[i];
    if year % LEAP_EVERY != 0 {
        return days;
    }
    if month <= 2 {
        return days;
    }
    days + 1
}

fn month_length(year: u16, month: u16) -> u16
    requires { (1 ≤ month) × (month ≤ 12) }
    ensures { result ≡ month_length year month }
{
    days_before(year, month + 1) - days_before(year, month)
}

// The days of a month; a month that there is not has none.
pub fn days(year: u16, month: u16) -> Range
    ensures { result ≡ days_of year month }
{
    if !numbers::within(MONTHS, month) {
        return Range { low: 1, high: 0 };
    }
    Range {
        low: 1,
        high: month_length(year, month),
    }
}

// Whether there is such a date.
pub fn is_date(date: Date) -> bool
    ensures { result ≡ is_date date }
{
    if !numbers::within(YEARS, date.year) {
        return false;
    }
    if !numbers::within(MONTHS, date.month) {
        return false;
    }
    numbers::within(days(date.year, date.month), date.day)
}

// The last day of a month.
fn last_of(year: u16, month: u16) -> Date
    ensures { result ≡ last_of year month }
{
    Date {
        year,
        month,
        day: days(year, month).high,
    }
}

// The day before; that of 1 January 2000 is 31 December 1999, which is no date.
pub fn day_before(date: Date) -> Date
    ensures { result ≡ day_before date }
{
    if 1 < date.day {
        return Date {
            year: date.year,
            month: date.month,
            day: date.day - 1,
        };
    }
    if 1 < date.month {
        return last_of(date.year, date.month - 1);
    }
    last_of(date.year.saturating_sub(1), DECEMBER)
}

// Days from 1 January 2000.
fn day_number(date: Date) -> u16
    requires { is_date date ≡ true }
    ensures { result ≡ day_number date }
{
    let years = date.year - FIRST_YEAR;
    years * YEAR + (years + 3) / LEAP_EVERY + days_before(date.year, date.month) + (date.day - 1)
}

// Sunday 0 to Saturday 6.
pub fn weekday(date: Date) -> u16
    requires { is_date date ≡ true }
    ensures { result ≡ weekday_of date }
{
    (day_number(date) + FIRST_WEEKDAY) % WEEK
}

// A date of this weekday in its month.
pub fn in_month(date: Date, weekday: u16) -> Day
    requires { (1 ≤ date.month) × (date.month ≤ 12) × (date.day ≤ 31) }
    ensures { result ≡ in_month date weekday }
{
    Day {
        month: date.month,
        day: date.day,
        weekday,
        week: (date.day + 6) / WEEK,
        last: month_length(date.year, date.month) < date.day + WEEK,
    }
}

// The day before a date, in its month; the weekday is the date's.
pub fn yesterday(date: Date, weekday: u16) -> Day
    requires { (is_date date ≡ true) × (weekday ≡ weekday_of date) }
    ensures { result ≡ yesterday_of date }
{
    in_month(day_before(date), (weekday + 6) % WEEK)
}
