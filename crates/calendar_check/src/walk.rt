// The walk's own rules of the calendar: the months' lengths are written out, and each weekday is
// counted as it comes by.

// The day type of a holiday.
pub const HOLIDAY: u16 = 7;

// A day as the walk came by it.
#[derive(Clone, Copy)]
pub struct Place {
    pub year: u16,
    pub month: u16,
    pub day: u16,
    // Sunday 0
    pub weekday: u16,
    // how many of its weekday the month has had, this one included
    pub seen: u16,
    // whether the month has no more of them
    pub last: bool,
}

// A holiday row.
#[derive(Clone, Copy)]
pub struct Row {
    pub kind: u16,
    pub month: u16,
    pub nth: u16,
    pub weekday: u16,
    // 1 for a fixed date that moves
    pub moves: u16,
}

pub fn next_weekday(weekday: u16) -> u16 {
    if weekday < 6 { weekday + 1 } else { 0 }
}

fn february_days(leap: bool) -> u16 {
    if leap { 29 } else { 28 }
}

pub fn month_days(month: u16, leap: bool) -> u16 {
    match month {
        2 => february_days(leap),
        4 | 6 | 9 | 11 => 30,
        _ => 31,
    }
}

// How often each weekday came by.
#[derive(Clone, Copy)]
pub struct Weekdays {
    pub times: [u16; 7],
}

pub fn no_weekdays() -> Weekdays {
    Weekdays { times: [0u16; 7] }
}

fn times(seen: Weekdays, weekday: u16) -> u16 {
    numbers::number_at(&seen.times, weekday as usize)
}

// One more of a weekday.
pub fn raised(seen: Weekdays, weekday: u16) -> Weekdays {
    let mut s = seen;
    let i = weekday as usize;
    if i < 7 {
        s.times[i] = s.times[i].wrapping_add(1);
    }
    s
}

// How often each weekday comes in a month of this length that begins with `first`.
pub fn month_weekdays(first: u16, length: u16) -> Weekdays {
    let mut seen = no_weekdays();
    let mut weekday = first;
    for _ in 0..length {
        seen = raised(seen, weekday);
        weekday = next_weekday(weekday);
    }
    seen
}

// The day of a month at which each weekday has been seen so often, of so often in all.
pub fn placed(
    year: u16,
    month: u16,
    day: u16,
    weekday: u16,
    seen: Weekdays,
    all: Weekdays,
) -> Place {
    let seen_now = times(seen, weekday);
    Place {
        year,
        month,
        day,
        weekday,
        seen: seen_now,
        last: seen_now == times(all, weekday),
    }
}

// Whether this is the row's month and day.
pub fn is_fixed(row: Row, place: Place) -> bool {
    if place.month != row.month {
        return false;
    }
    place.day == row.nth
}

// A fixed date that moves: never a Sunday, and on a Monday also yesterday's date.
fn is_moving(row: Row, today: Place, yesterday: Place) -> bool {
    match today.weekday {
        0 => false,
        1 => is_fixed(row, today) | is_fixed(row, yesterday),
        _ => is_fixed(row, today),
    }
}

// A fixed date, which moves or not.
fn is_dated(row: Row, today: Place, yesterday: Place) -> bool {
    if row.moves == 1 {
        return is_moving(row, today, yesterday);
    }
    is_fixed(row, today)
}

fn is_floating(row: Row, place: Place) -> bool {
    if place.month != row.month {
        return false;
    }
    if place.weekday != row.weekday {
        return false;
    }
    if place.seen == row.nth {
        return true;
    }
    if row.nth == 5 { place.last } else { false }
}

// Whether the row makes today a holiday.
pub fn names(row: Row, today: Place, yesterday: Place) -> bool {
    match row.kind {
        1 => is_dated(row, today, yesterday),
        2 => is_floating(row, today),
        3 => is_floating(row, yesterday),
        _ => false,
    }
}

// The day type that the row gives today.
pub fn due(row: Row, today: Place, yesterday: Place) -> u16 {
    if names(row, today, yesterday) {
        HOLIDAY
    } else {
        today.weekday
    }
}
