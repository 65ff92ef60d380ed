// Checks the calendar on every day from 1 January 2000 to 31 December 2099 against a walk from day
// to day, and prints how many answers of each sort were compared, and how many were Holiday.
#![tactic(auto)]

mod tally;
mod walk;

use calendar::Date;
use numbers::Rows;
use tally::Tally;
use walk::{Place, Row};

// Twelve months with five weeks of seven weekdays; of fixed rows, with days 1 to 35.
const ROWS: u16 = 420;

// A site's holidays are 0 to 16.
const COUNTS: u16 = 17;

// Twelve holidays of all kinds; 1 January, 31 March and 29 February, the last, move.
const LIST: [u16; 60] = [
    1, 1, 1, 0, 1, 2, 1, 3, 1, 0, 2, 2, 3, 1, 0, 1, 3, 31, 0, 1, 2, 5, 5, 1, 0, 1, 7, 4, 0, 0, 2,
    9, 1, 1, 0, 1, 11, 11, 0, 0, 2, 11, 4, 4, 0, 3, 11, 4, 4, 0, 1, 12, 25, 0, 0, 1, 2, 29, 0, 1,
];

// Where the walk stands before a day.
#[derive(Clone, Copy)]
struct Stand {
    weekday: u16,
    yesterday: Place,
    tally: Tally,
}

// Row k of this kind.
fn row_of(kind: u16, moves: u16, k: u16) -> Row {
    let (nth, weekday) = if kind == 1 {
        (k % 35 + 1, 0)
    } else {
        (k / 7 % 5 + 1, k % 7)
    };
    Row {
        kind,
        month: k / 35 + 1,
        nth,
        weekday,
        moves,
    }
}

fn list_row(list: &[u16], i: u16) -> Row {
    let at = (i as usize) * 5;
    Row {
        kind: numbers::number_at(list, at),
        month: numbers::number_at(list, at + 1),
        nth: numbers::number_at(list, at + 2),
        weekday: numbers::number_at(list, at + 3),
        moves: numbers::number_at(list, at + 4),
    }
}

// The calendar's answer with this row alone.
fn day_type(date: Date, row: Row) -> u16 {
    let rows = [row.kind, row.month, row.nth, row.weekday, row.moves];
    let alone = Rows {
        numbers: &rows,
        count: 1,
    };
    calendar::day_type(date, alone)
}

// Whether there is such a date.
fn check_date(date: Date, due: u16, tally: Tally) -> Tally {
    let mut t = tally::compared(tally, date, u16::from(calendar::is_date(date)), due);
    t.dates = tally::one_more(t.dates);
    t
}

// The day type of no such date, with a row that would name it.
fn check_no_day(date: Date, moves: u16, tally: Tally) -> Tally {
    let row = Row {
        kind: 1,
        month: date.month,
        nth: date.day,
        weekday: 0,
        moves,
    };
    tally::compared(tally, date, day_type(date, row), calendar::NO_DAY)
}

// No such date; a row that would name it changes nothing, whether it moves or not.
fn check_no_date(year: u16, month: u16, day: u16, tally: Tally) -> Tally {
    let date = Date { year, month, day };
    let fixed = check_no_day(date, 0, tally);
    let moving = check_no_day(date, 1, fixed);
    check_date(date, 0, moving)
}

// Without holidays.
fn check_plain(date: Date, today: Place, tally: Tally) -> Tally {
    let none = Rows {
        numbers: &[],
        count: 0,
    };
    let came = calendar::day_type(date, none);
    let mut t = tally::compared(tally, date, came, today.weekday);
    t.plain = tally::one_more(t.plain);
    t
}

// With this row alone.
fn check_row(date: Date, today: Place, yesterday: Place, row: Row, tally: Tally) -> Tally {
    let came = day_type(date, row);
    let t = tally::compared(tally, date, came, walk::due(row, today, yesterday));
    let named = came == calendar::HOLIDAY;
    if row.moves == 1 {
        return tally::counted_moving(t, named, named & !walk::is_fixed(row, today));
    }
    tally::counted(t, row.kind, named)
}

// With one row of this kind, each in turn.
fn check_rows(
    date: Date,
    today: Place,
    yesterday: Place,
    kind: u16,
    moves: u16,
    tally: Tally,
) -> Tally {
    let mut t = tally;
    for k in 0..ROWS {
        t = check_row(date, today, yesterday, row_of(kind, moves, k), t);
    }
    t
}

// With the list, at each count; beyond its end there is no more holiday.
fn check_lists(date: Date, today: Place, yesterday: Place, tally: Tally) -> Tally {
    let list = LIST;
    let mut t = tally;
    let mut due = today.weekday;
    for count in 0..COUNTS {
        let rows = Rows {
            numbers: &list,
            count,
        };
        let came = calendar::day_type(date, rows);
        t = tally::compared(t, date, came, due);
        t.lists = tally::one_answer(t.lists, came == calendar::HOLIDAY);
        if walk::names(list_row(&list, count), today, yesterday) {
            due = walk::HOLIDAY;
        }
    }
    t
}

// The day before is the one that the walk came by last.
fn check_before(date: Date, yesterday: Place, tally: Tally) -> Tally {
    let came = calendar::day_before(date);
    let year = tally::compared(tally, date, came.year, yesterday.year);
    let month = tally::compared(year, date, came.month, yesterday.month);
    let mut t = tally::compared(month, date, came.day, yesterday.day);
    t.before = tally::one_more(t.before);
    t
}

fn check_day(date: Date, today: Place, yesterday: Place, tally: Tally) -> Tally {
    let dated = check_date(date, 1, tally);
    let before = check_before(date, yesterday, dated);
    let plain = check_plain(date, today, before);
    let fixed = check_rows(date, today, yesterday, 1, 0, plain);
    let moving = check_rows(date, today, yesterday, 1, 1, fixed);
    let floating = check_rows(date, today, yesterday, 2, 0, moving);
    let after = check_rows(date, today, yesterday, 3, 0, floating);
    check_lists(date, today, yesterday, after)
}

// Checks today and goes on to the next day.
fn past_day(today: Place, stand: Stand) -> Stand {
    let date = Date {
        year: today.year,
        month: today.month,
        day: today.day,
    };
    Stand {
        weekday: walk::next_weekday(stand.weekday),
        yesterday: today,
        tally: check_day(date, today, stand.yesterday, stand.tally),
    }
}

// A month's days.
fn past_days(year: u16, month: u16, length: u16, stand: Stand) -> Stand {
    let all = walk::month_weekdays(stand.weekday, length);
    let mut seen = walk::no_weekdays();
    let mut s = stand;
    for day in 1..=length {
        seen = walk::raised(seen, s.weekday);
        let today = walk::placed(year, month, day, s.weekday, seen, all);
        s = past_day(today, s);
    }
    s
}

// A month's days, and days that it does not have.
fn past_month(year: u16, month: u16, leap: bool, stand: Stand) -> Stand {
    let length = walk::month_days(month, leap);
    let mut s = past_days(year, month, length, stand);
    let zero = check_no_date(year, month, 0, s.tally);
    let too_far = check_no_date(year, month, length.wrapping_add(1), zero);
    s.tally = check_no_date(year, month, 65535, too_far);
    s
}

// A year's months, and months that it does not have.
fn past_year(year: u16, leap: bool, stand: Stand) -> Stand {
    let mut s = stand;
    for month in 1..=12 {
        s = past_month(year, month, leap, s);
    }
    let zero = check_no_date(year, 0, 1, s.tally);
    let too_far = check_no_date(year, 13, 1, zero);
    s.tally = check_no_date(year, 65535, 1, too_far);
    s
}

// A year that has no dates.
fn check_no_year(year: u16, tally: Tally) -> Tally {
    let mut t = tally;
    for k in 0..ROWS {
        t = check_no_date(year, k / 35 + 1, k % 35 + 1, t);
    }
    t
}

// The years from 2000 to 2099; 2000 is leap, and then every fourth.
fn check_years(stand: Stand) -> Tally {
    let mut s = stand;
    let mut since_leap: u16 = 0;
    for year in 2000..=2099 {
        s = past_year(year, since_leap == 0, s);
        since_leap = if since_leap < 3 { since_leap + 1 } else { 0 };
    }
    s.tally
}

fn main() {
    // 1 January 2000 is a Saturday; the day before is the fifth and last Friday of its month.
    let first = Stand {
        weekday: 6,
        yesterday: Place {
            year: 1999,
            month: 12,
            day: 31,
            weekday: 5,
            seen: 5,
            last: true,
        },
        tally: tally::new(),
    };
    let walked = check_years(first);
    let zero = check_no_year(0, walked);
    let early = check_no_year(1999, zero);
    let late = check_no_year(2100, early);
    tally::print(check_no_year(65535, late));
}
