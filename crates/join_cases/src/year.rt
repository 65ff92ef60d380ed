// The entries in force in a year: on each date at the day's first and last minute, and at each start of two
// lists and the minute before it.
use calendar::Date;
use joining::PlanList;
use numbers::Rows;
use plan::Entry;

// By then every entry of a day has begun.
const LAST_MINUTE: u16 = 1439;

// How many clocks were asked, and a digest of the entries in force there.
#[derive(Clone, Copy)]
pub struct Asked {
    pub checks: u32,
    pub digest: u32,
}

// What is asked: a site's holidays, and the joined list beside the two that it is made of.
#[derive(Clone, Copy)]
pub struct Lists {
    pub dates: [u16; ranges::MOST_HOLIDAY_NUMBERS],
    pub holidays: u16,
    pub joined: PlanList,
    pub first: PlanList,
    pub second: PlanList,
}

fn no_entry() -> Entry {
    Entry {
        days: 0,
        start: 0,
        mode: 0,
        rate: 0,
        table: 0,
    }
}

// With one entry more, or none where `there` is 0.
fn with_entry(asked: Asked, there: u16, e: Entry) -> Asked {
    let a = test_output::digested(asked.digest, there);
    let b = test_output::digested(a, e.days);
    let c = test_output::digested(b, e.start);
    let d = test_output::digested(c, e.mode);
    let f = test_output::digested(d, e.rate);
    Asked {
        checks: std::num::wrapping_add_u32(asked.checks, 1),
        digest: test_output::digested(f, e.table),
    }
}

fn with_place(asked: Asked, rows: &[u16], place: u16) -> Asked {
    if place == 0 {
        return with_entry(asked, 0, no_entry());
    }
    with_entry(asked, 1, plan::entry_at(rows, place - 1))
}

// The entry of the joined list that is in force on a date at a minute.
fn ask(asked: Asked, lists: &Lists, today: Date, minute: u16) -> Asked {
    let joined = &lists.joined;
    let found = plan::day_and_entry(
        Rows {
            numbers: &joined.rows,
            count: joined.count,
        },
        Rows {
            numbers: &lists.dates,
            count: lists.holidays,
        },
        today,
        minute,
    );
    with_place(asked, &joined.rows, found.entry)
}

fn minute_before(minute: u16) -> u16 {
    minute.checked_sub(1).unwrap_or(LAST_MINUTE)
}

// At each start of a list, and the minute before it.
fn ask_at_starts(before: Asked, lists: &Lists, today: Date, starts: &PlanList) -> Asked {
    let mut asked = before;
    for i in 0..starts.count {
        let start = plan::entry_at(&starts.rows, i).start;
        asked = ask(asked, lists, today, start);
        asked = ask(asked, lists, today, minute_before(start));
    }
    asked
}

// On a date, if there is such a one.
fn ask_on(asked: Asked, lists: &Lists, today: Date) -> Asked {
    if !calendar::is_date(today) {
        return asked;
    }
    let a = ask(asked, lists, today, 0);
    let b = ask(a, lists, today, LAST_MINUTE);
    let c = ask_at_starts(b, lists, today, &lists.first);
    ask_at_starts(c, lists, today, &lists.second)
}

// On every date of a year.
pub fn asked_in(year: u16, lists: &Lists) -> Asked {
    let mut asked = Asked {
        checks: 0,
        digest: 0,
    };
    for month in 1..13 {
        for day in 1..32 {
            asked = ask_on(asked, lists, Date { year, month, day });
        }
    }
    asked
}
