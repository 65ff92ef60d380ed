// What was compared, and the first answer that differed.
use calendar::Date;
use streams::STDOUT_FILENO;

// Day types, and how many of them were Holiday.
#[derive(Clone, Copy)]
pub struct Answers {
    pub all: u64,
    pub holidays: u64,
}

#[derive(Clone, Copy)]
pub struct Tally {
    // answers to whether there is such a date
    pub dates: u64,
    // days before
    pub before: u64,
    // day types without holidays
    pub plain: u64,
    // with one row of a fixed date that does not move, or does
    pub fixed: Answers,
    pub moving: Answers,
    // holidays of the latter on the day after their date
    pub moved: u64,
    // with one floating or day after row, with a list of rows
    pub floating: Answers,
    pub after: Answers,
    pub lists: Answers,
    pub differences: u64,
    // the date of the first difference, the answer that came, and the one that was due
    pub first: Date,
    pub came: u16,
    pub due: u16,
}

pub fn new() -> Tally {
    let none = Answers {
        all: 0,
        holidays: 0,
    };
    Tally {
        dates: 0,
        before: 0,
        plain: 0,
        fixed: none,
        moving: none,
        moved: 0,
        floating: none,
        after: none,
        lists: none,
        differences: 0,
        first: Date {
            year: 0,
            month: 0,
            day: 0,
        },
        came: 0,
        due: 0,
    }
}

pub fn one_more(count: u64) -> u64 {
    count.wrapping_add(1)
}

// One more day type, which is Holiday or not.
pub fn one_answer(answers: Answers, holiday: bool) -> Answers {
    let mut a = answers;
    a.all = one_more(a.all);
    if holiday {
        a.holidays = one_more(a.holidays);
    }
    a
}

// The tally after one more answer on a date.
pub fn compared(tally: Tally, date: Date, came: u16, due: u16) -> Tally {
    if came == due {
        return tally;
    }
    let mut t = tally;
    if t.differences == 0 {
        t.first = date;
        t.came = came;
        t.due = due;
    }
    t.differences = one_more(t.differences);
    t
}

// The tally after one more day type with a row of this kind that does not move.
pub fn counted(tally: Tally, kind: u16, holiday: bool) -> Tally {
    let mut t = tally;
    match kind {
        1 => t.fixed = one_answer(t.fixed, holiday),
        2 => t.floating = one_answer(t.floating, holiday),
        _ => t.after = one_answer(t.after, holiday),
    }
    t
}

// The same with a row of a date that moves; the holiday is on the day after or not.
pub fn counted_moving(tally: Tally, holiday: bool, moved: bool) -> Tally {
    let mut t = tally;
    t.moving = one_answer(t.moving, holiday);
    if moved {
        t.moved = one_more(t.moved);
    }
    t
}

fn print_count(count: u64, of: &[u8]) {
    io::print_decimal(STDOUT_FILENO, count);
    io::write_all(STDOUT_FILENO, of);
}

// How many answers of each sort were compared.
fn print_answers(tally: Tally) {
    print_count(tally.dates, b" dates, ");
    print_count(tally.before, b" days before, ");
    print_count(tally.plain, b" weekdays, ");
    print_count(tally.fixed.all, b" fixed, ");
    print_count(tally.moving.all, b" moving, ");
    print_count(tally.floating.all, b" floating, ");
    print_count(tally.after.all, b" day after, ");
    print_count(tally.lists.all, b" lists: ");
    print_count(tally.differences, b" differences\n");
}

// How many of them were Holiday.
fn print_holidays(tally: Tally) {
    io::write_all(STDOUT_FILENO, b"holidays: ");
    print_count(tally.fixed.holidays, b" fixed, ");
    print_count(tally.moving.holidays, b" moving, of them ");
    print_count(tally.moved, b" moved, ");
    print_count(tally.floating.holidays, b" floating, ");
    print_count(tally.after.holidays, b" day after, ");
    print_count(tally.lists.holidays, b" lists\n");
}

// The first difference.
fn print_first(date: Date, came: u16, due: u16) {
    print_count(date.year as u64, b"-");
    print_count(date.month as u64, b"-");
    print_count(date.day as u64, b": ");
    print_count(came as u64, b" came, due ");
    print_count(due as u64, b"\n");
}

pub fn print(tally: Tally) {
    print_answers(tally);
    print_holidays(tally);
    if tally.differences != 0 {
        print_first(tally.first, tally.came, tally.due);
    }
}
