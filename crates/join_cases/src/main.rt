// Reads cases from standard input, each behind its length in two bytes: two plan lists as they come, each a
// count and 80 numbers; a year; how many holidays, and 80 numbers of their rows. Prints what joining answers,
// and both lists after it; where it is accepted, how many clocks of that year were asked for the entry in
// force, and a digest of these entries.
#![tactic(auto)]

mod year;

ghost use Rattle.std.specs.Prelude.{◌≤◌};

use joining::PlanList;
use text::Text;
use year::{Asked, Lists};

// The numbers of a list's rows; the holidays have as many.
const NUMBERS: usize = ranges::MOST_ENTRY_NUMBERS;

// Where a case's numbers stand.
const SECOND: usize = 1 + NUMBERS;

const YEAR: usize = 2 * SECOND;

const HOLIDAYS: usize = YEAR + 1;

const DATES: usize = HOLIDAYS + 1;

// So many numbers of a case, from number `at` on.
fn numbers_at(case: &[u8], at: usize) -> [u16; NUMBERS]
    requires { at ≤ 1000 }
{
    let mut rows = [0u16; NUMBERS];
    for (i, number) in rows.iter_mut().enumerate() {
        *number = numbers::word(case, at + i);
    }
    rows
}

fn list_at(case: &[u8], at: usize) -> PlanList
    requires { at ≤ 999 }
{
    let rows = numbers_at(case, at + 1);
    PlanList {
        rows,
        count: numbers::word(case, at),
    }
}

// A list's count and its numbers, to the end of the line.
fn put_list(out: &mut Text, list: PlanList) {
    phrases::put_blank_and_decimal(out, list.count as u64);
    for number in &list.rows {
        phrases::put_blank_and_decimal(out, *number as u64);
    }
    out.put_byte(b'\n');
}

fn put_asked(out: &mut Text, year: u16, asked: Asked) {
    out.put(b"year");
    phrases::put_blank_and_decimal(out, year as u64);
    out.put(b" checks");
    phrases::put_blank_and_decimal(out, asked.checks as u64);
    out.put(b" digest");
    phrases::put_blank_and_decimal(out, asked.digest as u64);
    out.put_byte(b'\n');
}

// The year that the case asks for, with the lists of an accepted join.
fn put_year(out: &mut Text, case: &[u8], joined: PlanList, first: PlanList, second: PlanList) {
    let year = numbers::word(case, YEAR);
    let dates = numbers_at(case, DATES);
    let asked = year::asked_in(
        year,
        &Lists {
            dates,
            holidays: numbers::word(case, HOLIDAYS),
            joined,
            first,
            second,
        },
    );
    put_asked(out, year, asked);
}

fn answer(case: &[u8]) {
    let first = list_at(case, 0);
    let second = list_at(case, SECOND);
    let answer = joining::join(first, second);
    let refusal = match answer {
        Ok(_) => 0,
        Err(refusal) => refusal.number(),
    };
    let mut buffer = io::buffer();
    let mut text = Text::new(&mut buffer);
    text.put(b"joined");
    phrases::put_blank_and_decimal(&mut text, refusal as u64);
    put_list(&mut text, joining::list_given(answer));
    text.put(b"first");
    put_list(&mut text, first);
    text.put(b"second");
    put_list(&mut text, second);
    if let Ok(list) = answer {
        put_year(&mut text, case, list, first, second);
    }
    test_output::print(text.whole());
}

fn main() {
    test_input::answer_all(&mut io::buffer(), answer);
}
