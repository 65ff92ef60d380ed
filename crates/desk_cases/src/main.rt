// Reads cases from standard input, each behind its length in two bytes: numbers, the first of which says what
// the case is. 0 is a fresh desk. 1 is the desk that is given: who is enrolled, 32 bits in two numbers, the
// high ones first; the turn; the tries. 2 enrols, 3 removes and 4 is a tick: four numbers are the cabinet or
// the answer, the highest first. One desk goes through all cases. Prints of each what it answers, and the
// desk after it: turn, tries and who is enrolled.
#![tactic(auto)]

use desk::{Changed, Desk, DeskTicked};
use refusals::Refusal;
use text::Text;

const BYTE: u16 = 256;

// 2^31: 32 bits hold twice what is below it.
const HALF: u64 = 2147483648;

// The kinds of a case; any other number is that of a tick.
const FRESH: u16 = 0;

const GIVEN: u16 = 1;

const ENROL: u16 = 2;

const REMOVE: u16 = 3;

fn byte_at(case: &[u8], i: usize) -> u8 {
    (numbers::word(case, i) % BYTE) as u8
}

// Cabinets `from` to `from` + 15 are enrolled by the bits of a number.
fn with_bits(all: [bool; 32], from: usize, number: u16) -> [bool; 32] {
    let mut enrolled = all;
    let mut bits = number;
    for i in from..32 {
        enrolled[i] = bits % 2 == 1;
        bits = bits / 2;
    }
    enrolled
}

fn given(case: &[u8]) -> Desk {
    let none = [false; 32];
    let low = with_bits(none, 0, numbers::word(case, 2));
    Desk {
        enrolled: with_bits(low, 16, numbers::word(case, 1)),
        turn: byte_at(case, 3),
        tries: byte_at(case, 4),
    }
}

// Who is enrolled, cabinet k as bit k.
fn mask(desk: Desk) -> u64 {
    let mut bits: u64 = 0;
    for enrolled in desk.enrolled.iter().rev() {
        bits = bits % HALF * 2;
        if *enrolled {
            bits += 1;
        }
    }
    bits
}

// The desk's numbers, to the end of the line.
fn put_desk(line: &mut Text, desk: Desk) {
    phrases::put_blank_and_decimal(line, desk.turn as u64);
    phrases::put_blank_and_decimal(line, desk.tries as u64);
    phrases::put_blank_and_decimal(line, mask(desk));
    line.put_byte(b'\n');
}

// A refusal's number; 0 where there is none.
fn number_of(refusal: Option<Refusal>) -> u8 {
    match refusal {
        Some(refusal) => refusal.number(),
        None => 0,
    }
}

fn put_call(line: &mut Text, name: &[u8], number: u64, refusal: Option<Refusal>) {
    line.put(name);
    phrases::put_blank_and_decimal(line, number);
    phrases::put_blank_and_decimal(line, number_of(refusal) as u64);
}

fn put_polled(line: &mut Text, polled: Option<u8>) {
    match polled {
        None => line.put(b" nobody"),
        Some(k) => phrases::put_blank_and_decimal(line, k as u64),
    }
}

fn print_start(name: &[u8], desk: Desk) -> Desk {
    let mut buffer = io::buffer();
    let mut line = Text::new(&mut buffer);
    line.put(name);
    put_desk(&mut line, desk);
    test_output::print(line.whole());
    desk
}

fn print_changed(name: &[u8], cabinet: u64, changed: Changed) -> Desk {
    let mut buffer = io::buffer();
    let mut line = Text::new(&mut buffer);
    put_call(&mut line, name, cabinet, changed.refusal);
    put_desk(&mut line, changed.desk);
    test_output::print(line.whole());
    changed.desk
}

fn print_ticked(answer: u64, ticked: DeskTicked) -> Desk {
    let mut buffer = io::buffer();
    let mut line = Text::new(&mut buffer);
    put_call(&mut line, b"tick", answer, ticked.refusal);
    put_polled(&mut line, ticked.polled);
    put_desk(&mut line, ticked.desk);
    test_output::print(line.whole());
    ticked.desk
}

// What a case answers, and the desk after it.
fn answer(desk: Desk, case: &[u8]) -> Desk {
    let kind = numbers::word(case, 0);
    if kind == FRESH {
        return print_start(b"fresh", desk::fresh());
    }
    if kind == GIVEN {
        return print_start(b"desk", given(case));
    }
    let number = test_input::long_at(case, 1);
    if kind == ENROL {
        return print_changed(b"enrol", number, desk::enrol(desk, number));
    }
    if kind == REMOVE {
        return print_changed(b"remove", number, desk::remove(desk, number));
    }
    print_ticked(number, desk::tick(desk, number))
}

fn main() {
    let mut desk = desk::fresh();
    let mut buffer = io::buffer();
    for _ in 0..u64::MAX {
        match test_input::next_case(&mut buffer) {
            Some(case) => desk = answer(desk, case),
            None => return,
        }
    }
}
