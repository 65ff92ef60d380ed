// The printed lines. Each word of a line stands behind a blank but the first.
use bypass::Bypass;
use group::Group;
use lane_speeds::{KeptSpeeds, Reading, Speeds};
use lanes::Lanes;
use many_ticks::Ran;
use output::Written;
use period::{Counts, Periods};
use readings::Readings;
use refusals::Refusal;
use state::State;
use text::Text;
use tick::Ticked;
use wanted::Decision;

fn put_word(out: &mut Text, n: u16) {
    phrases::put_blank_and_decimal(out, n as u64);
}

fn put_long(out: &mut Text, n: u32) {
    phrases::put_blank_and_decimal(out, n as u64);
}

// The number of a refusal; 0 of none.
fn put_refusal(out: &mut Text, refusal: Option<Refusal>) {
    phrases::put_blank_and_decimal(out, tick_text::refusal_number(refusal) as u64);
}

fn put_flag(out: &mut Text, b: bool) {
    put_word(out, u16::from(b));
}

// Each of these, one behind the other.
fn put_each<T: Copy, F: Fn(&mut Text, T)>(out: &mut Text, values: &[T], put: F)
    requires { F.IsAlwaysCallable put }
{
    for value in values {
        put(out, *value);
    }
}

// States.

fn put_lanes(out: &mut Text, s: Lanes) {
    put_each(out, &s.colours, put_word);
    put_each(out, &s.ages, put_word);
    put_each(out, &s.counters, put_word);
    put_each(out, &s.passages, put_word);
    put_word(out, s.offset);
    put_word(out, s.last);
}

fn put_bypass(out: &mut Text, b: Bypass) {
    put_flag(out, b.kept);
    put_flag(out, b.mark);
    put_word(out, b.timer);
}

fn put_group(out: &mut Text, g: Group) {
    put_word(out, g.interval);
    put_word(out, g.age);
    put_lanes(out, g.lanes);
    put_bypass(out, g.bypass);
}

fn put_counts(out: &mut Text, c: Counts) {
    put_each(out, &c.passages, put_word);
    put_each(out, &c.greens, put_word);
    put_each(out, &c.worked, put_word);
    put_each(out, &c.vehicles, put_word);
    put_each(out, &c.occupied, put_word);
    put_each(out, &c.timed, put_word);
    put_each(out, &c.millis, put_long);
}

// A double as the 16 hexadecimal digits of its bits.
fn put_double(out: &mut Text, x: f64) {
    out.put_byte(b' ');
    tick_text::put_hex(out, &speed::bits_of(x).to_be_bytes());
}

fn put_speeds(out: &mut Text, s: Speeds) {
    put_double(out, s.latest);
    put_double(out, s.slowest);
}

fn put_kept_speeds(out: &mut Text, k: KeptSpeeds) {
    put_each(out, &k.current, put_speeds);
    put_each(out, &k.last, put_speeds);
    put_each(out, &k.earlier, put_double);
}

fn put_periods(out: &mut Text, p: Periods) {
    put_word(out, p.ticks);
    put_counts(out, p.current);
    put_long(out, p.serial);
    put_counts(out, p.last);
    put_kept_speeds(out, p.speeds);
}

fn put_state(out: &mut Text, s: State) {
    out.put(b"state");
    put_group(out, s.group);
    put_periods(out, s.periods);
    out.put_byte(b'\n');
}

pub fn state(s: State) {
    let mut buffer = io::buffer();
    let mut out = Text::new(&mut buffer);
    put_state(&mut out, s);
    test_output::print(out.whole());
}

// Ticks.

// A tick's line behind its number: the text, and 0 behind its end.
#[derive(Clone, Copy, PartialEq, Eq)]
pub struct Line {
    text: [u8; 128],
}

pub fn no_line() -> Line {
    Line { text: [0u8; 128] }
}

// Refusal, interval, all four lanes' lamps, what was decided, cycle, the lane released, and what
// the bus bypass does.
fn put_tick(out: &mut Text, t: Ticked) {
    put_refusal(out, t.refusal);
    put_word(out, t.state.group.interval);
    tick_text::put_lamps(out, t.shown, 4);
    tick_text::put_decision(out, t.decision);
    put_word(out, t.cycle);
    put_word(out, t.released);
    tick_text::put_bypass(out, t.bypass);
    out.put_byte(b'\n');
}

pub fn line_of(t: Ticked) -> Line {
    let mut line = no_line();
    put_tick(&mut Text::new(&mut line.text), t);
    line
}

// A line's text, whose bytes are none of them 0.
fn put_line(out: &mut Text, line: Line) {
    for byte in line.text {
        if byte != 0 {
            out.put_byte(byte);
        }
    }
}

pub fn ticked(number: u16, line: Line) {
    let mut buffer = io::buffer();
    let mut out = Text::new(&mut buffer);
    out.put_decimal(number as u64);
    put_line(&mut out, line);
    test_output::print(out.whole());
}

// The other calls.

pub fn powered(refusal: Option<Refusal>) {
    let mut buffer = io::buffer();
    let mut out = Text::new(&mut buffer);
    out.put(b"power");
    put_refusal(&mut out, refusal);
    out.put_byte(b'\n');
    test_output::print(out.whole());
}

// A call's word, its refusal, a count, and all of the buffer that it was lent.
fn print_buffer(word: &[u8], refusal: Option<Refusal>, count: usize, lent: &[u8]) {
    let mut buffer = io::large_buffer();
    let mut out = Text::new(&mut buffer);
    out.put(word);
    put_refusal(&mut out, refusal);
    phrases::put_blank_and_decimal(&mut out, count as u64);
    out.put_byte(b' ');
    tick_text::put_hex(&mut out, lent);
    out.put_byte(b'\n');
    test_output::print(out.whole());
}

// The count is of the bytes that were written.
pub fn polled(written: Written, buffer: &[u8]) {
    match written {
        Ok(count) => print_buffer(b"poll", None, count, buffer),
        Err(refusal) => print_buffer(b"poll", Some(refusal), 0, buffer),
    }
}

// The count is of the ticks that were accepted.
pub fn ran(ran: Ran, buffer: &[u8]) {
    print_buffer(b"records", ran.refusal, ran.accepted, buffer);
}

// The refusal, the decision given, and the cycle at so many vehicles per green.
pub fn decided(decided: Result<Decision, Refusal>, vehicles: u16) {
    let d = decide::decision_given(decided);
    let cycle = release::cycle_ticks(vehicles, wanted::rate_of(d.wish));
    let mut buffer = io::buffer();
    let mut out = Text::new(&mut buffer);
    out.put(b"decide");
    put_refusal(&mut out, decided.err());
    tick_text::put_decision(&mut out, d);
    put_long(&mut out, cycle);
    out.put_byte(b'\n');
    test_output::print(out.whole());
}

// The refusal, how many bytes were written, and whether those behind them are as they were.
pub fn written(w: Written, kept: bool) {
    let mut buffer = io::buffer();
    let mut out = Text::new(&mut buffer);
    out.put(b"write");
    test_output::put_written(&mut out, w, kept);
    out.put_byte(b'\n');
    test_output::print(out.whole());
}

// 0 absent, 1 measured, 2 carried over.
fn case_of(reading: Reading) -> u16 {
    match reading {
        Reading::Absent => 0,
        Reading::Measured(_) => 1,
        Reading::Carried(_) => 2,
    }
}

// Lane j's case, its speed, and the latest and the slowest speed.
fn put_reading(out: &mut Text, r: Readings, j: u16) {
    let l = readings::lane_in(r, j);
    put_word(out, case_of(l.reading));
    put_double(out, lane_speeds::speed_in(l.reading));
    put_speeds(out, l.speeds);
}

fn put_six_readings(out: &mut Text, r: Readings) {
    for j in 0..6 {
        put_reading(out, r, j);
    }
}

// The refusal, and all six lanes.
pub fn readings(r: Readings) {
    let mut buffer = io::buffer();
    let mut out = Text::new(&mut buffer);
    out.put(b"readings");
    put_refusal(&mut out, r.refusal);
    put_six_readings(&mut out, r);
    out.put_byte(b'\n');
    test_output::print(out.whole());
}
