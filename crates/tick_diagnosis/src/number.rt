// The numbers of a tick's input with their ranges, and the first that is out of range.
ghost use Rattle.std.specs.Prelude.{◌≡◌, ◌<◌, not, ℕ, Option};
ghost use Rattle.numbers.specs.Within.{between, is_within};
ghost use Rattle.inputs.specs.Samples.{metered_sample_of, lane_sample_of};
ghost use Rattle.tick_diagnosis.specs.declared.number.Number.{Number};
ghost use Rattle.tick_diagnosis.specs.Numbers.{number_of, first_from, in_clock, in_metered, in_mainline, in_calls, mode_of, in_command, in_lanes, first_bad};

use calendar::Clock;
use inputs::{Calls, Command, LaneSample, Mainline, Metered, MeteredSample};
use numbers::Range;
use tick::Input;
use timings::Shape;

// Whose number it is; lanes from 0.
#[derive(Clone, Copy)]
pub enum Part {
    TheClock,
    MeteredLane(u16),
    MainlineLane(u16),
    TheCalls,
    Manual,
    Communications,
}

// A number out of range: its part, its column there, and its range, both ends included.
#[derive(Clone, Copy)]
pub struct Number {
    pub part: Part,
    pub column: usize,
    pub value: u64,
    pub low: u64,
    pub high: u64,
}

// 0 or 1.
const FLAGS: Range = Range { low: 0, high: 1 };

const OCCUPANCIES: Range = Range {
    low: 0,
    high: inputs::MOST_OCCUPIED,
};

const TIMES: Range = Range {
    low: 0,
    high: inputs::MOST_TIME,
};

const KINDS: Range = Range {
    low: 0,
    high: inputs::RESPONSIVE,
};

// Whether a number is below or above its range.
fn outside(x: u64, low: u64, high: u64) -> bool
    ensures { result ≡ not (is_within (between low high) x) }
{
    x < low || high < x
}

// A number, if it is out of its range. The tenth of the day takes more than two bytes.
fn long_number(part: Part, column: usize, x: u64, low: u64, high: u64) -> Option<Number>
    ensures { result ≡ number_of part column x (between low high) }
{
    if outside(x, low, high) {
        return Some(Number {
            part,
            column,
            value: x,
            low,
            high,
        });
    }
    None
}

// The same of two bytes.
fn number_of(part: Part, column: usize, x: u16, range: Range) -> Option<Number>
    ensures { result ≡ number_of part column x range }
{
    long_number(part, column, x as u64, range.low as u64, range.high as u64)
}

// Of a part's numbers the first that is out of range, if one is.
fn in_clock(clock: Clock) -> Option<Number>
    ensures { result ≡ in_clock clock }
{
    let date = clock.date;
    let year = number_of(Part::TheClock, 0, date.year, calendar::YEARS);
    let month = number_of(Part::TheClock, 1, date.month, calendar::MONTHS);
    let days = calendar::days(date.year, date.month);
    let day = number_of(Part::TheClock, 2, date.day, days);
    let last = calendar::LAST_TENTH as u64;
    let tenth = long_number(Part::TheClock, 3, clock.tenth as u64, 0, last);
    year.or(month.or(day.or(tenth)))
}

fn in_metered(i: u16, s: MeteredSample) -> Option<Number>
    ensures { result ≡ in_metered i s }
{
    let demand = number_of(Part::MeteredLane(i), 0, s.demand, FLAGS);
    let passage = number_of(Part::MeteredLane(i), 1, s.passage, FLAGS);
    demand.or(passage)
}

fn in_mainline(j: u16, s: LaneSample) -> Option<Number>
    ensures { result ≡ in_mainline j s }
{
    let working = number_of(Part::MainlineLane(j), 0, s.working, FLAGS);
    let occupied = number_of(Part::MainlineLane(j), 1, s.occupied, OCCUPANCIES);
    let vehicles = number_of(Part::MainlineLane(j), 2, s.vehicles, FLAGS);
    let time = number_of(Part::MainlineLane(j), 3, s.time, TIMES);
    working.or(occupied.or(vehicles.or(time)))
}

fn in_calls(calls: Calls) -> Option<Number>
    ensures { result ≡ in_calls calls }
{
    let preemption = number_of(Part::TheCalls, 0, calls.preemption, FLAGS);
    let bypass = number_of(Part::TheCalls, 1, calls.bypass, FLAGS);
    preemption.or(bypass)
}

// An entry's mode of a command's kind.
fn mode_of(kind: u16) -> u16
    ensures { result ≡ mode_of kind }
{
    if kind == inputs::NONE { 0 } else { kind - 1 }
}

fn in_command(part: Part, c: Command) -> Option<Number>
    ensures { result ≡ in_command part c }
{
    let mode = mode_of(c.kind);
    let kind = number_of(part, 0, c.kind, KINDS);
    let rate = number_of(part, 1, c.rate, ranges::rate_range(mode));
    let table = number_of(part, 2, c.table, ranges::table_range(mode));
    kind.or(rate.or(table))
}

// The first out of range of the first n lanes' numbers, where `lane` says which number of a lane is
// that, else what follows.
fn first_from<F: Fn(u16) -> Option<Number>>(lane: F, n: u16, rest: Option<Number>) -> Option<Number>
    requires { F.IsAlwaysCallable lane }
    ensures { (f : ℕ → Option Number) → ((i : ℕ) (x : Option Number) → i < n → F.post lane i x → x ≡ f i) → result ≡ first_from f 0 n rest }
{
    for i in 0..n {
        if let Some(x) = lane(i) {
            return Some(x);
        }
    }
    rest
}

fn in_metered_lanes(s: Metered, n: u16, rest: Option<Number>) -> Option<Number>
    ensures { result ≡ first_from (λ k. in_metered k (metered_sample_of s k)) 0 n rest }
{
    first_from(|i| in_metered(i, inputs::metered_sample(s, i)), n, rest)
}

fn in_mainline_lanes(s: Mainline, m: u16, rest: Option<Number>) -> Option<Number>
    ensures { result ≡ first_from (λ k. in_mainline k (lane_sample_of s k)) 0 m rest }
{
    first_from(|j| in_mainline(j, inputs::lane_sample(s, j)), m, rest)
}

fn in_lanes(shape: Shape, input: Input, rest: Option<Number>) -> Option<Number>
    ensures { result ≡ in_lanes shape input rest }
{
    let behind = in_mainline_lanes(input.main, shape.mainline, rest);
    in_metered_lanes(input.lanes, shape.lanes, behind)
}

// The first that is out of range of all the input's numbers, if one is.
pub fn first_bad(shape: Shape, input: Input) -> Option<Number>
    ensures { result ≡ first_bad shape input }
{
    let manual = in_command(Part::Manual, input.manual);
    let commands = manual.or(in_command(Part::Communications, input.centre));
    let behind = in_calls(input.calls).or(commands);
    in_clock(input.clock).or(in_lanes(shape, input, behind))
}
