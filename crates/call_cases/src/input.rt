// The numbers of an operation; its kind is number 0. Of ticks: their count is 1, the first one's row
// begins at 2. Of a decision: its row begins at 1. Of a state: the interval is 1, the lanes begin
// at 3, the bypass at 21, the open period at 24, the serial is 69 and the completed period begins
// at 71. From 115 on stand thirty doubles, each as the four numbers of its bits, the highest first:
// each mainline lane's latest and slowest speed of the open period, and at 163 those of the completed
// one; at 211 each lane's last measured speed of the periods before that one.
ghost use Rattle.std.specs.Prelude.{ℕ, ◌+◌, ◌*◌, ◌≤◌};

use bypass::Bypass;
use calendar::Clock;
use group::Group;
use lane_speeds::{KeptSpeeds, Speeds};
use lanes::Lanes;
use period::{Counts, Periods};
use state::State;
use tick::Input;
use timings::Shape;

// Numbers i and i + 1 as one.
fn long_at(op: &[u8], i: usize) -> u32
    requires { i ≤ 240 }
{
    tick_row::long_of(numbers::word(op, i), numbers::word(op, i + 1))
}

// The numbers from number `at` on; of a shorter operation those behind it too.
fn words<const N: usize>(op: &[u8], at: usize) -> [u16; N]
    requires { at + N ≤ 240 }
{
    let mut words = [0u16; N];
    for i in 0..N {
        words[i] = numbers::word(op, at + i);
    }
    words
}

// What is read for each of six lanes, from number `at` on, a lane's so many numbers behind those of
// the lane before.
fn six<T, F: Fn(usize) -> T>(read: F, at: usize, step: usize) -> [T; 6]
    requires place { at ≤ 240 }
    requires steps { step ≤ 8 }
    requires reads { (i : ℕ) → i ≤ at + 5 * step → F.pre read i }
{
    [
        read(at),
        read(at + step),
        read(at + 2 * step),
        read(at + 3 * step),
        read(at + 4 * step),
        read(at + 5 * step),
    ]
}

// Ticks.

// The input of the first tick: a row of four and six lanes, so that samples beyond a site's lanes
// are sent too.
pub fn of_tick(op: &[u8]) -> Input {
    let row: [u16; tick_row::LONGEST_ROW] = words(op, 2);
    let most = Shape {
        lanes: 4,
        mainline: 6,
        priority: 0,
    };
    tick_row::input_of(&row, most)
}

// The clock and the commands of a decision: a row of no lanes.
pub fn of_decision(op: &[u8]) -> Input {
    let row: [u16; tick_row::LONGEST_ROW] = words(op, 1);
    let none = Shape {
        lanes: 0,
        mainline: 0,
        priority: 0,
    };
    tick_row::input_of(&row, none)
}

// The same so many ticks later.
pub fn later(input: Input, ticks: u16) -> Input {
    Input {
        clock: Clock {
            tenth: std::num::wrapping_add_u32(input.clock.tenth, ticks as u32),
            ..input.clock
        },
        ..input
    }
}

// States.

fn lanes(op: &[u8]) -> Lanes {
    Lanes {
        colours: words(op, 3),
        ages: words(op, 7),
        counters: words(op, 11),
        passages: words(op, 15),
        offset: numbers::word(op, 19),
        last: numbers::word(op, 20),
    }
}

// Any number but 0 is true.
fn flag(op: &[u8], i: usize) -> bool
    requires { i ≤ 200 }
{
    numbers::word(op, i) != 0
}

fn bypass(op: &[u8]) -> Bypass {
    Bypass {
        kept: flag(op, 21),
        mark: flag(op, 22),
        timer: numbers::word(op, 23),
    }
}

fn counts(op: &[u8], at: usize) -> Counts
    requires { at ≤ 71 }
{
    Counts {
        passages: words(op, at),
        greens: words(op, at + 4),
        worked: words(op, at + 8),
        vehicles: words(op, at + 14),
        occupied: words(op, at + 20),
        timed: words(op, at + 26),
        millis: six(|i| long_at(op, i), at + 32, 2),
    }
}

// Numbers i to i + 3 as a double.
fn double_at(op: &[u8], i: usize) -> f64
    requires { i ≤ 232 }
{
    let high = long_at(op, i) as u64;
    let low = long_at(op, i + 2) as u64;
    speed::of_bits(high * 4294967296 + low)
}

fn speeds_at(op: &[u8], i: usize) -> Speeds
    requires { i ≤ 220 }
{
    Speeds {
        latest: double_at(op, i),
        slowest: double_at(op, i + 4),
    }
}

fn kept_speeds(op: &[u8]) -> KeptSpeeds {
    KeptSpeeds {
        current: six(|i| speeds_at(op, i), 115, 8),
        last: six(|i| speeds_at(op, i), 163, 8),
        earlier: six(|i| double_at(op, i), 211, 4),
    }
}

fn periods(op: &[u8]) -> Periods {
    Periods {
        ticks: numbers::word(op, 24),
        current: counts(op, 25),
        serial: long_at(op, 69),
        last: counts(op, 71),
        speeds: kept_speeds(op),
    }
}

pub fn state(op: &[u8]) -> State {
    State {
        group: Group {
            interval: numbers::word(op, 1),
            age: numbers::word(op, 2),
            lanes: lanes(op),
            bypass: bypass(op),
        },
        periods: periods(op),
    }
}
