// How the lanes stand before a search, and what is in demand.
use lanes::{GREEN, LONGEST, Lane, Lanes, RED, YELLOW};
use timings::Timings;

const MINIMUM_RED: u16 = 15;

// How many standings a lane has.
const STANDINGS: u16 = 6;

// How many standings n lanes have.
pub fn standing_count(n: u16) -> u16 {
    match n {
        1 => 6,
        2 => 36,
        3 => 216,
        _ => 1296,
    }
}

// How many sets of demands n lanes have.
pub fn demand_count(n: u16) -> u16 {
    match n {
        1 => 2,
        2 => 4,
        3 => 8,
        _ => 16,
    }
}

// The timings of a group. A search looks at its lanes, its mode and the minimum red, and one for a bypass
// at the priority lane.
pub fn timings(n: u16, mode: u16, vehicles: u16, priority: u16) -> Timings {
    Timings {
        lanes: n,
        mode,
        vehicles,
        mingreen: 10,
        maxgreen: 20,
        yellow: 10,
        minred: MINIMUM_RED,
        warning: 10,
        startgreen: 10,
        startyellow: 10,
        startred: 10,
        shutdown: 10,
        maxpregreen: 1,
        minpregreen: 10,
        mainline: 1,
        priority,
        timeout: 0,
    }
}

fn lane(colour: u16, age: u16, counter: u16) -> Lane {
    Lane {
        colour,
        age,
        counter,
        passages: 0,
    }
}

// A lane in one of the six standings: ready, but for its demand; red a tick too short; a tick short of
// the cycle; long red, and long since its last green; yellow; green.
fn standing(digit: u16, cycle: u16) -> Lane {
    match digit {
        0 => lane(RED, MINIMUM_RED, cycle),
        1 => lane(RED, MINIMUM_RED - 1, cycle),
        2 => lane(RED, MINIMUM_RED, cycle.wrapping_sub(1)),
        3 => lane(RED, LONGEST, LONGEST),
        4 => lane(YELLOW, MINIMUM_RED, cycle),
        _ => lane(GREEN, MINIMUM_RED, cycle),
    }
}

// Lane i, the first lane being 0, of n in the standing of this digit; one that is not there is all 0.
fn lane_at(n: u16, i: u16, digit: u16, cycle: u16) -> Lane {
    if i < n {
        return standing(digit, cycle);
    }
    lane(0, 0, 0)
}

// n lanes in the standings of a number, whose lowest digit to the base 6 is lane 1's.
pub fn placed(n: u16, number: u16, cycle: u16) -> Lanes {
    let a = lane_at(n, 0, number % STANDINGS, cycle);
    let behind_a = number / STANDINGS;
    let b = lane_at(n, 1, behind_a % STANDINGS, cycle);
    let behind_b = behind_a / STANDINGS;
    let c = lane_at(n, 2, behind_b % STANDINGS, cycle);
    let d = lane_at(n, 3, behind_b / STANDINGS, cycle);
    lanes::of_lanes(a, b, c, d, 0, n)
}

// The demands of a number, whose lowest bit is lane 1's.
pub fn demand_of(number: u16) -> [u16; 4] {
    [number % 2, number / 2 % 2, number / 4 % 2, number / 8 % 2]
}

// A cycle ÷ n, rounded up.
pub fn offset_ticks(cycle: u16, n: u16) -> u16 {
    if n == 0 {
        return 0;
    }
    cycle.div_ceil(n)
}
