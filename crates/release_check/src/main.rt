// Runs the release search at every cycle from 20 to 720, given to it as a plain number: groups of 1 to 4
// lanes, each lane in six standings, each lane last released, every set of demands, mutual exclusion,
// and fractional offset a tick before the offset is up, then and long after; with 1, 2 and 3 vehicles per
// green from one cycle to the next. Prints for each cycle how often none and each lane was found, and a
// digest of the order; then the same of what a bus bypass finds.
#![tactic(auto)]

mod findings;
mod standing;

use findings::Findings;
use lanes::{LONGEST, Lanes};
use streams::STDOUT_FILENO;
use timings::Timings;

const FIRST_CYCLE: u16 = 20;

const LAST_CYCLE: u16 = 720;

const MOST_LANES: u16 = 4;

// A cycle, a group's timings in both service modes, and after how many ticks its offset is up.
#[derive(Clone, Copy)]
struct Ways {
    cycle: u16,
    exclusion: Timings,
    fractional: Timings,
    offset: u16,
}

fn ways_of(n: u16, cycle: u16) -> Ways {
    let vehicles = cycle % 3 + 1;
    Ways {
        cycle,
        exclusion: standing::timings(n, 0, vehicles, 0),
        fractional: standing::timings(n, 1, vehicles, 0),
        offset: standing::offset_ticks(cycle, n),
    }
}

// One search, with the offset counter so.
fn search(
    t: Timings,
    cycle: u16,
    demand: [u16; 4],
    standing: Lanes,
    offset: u16,
    f: Findings,
) -> Findings {
    let s = Lanes { offset, ..standing };
    findings::added(f, release::released(t, cycle, demand, s))
}

// The four searches with these demands.
fn search_ways(w: Ways, demand: [u16; 4], s: Lanes, f: Findings) -> Findings {
    let before = w.offset.wrapping_sub(1);
    let first = search(w.exclusion, w.cycle, demand, s, 0, f);
    let second = search(w.fractional, w.cycle, demand, s, before, first);
    let third = search(w.fractional, w.cycle, demand, s, w.offset, second);
    search(w.fractional, w.cycle, demand, s, LONGEST, third)
}

// With each set of demands.
fn search_demands(w: Ways, n: u16, s: Lanes, findings: Findings) -> Findings {
    let mut f = findings;
    for number in 0..standing::demand_count(n) {
        f = search_ways(w, standing::demand_of(number), s, f);
    }
    f
}

// With each lane last released.
fn search_lasts(w: Ways, n: u16, standing: Lanes, findings: Findings) -> Findings {
    let mut f = findings;
    let mut s = standing;
    for last in 1..=n {
        s.last = last;
        f = search_demands(w, n, s, f);
    }
    f
}

// In each standing of n lanes.
fn search_standings(n: u16, cycle: u16, findings: Findings) -> Findings {
    let w = ways_of(n, cycle);
    let mut f = findings;
    for number in 0..standing::standing_count(n) {
        f = search_lasts(w, n, standing::placed(n, number, cycle), f);
    }
    f
}

fn search_cycle(cycle: u16) -> Findings {
    let mut f = findings::new();
    for n in 1..=MOST_LANES {
        f = search_standings(n, cycle, f);
    }
    f
}

fn print_cycles() {
    for cycle in FIRST_CYCLE..=LAST_CYCLE {
        io::print_decimal(STDOUT_FILENO, cycle as u64);
        findings::print(search_cycle(cycle));
    }
}

// What a bypass finds, with each priority lane.
fn search_priorities(n: u16, s: Lanes, findings: Findings) -> Findings {
    let mut f = findings;
    for lane in 1..=n {
        let t = standing::timings(n, 0, 1, lane);
        f = findings::added(f, bypass::released(t, s));
    }
    f
}

fn search_for_bus(n: u16, findings: Findings) -> Findings {
    let mut f = findings;
    for number in 0..standing::standing_count(n) {
        f = search_priorities(n, standing::placed(n, number, FIRST_CYCLE), f);
    }
    f
}

fn print_bypass() {
    let mut f = findings::new();
    for n in 1..=MOST_LANES {
        f = search_for_bus(n, f);
    }
    io::write_all(STDOUT_FILENO, b"bypass");
    findings::print(f);
}

fn main() {
    io::write_all(
        STDOUT_FILENO,
        b"cycle none lane1 lane2 lane3 lane4 digest\n",
    );
    print_cycles();
    print_bypass();
}
