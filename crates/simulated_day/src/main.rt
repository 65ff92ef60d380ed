// Runs a whole day of ticks, one after the other from power-up, at the site whose file is standard
// input. Prints how many were accepted, the lanes released, the periods polled, and a checksum of
// all that the driver and the control centre see; of a refused file why and where, and in words on
// standard error. With an argument, the samples alone are made.
#![tactic(auto)]

mod random;

use calendar::{Clock, Date};
use group::Indications;
use inputs::{Calls, Command, Mainline, Metered};
use site::Site;
use state::State;
use streams::{STDERR_FILENO, STDIN_FILENO, STDOUT_FILENO};
use tick::{Input, Ticked};

const TICKS: u32 = 864000;

const SEED: u32 = 1;

// A day so far.
#[derive(Clone, Copy)]
struct Day {
    state: State,
    random: u32,
    accepted: u32,
    released: u32,
    polled: u32,
    sum: u32,
}

fn one_more(count: u32) -> u32 {
    std::num::wrapping_add_u32(count, 1)
}

// The checksum with one more number.
fn summed(sum: u32, x: u32) -> u32 {
    (((sum as u64) * 31 + x as u64) % 4294967296) as u32
}

fn four(a: u16, b: u16, c: u16, d: u16) -> u32 {
    ((a as u32 * 4 + b as u32) * 4 + c as u32) * 4 + d as u32
}

fn with_four(sum: u32, v: [u16; 4]) -> u32 {
    summed(sum, four(v[0], v[1], v[2], v[3]))
}

fn with_shown(sum: u32, shown: Indications, released: u16) -> u32 {
    let a = with_four(sum, shown.colours);
    let b = with_four(a, shown.lower);
    summed(b, shown.sign as u32 * 8 + released as u32)
}

fn with_bytes(sum: u32, s: &[u8]) -> u32 {
    let mut sum = sum;
    for byte in s {
        sum = summed(sum, *byte as u32);
    }
    sum
}

// The checksum with a poll's refusal, or 0, and its record.
fn with_poll(sum: u32, site: Site, state: State) -> u32 {
    let mut out = [0u8; 64];
    match poll::poll(site, state, &mut out) {
        Ok(count) => with_bytes(summed(sum, 0), &out[..count]),
        Err(refusal) => summed(sum, refusal.number() as u32),
    }
}

fn no_command() -> Command {
    Command {
        kind: 0,
        rate: 0,
        table: 0,
    }
}

// A Monday, no call, no command.
fn input_of(tenth: u32, lanes: Metered, main: Mainline) -> Input {
    Input {
        clock: Clock {
            date: Date {
                year: 2025,
                month: 1,
                day: 6,
            },
            tenth,
        },
        lanes,
        main,
        calls: Calls {
            preemption: 0,
            bypass: 0,
        },
        manual: no_command(),
        centre: no_command(),
    }
}

// The day after a tick's poll, where the tick closed a period.
fn polled(mut day: Day, site: Site) -> Day {
    if day.state.periods.ticks != 0 {
        return day;
    }
    day.sum = with_poll(day.sum, site, day.state);
    day.polled = one_more(day.polled);
    day
}

// The day with what a tick gave.
fn seen(mut day: Day, ticked: Ticked) -> Day {
    day.state = ticked.state;
    if ticked.refusal.is_none() {
        day.accepted = one_more(day.accepted);
    }
    if ticked.released != 0 {
        day.released = one_more(day.released);
    }
    day.sum = with_shown(day.sum, ticked.shown, ticked.released);
    day
}

fn one_tick(mut day: Day, site: Site, tenth: u32) -> Day {
    let drawn = random::draw(day.random);
    day.random = drawn.random;
    let ticked = tick::tick(site, day.state, input_of(tenth, drawn.lanes, drawn.main));
    polled(seen(day, ticked), site)
}

fn whole_day(site: Site) -> Day {
    let mut day = Day {
        state: tick::power_up(site).state,
        random: SEED,
        accepted: 0,
        released: 0,
        polled: 0,
        sum: 0,
    };
    for tenth in 0..TICKS {
        day = one_tick(day, site, tenth);
    }
    day
}

fn print_count(name: &[u8], n: u32) {
    io::write_all(STDOUT_FILENO, name);
    io::print_decimal(STDOUT_FILENO, n as u64);
}

fn run(site: Site) {
    let day = whole_day(site);
    print_count(b"accepted ", day.accepted);
    print_count(b", released ", day.released);
    print_count(b", polled ", day.polled);
    print_count(b", checksum ", day.sum);
    io::write_all(STDOUT_FILENO, b"\n");
}

fn with_six(sum: u32, v: [u16; 6]) -> u32 {
    let a = with_four(sum, [v[0], v[1], v[2], v[3]]);
    summed(a, four(0, 0, v[4], v[5]))
}

// The samples alone.
fn run_samples() {
    let mut random = SEED;
    let mut sum: u32 = 0;
    for _ in 0..TICKS {
        let drawn = random::draw(random);
        random = drawn.random;
        sum = with_four(sum, drawn.lanes.demand);
        sum = with_four(sum, drawn.lanes.passage);
        sum = with_six(sum, drawn.main.working);
        sum = with_six(sum, drawn.main.occupied);
        sum = with_six(sum, drawn.main.vehicles);
        sum = with_six(sum, drawn.main.time);
    }
    print_count(b"samples ", sum);
    io::write_all(STDOUT_FILENO, b"\n");
}

fn main(rt: HostRuntime) {
    if 0 < site_program::arguments_given(&rt) {
        run_samples();
        return;
    }
    let mut file = [0u8; site_reader::FRONT];
    let n = io::read_full(STDIN_FILENO, &mut file);
    match site_reader::read(&file[..n]) {
        Ok(site) => run(site),
        Err(misread) => {
            test_output::print_refusal(misread.refusal.number(), misread.place);
            site_program::explain(STDERR_FILENO, b"standard input", &file[..n]);
        }
    }
}
