// The lanes of a group in metering: colours, ages, counters, from one tick to the next.
#![tactic(auto)]

mod interval;

ghost use Rattle.std.specs.Prelude.{◌≡◌, get_or};
ghost use Rattle.lanes.specs.Intervals.{has_been_red};
ghost use Rattle.lanes.specs.Lanes.{lane_of, lanes_of, ending_of, lane_tick_at, lanes_tick, lane_entered, lanes_entered};

use timings::Timings;

// A lane's colours; a lane that the site lacks has none. They are numbers and no enum: a damaged state may hold any, and the check of a
// state (13) is told all of them.
pub const RED: u16 = 1;

pub const YELLOW: u16 = 2;

pub const GREEN: u16 = 3;

// Where ages and counters of the lanes stop.
pub const LONGEST: u16 = 720;

// Where the passages of a green stop.
pub const MOST_PASSAGES: u16 = 3;

// One lane: its colour and that colour's age, the ticks since its last green began, and the passages
// of that green.
#[derive(Clone, Copy)]
pub struct Lane {
    pub colour: u16,
    pub age: u16,
    pub counter: u16,
    pub passages: u16,
}

// Four lanes, the ticks since the group's last green began, and the lane released last, from 1.
#[derive(Clone, Copy)]
pub struct Lanes {
    pub colours: [u16; 4],
    pub ages: [u16; 4],
    pub counters: [u16; 4],
    pub passages: [u16; 4],
    pub offset: u16,
    pub last: u16,
}

// How a lane's green ends at a tick: by the ordinary rule, as soon as it has had its minimum, not at
// all, or at once.
#[derive(Clone, Copy)]
pub enum Ending {
    Ordinary,
    Cut,
    Held,
    Now,
}

// How the lanes' greens end at a tick: that of one lane, from 1, and those of the others.
#[derive(Clone, Copy)]
pub struct Endings {
    pub lane: u16,
    pub own: Ending,
    pub others: Ending,
}

// Lane i, the first lane being 0; all 0 past the fourth.
pub fn lane_at(s: Lanes, i: u16) -> Lane
    ensures { result ≡ lane_of s i }
{
    let k = i as usize;
    if 4 <= k {
        return Lane {
            colour: 0,
            age: 0,
            counter: 0,
            passages: 0,
        };
    }
    Lane {
        colour: s.colours[k],
        age: s.ages[k],
        counter: s.counters[k],
        passages: s.passages[k],
    }
}

// The sample of lane i, the first lane being 0; 0 past the fourth.
pub fn sample_at(samples: [u16; 4], i: u16) -> u16
    ensures { result ≡ get_or samples i 0 }
{
    samples.get(i as usize).copied().unwrap_or(0)
}

// Whether a lane has been red at least the minimum.
pub fn has_been_red(t: Timings, l: Lane) -> bool
    ensures { result ≡ has_been_red t l }
{
    if l.colour != RED {
        return false;
    }
    t.minred <= l.age
}

// These four lanes.
pub fn of_lanes(a: Lane, b: Lane, c: Lane, d: Lane, offset: u16, last: u16) -> Lanes
    ensures { result ≡ lanes_of a b c d offset last }
{
    Lanes {
        colours: [a.colour, b.colour, c.colour, d.colour],
        ages: [a.age, b.age, c.age, d.age],
        counters: [a.counter, b.counter, c.counter, d.counter],
        passages: [a.passages, b.passages, c.passages, d.passages],
        offset,
        last,
    }
}

// How the green of lane k, from 1, ends.
fn ending_of(e: Endings, k: u16) -> Ending
    ensures { result ≡ ending_of e k }
{
    if e.lane == k {
        return e.own;
    }
    e.others
}

// Lane i one tick later, with its passage sample; one that the site lacks stays as it is.
fn tick_at(t: Timings, endings: Endings, lane: Lane, passage: u16, i: u16) -> Lane
    ensures { (s : Lanes) → lane ≡ lane_of s i → result ≡ lane_tick_at t endings s passage i }
{
    if t.lanes <= i {
        return lane;
    }
    let ending = ending_of(endings, i + 1);
    interval::lane_tick(t, ending, lane, passage)
}

// The lanes one tick later, none released, with the tick's passage samples.
pub fn tick(t: Timings, endings: Endings, s: Lanes, passage: [u16; 4]) -> Lanes
    ensures { result ≡ lanes_tick t endings s passage }
{
    let a = tick_at(t, endings, lane_at(s, 0), passage[0], 0);
    let b = tick_at(t, endings, lane_at(s, 1), passage[1], 1);
    let c = tick_at(t, endings, lane_at(s, 2), passage[2], 2);
    let d = tick_at(t, endings, lane_at(s, 3), passage[3], 3);
    of_lanes(a, b, c, d, interval::rise(s.offset), s.last)
}

fn entered_lane(n: u16, i: u16) -> Lane
    ensures { result ≡ lane_entered n i }
{
    if i < n {
        return Lane {
            colour: RED,
            age: 0,
            counter: LONGEST,
            passages: 0,
        };
    }
    Lane {
        colour: 0,
        age: 0,
        counter: 0,
        passages: 0,
    }
}

// The lanes on entering metering, at a site of n lanes.
pub fn entered(n: u16) -> Lanes
    ensures { result ≡ lanes_entered n }
{
    let a = entered_lane(n, 0);
    let b = entered_lane(n, 1);
    let c = entered_lane(n, 2);
    let d = entered_lane(n, 3);
    of_lanes(a, b, c, d, LONGEST, n)
}
