// One group of lanes: its interval, its lanes, and the lamps.
#![tactic(auto)]

mod indication;
mod interval;
mod preemption;
mod range;

ghost use Rattle.std.specs.Prelude.{◌≡◌};
ghost use Rattle.group.specs.Group.{all_red, interval_of, bypass_in, lanes_in, released_in, group_of, moved_of};

use bypass::Bypass;
pub use indication::{Indications, all_dark, shown};
use inputs::{Calls, Metered};
pub use interval::INITIALIZATION;
use interval::{CLOSING, METERING};
use lanes::{Endings, Lanes, RED};
pub use range::group_spoilt;
use timings::Timings;
use wanted::Wish;

// The group's interval with its age, its lanes, and its bus bypass.
#[derive(Clone, Copy)]
pub struct Group {
    pub interval: u16,
    pub age: u16,
    pub lanes: Lanes,
    pub bypass: Bypass,
}

// The group after a tick, and the lane that it released, from 1, or 0.
#[derive(Clone, Copy)]
pub struct Moved {
    pub group: Group,
    pub released: u16,
}

// Whether all of n lanes are red.
fn all_red(s: Lanes, n: u16) -> bool
    ensures { result ≡ all_red s n }
{
    !(0..n).any(|i| lanes::lane_at(s, i).colour != RED)
}

// The interval after a tick: held by preemption, or the next.
fn interval_of(t: Timings, preemption: u16, wish: Wish, g: Group) -> u16
    ensures { result ≡ interval_of t preemption wish g }
{
    if preemption::held(preemption, g.interval) {
        return g.interval;
    }
    let red = all_red(g.lanes, t.lanes);
    let steering = preemption::steered(preemption, wish);
    interval::next(t, steering, interval::older(g.age), red, g.interval)
}

// The bypass after a tick that leads to this interval.
fn bypass_in(t: Timings, call: u16, passage: [u16; 4], now: u16, g: Group) -> Bypass
    ensures { result ≡ bypass_in t call passage now g }
{
    let passed = bypass::has_passed(t, g.lanes, passage);
    bypass::tick(t, now == METERING, call, passed, g.bypass)
}

// The lanes after a tick from one interval to another, none released.
fn lanes_in(
    t: Timings,
    endings: Endings,
    passage: [u16; 4],
    before: u16,
    now: u16,
    s: Lanes,
) -> Lanes
    ensures { result ≡ lanes_in t endings passage before now s }
{
    if now == METERING {
        if before == METERING {
            return lanes::tick(t, endings, s, passage);
        }
        return lanes::entered(t.lanes);
    }
    if now == CLOSING {
        return lanes::tick(t, endings, s, passage);
    }
    s
}

// The lane that a tick in this interval releases, with a bypass kept or none.
fn released_in(t: Timings, kept: bool, cycle: u16, demand: [u16; 4], now: u16, s: Lanes) -> u16
    ensures { result ≡ released_in t kept cycle demand now s }
{
    if kept {
        return bypass::released(t, s);
    }
    if now == METERING {
        return release::released(t, cycle, demand, s);
    }
    0
}

// The group in this interval, with this bypass and these lanes.
fn group_of(g: Group, now: u16, bypass: Bypass, s: Lanes) -> Group
    ensures { result ≡ group_of g now bypass s }
{
    if now == g.interval {
        return Group {
            interval: now,
            age: interval::older(g.age),
            lanes: s,
            bypass,
        };
    }
    Group {
        interval: now,
        age: 0,
        lanes: s,
        bypass,
    }
}

// The group one tick later, under the calls and a wish with its cycle.
pub fn tick(t: Timings, calls: Calls, wish: Wish, cycle: u16, samples: Metered, g: Group) -> Moved
    ensures { result ≡ moved_of t calls wish cycle samples g }
{
    let now = interval_of(t, calls.preemption, wish, g);
    let bypass = bypass_in(t, calls.bypass, samples.passage, now, g);
    let endings = bypass::endings(t, g.bypass, bypass);
    let s = lanes_in(t, endings, samples.passage, g.interval, now, g.lanes);
    let released = released_in(t, bypass.kept, cycle, samples.demand, now, s);
    let after = release::release(s, released);
    Moved {
        group: group_of(g, now, bypass, after),
        released,
    }
}
