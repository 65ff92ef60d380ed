// Which lane a tick releases, and what its release does. Lanes are numbered from 1, and 0 is none.
#![tactic(auto)]

mod cycle;

ghost use Rattle.std.specs.Prelude.{◌≡◌, ℕ, ◌≤◌};
ghost use Rattle.turns.specs.Turn.{next_of, first_after};
ghost use Rattle.release.specs.Release.{is_ready, ready_at, any_green, may_release, released_of, green_if, release_of};
ghost use Rattle.release.specs.Found.{Found};

pub use cycle::cycle_ticks;
use lanes::{GREEN, Lane, Lanes};
use timings::Timings;

// The service mode in which greens begin a part of the cycle apart; in the other, mutual exclusion,
// one after the other's end.
const FRACTIONAL_OFFSET: u16 = 1;

// Whether a lane is ready: red at least the minimum, in demand, a cycle from its last green's start.
fn is_ready(t: Timings, cycle: u16, demand: u16, l: Lane) -> bool
    ensures { result ≡ is_ready t cycle demand l }
{
    if lanes::has_been_red(t, l) {
        if demand == 1 {
            return cycle <= l.counter;
        }
    }
    false
}

// The same of lane k.
fn ready_at(t: Timings, cycle: u16, demand: [u16; 4], s: Lanes, k: u16) -> bool
    requires { 1 ≤ k }
    ensures { result ≡ ready_at t cycle demand s k }
{
    let i = k - 1;
    let wants = lanes::sample_at(demand, i);
    let lane = lanes::lane_at(s, i);
    is_ready(t, cycle, wants, lane)
}

// Whether one of n lanes is green.
fn any_green(s: Lanes, n: u16) -> bool
    ensures { result ≡ any_green s n }
{
    (0..n).any(|i| lanes::lane_at(s, i).colour == GREEN)
}

// Whether a lane may be released at all.
fn may_release(t: Timings, cycle: u16, s: Lanes) -> bool
    ensures { result ≡ may_release t cycle s }
{
    if t.mode == FRACTIONAL_OFFSET {
        return cycle::offset_is_up(cycle, t.lanes, s.offset);
    }
    !any_green(s, t.lanes)
}

// The lane after lane k, of n.
fn next_lane(n: u16, k: u16) -> u16
    ensures { result ≡ next_of n k }
{
    if k < n { k + 1 } else { 1 }
}

// The first ready lane from the lane after the last released.
fn first_ready(t: Timings, cycle: u16, demand: [u16; 4], s: Lanes) -> u16
    ensures { result ≡ first_after (ready_at t cycle demand s) t.lanes s.last t.lanes }
{
    let mut k = s.last;
    for _turn in 0..t.lanes {
        k = next_lane(t.lanes, k);
        if ready_at(t, cycle, demand, s, k) {
            return k;
        }
    }
    0
}

// The search, for whatever cycle it is given: the lane that a tick in metering releases where no bypass
// is kept. If the last released lane is one of the group's, none is found exactly where no release is
// possible or no lane is ready, and otherwise the ready lane that is the fewest turns behind that one;
// and no other number fits these words.
pub fn released(t: Timings, cycle: u16, demand: [u16; 4], s: Lanes) -> u16
    ensures is { result ≡ released_of t cycle demand s }
    ensures finds { 1 ≤ s.last → s.last ≤ t.lanes → Found t cycle demand s result }
    ensures only { 1 ≤ s.last → s.last ≤ t.lanes → (k : ℕ) → Found t cycle demand s k → k ≡ result }
{
    if may_release(t, cycle, s) {
        return first_ready(t, cycle, demand, s);
    }
    0
}

// Lane k, turned green if it is the released one.
fn green_if(released: u16, k: u16, l: Lane) -> Lane
    ensures { result ≡ green_if released k l }
{
    if released == k {
        return Lane {
            colour: GREEN,
            age: 0,
            counter: 0,
            passages: 0,
        };
    }
    l
}

// The lanes with this one just released.
pub fn release(s: Lanes, released: u16) -> Lanes
    ensures { result ≡ release_of s released }
{
    if released == 0 {
        return s;
    }
    let a = green_if(released, 1, lanes::lane_at(s, 0));
    let b = green_if(released, 2, lanes::lane_at(s, 1));
    let c = green_if(released, 3, lanes::lane_at(s, 2));
    let d = green_if(released, 4, lanes::lane_at(s, 3));
    lanes::of_lanes(a, b, c, d, 0, released)
}
