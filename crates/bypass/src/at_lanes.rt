// What the bypass makes of the lanes, and what it does.
ghost use Rattle.std.specs.Prelude.{◌≡◌, ◌≤◌};
ghost use Rattle.bypass.specs.Lanes.{place_of, priority_of, has_passed, endings_of, other_not_red, others_red, released_for, doing_of};
ghost use Rattle.bypass.specs.Found.{FoundFor};

use crate::{Bypass, Doing};
use lanes::{Ending, Endings, GREEN, Lane, Lanes, RED};
use timings::Timings;

// The priority lane's place, the first lane being 0; 0 where there is none.
fn place(t: Timings) -> u16
    ensures { result ≡ place_of t }
{
    t.priority.saturating_sub(1)
}

fn priority_lane(t: Timings, s: Lanes) -> Lane
    ensures { result ≡ priority_of t s }
{
    lanes::lane_at(s, place(t))
}

// Whether a vehicle passes the priority lane, green as the tick begins.
pub fn has_passed(t: Timings, s: Lanes, passage: [u16; 4]) -> bool
    ensures { result ≡ has_passed t s passage }
{
    let lane = priority_lane(t, s);
    let sample = lanes::sample_at(passage, place(t));
    if lane.colour != GREEN {
        return false;
    }
    sample == 1
}

// How the lanes' greens end at a tick, the bypass being so before and after it.
pub fn endings(t: Timings, was: Bypass, now: Bypass) -> Endings
    ensures { result ≡ endings_of t was now }
{
    if now.kept {
        return Endings {
            lane: t.priority,
            own: Ending::Held,
            others: Ending::Cut,
        };
    }
    if was.kept {
        return Endings {
            lane: t.priority,
            own: Ending::Now,
            others: Ending::Ordinary,
        };
    }
    Endings {
        lane: t.priority,
        own: Ending::Ordinary,
        others: Ending::Ordinary,
    }
}

// Whether lane i, the first lane being 0, is another than the priority lane, and not red.
fn other_not_red(t: Timings, s: Lanes, i: u16) -> bool
    requires { i ≤ 65534 }
    ensures { result ≡ other_not_red t s i }
{
    let lane = lanes::lane_at(s, i);
    if lane.colour == RED {
        return false;
    }
    t.priority != i + 1
}

// Whether all lanes but the priority lane are red.
fn others_red(t: Timings, s: Lanes) -> bool
    ensures { result ≡ others_red t s }
{
    !(0..t.lanes).any(
        |i|
            requires { i ≤ 65534 }
        { other_not_red(t, s, i) },
    )
}

// The lane that a bypass releases, or 0: whatever the cycle, the offset and the demands are.
pub fn released(t: Timings, s: Lanes) -> u16
    ensures is { result ≡ released_for t s }
    ensures finds { FoundFor t s result }
{
    let lane = priority_lane(t, s);
    if lanes::has_been_red(t, lane) {
        if others_red(t, s) {
            return t.priority;
        }
    }
    0
}

// What the bypass does.
pub fn does(t: Timings, b: Bypass, s: Lanes) -> Doing
    ensures { result ≡ doing_of t b s }
{
    let lane = priority_lane(t, s);
    if b.kept {
        if lane.colour == GREEN {
            return Doing::Runs;
        }
        return Doing::Waits;
    }
    Doing::None
}
