// Whether the group's state is in range.
ghost use Rattle.std.specs.Prelude.{◌≡◌, ◌||◌, ltb};
ghost use Rattle.loops.specs.Any.{any_from};
ghost use Rattle.group.specs.Range.{colour_spoilt, lane_spoilt, lane_kept, lane_spoilt_at, lanes_spoilt, group_spoilt};

use crate::Group;
use crate::interval::{CLOSING, METERING, OLDEST, SHUTDOWN_RED};
use lanes::{GREEN, LONGEST, Lane, Lanes, MOST_PASSAGES, RED};
use timings::Shape;

fn no_colour(colour: u16) -> bool
    ensures { result ≡ (ltb colour 1 || ltb 3 colour) }
{
    if colour < RED {
        return true;
    }
    GREEN < colour
}

// A lane is red outside metering and closing.
fn colour_spoilt(interval: u16, colour: u16) -> bool
    ensures { result ≡ colour_spoilt interval colour }
{
    if interval == METERING {
        return no_colour(colour);
    }
    if interval == CLOSING {
        return no_colour(colour);
    }
    colour != RED
}

fn lane_spoilt(interval: u16, l: Lane) -> bool
    ensures { result ≡ lane_spoilt interval l }
{
    if LONGEST < l.age {
        return true;
    }
    if LONGEST < l.counter {
        return true;
    }
    if MOST_PASSAGES < l.passages {
        return true;
    }
    colour_spoilt(interval, l.colour)
}

// Whether anything of a lane is not 0.
fn lane_kept(l: Lane) -> bool
    ensures { result ≡ lane_kept l }
{
    if 0 < l.colour {
        return true;
    }
    if 0 < l.age {
        return true;
    }
    if 0 < l.counter {
        return true;
    }
    0 < l.passages
}

fn lane_spoilt_at(interval: u16, s: Lanes, n: u16, i: u16) -> bool
    ensures { result ≡ lane_spoilt_at interval s n i }
{
    let lane = lanes::lane_at(s, i);
    if i < n {
        return lane_spoilt(interval, lane);
    }
    lane_kept(lane)
}

fn any_lane_spoilt(interval: u16, s: Lanes, n: u16) -> bool
    ensures { result ≡ any_from (lane_spoilt_at interval s n) 0 4 }
{
    (0..4).any(|i| lane_spoilt_at(interval, s, n, i))
}

fn lanes_spoilt(interval: u16, s: Lanes, n: u16) -> bool
    ensures { result ≡ lanes_spoilt interval s n }
{
    if LONGEST < s.offset {
        return true;
    }
    if s.last < 1 {
        return true;
    }
    if n < s.last {
        return true;
    }
    any_lane_spoilt(interval, s, n)
}

// Whether a group's state is outside its ranges, at a site of this shape.
pub fn group_spoilt(g: Group, shape: Shape) -> bool
    ensures { result ≡ group_spoilt g shape.lanes shape.priority }
{
    if SHUTDOWN_RED < g.interval {
        return true;
    }
    if OLDEST < g.age {
        return true;
    }
    if lanes_spoilt(g.interval, g.lanes, shape.lanes) {
        return true;
    }
    bypass::spoilt(g.interval == METERING, shape.priority, g.bypass)
}
