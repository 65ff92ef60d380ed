// One lane's interval: green, yellow, red.
ghost use Rattle.std.specs.Prelude.{◌≡◌};
ghost use Rattle.lanes.specs.Intervals.{rise_of, passages_of, green_ends, ends_by, green_at, yellow_at, lane_tick};

use crate::{Ending, GREEN, LONGEST, Lane, MOST_PASSAGES, RED, YELLOW};
use timings::Timings;

// One more, to 720 at most.
pub fn rise(x: u16) -> u16
    ensures { result ≡ rise_of x }
{
    x.saturating_add(1).min(LONGEST)
}

// The passages of a green with this tick's sample; they stop at 3.
fn passages_of(count: u16, passage: u16) -> u16
    ensures { result ≡ passages_of count passage }
{
    if passage != 1 {
        return count;
    }
    if count < MOST_PASSAGES {
        return count + 1;
    }
    count
}

// Whether a green of this age ends by the ordinary rule.
fn green_ends(t: Timings, age: u16, passages: u16) -> bool
    ensures { result ≡ green_ends t age passages }
{
    if age < t.mingreen {
        return t.maxgreen <= age;
    }
    if t.vehicles <= passages {
        return true;
    }
    t.maxgreen <= age
}

// Whether it ends by this tick's rule for its lane.
fn ends_by(t: Timings, ending: Ending, age: u16, passages: u16) -> bool
    ensures { result ≡ ends_by t ending age passages }
{
    match ending {
        Ending::Ordinary => green_ends(t, age, passages),
        Ending::Cut => t.mingreen <= age,
        Ending::Held => false,
        Ending::Now => true,
    }
}

// A green lane of this age.
fn green_at(t: Timings, ending: Ending, age: u16, counter: u16, passages: u16) -> Lane
    ensures { result ≡ green_at t ending age counter passages }
{
    if ends_by(t, ending, age, passages) {
        return Lane {
            colour: YELLOW,
            age: 0,
            counter,
            passages,
        };
    }
    Lane {
        colour: GREEN,
        age,
        counter,
        passages,
    }
}

// A yellow lane of this age.
fn yellow_at(t: Timings, age: u16, counter: u16, passages: u16) -> Lane
    ensures { result ≡ yellow_at t age counter passages }
{
    if t.yellow <= age {
        return Lane {
            colour: RED,
            age: 0,
            counter,
            passages,
        };
    }
    Lane {
        colour: YELLOW,
        age,
        counter,
        passages,
    }
}

// A lane one tick later, not released.
pub fn lane_tick(t: Timings, ending: Ending, l: Lane, passage: u16) -> Lane
    ensures { result ≡ lane_tick t ending l passage }
{
    let age = rise(l.age);
    let counter = rise(l.counter);
    if l.colour == GREEN {
        return green_at(t, ending, age, counter, passages_of(l.passages, passage));
    }
    if l.colour == YELLOW {
        return yellow_at(t, age, counter, l.passages);
    }
    Lane {
        colour: l.colour,
        age,
        counter,
        passages: l.passages,
    }
}
