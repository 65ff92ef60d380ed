// The controller's state: its group, and what it has counted.
#![tactic(auto)]

ghost use Rattle.std.specs.Prelude.{◌≡◌};
ghost use Rattle.state.specs.State.{state_spoilt, fresh_state, zero_state};

use group::Group;
use lanes::Lanes;
use period::Periods;
use timings::Shape;

#[derive(Clone, Copy)]
pub struct State {
    pub group: Group,
    pub periods: Periods,
}

// Whether a state is outside its ranges, at a site of this shape.
pub fn spoilt(s: State, shape: Shape) -> bool
    ensures { result ≡ state_spoilt s shape }
{
    if group::group_spoilt(s.group, shape) {
        return true;
    }
    period::periods_spoilt(s.periods, shape)
}

// The state at power-up, at a site of n metered lanes.
pub fn fresh(n: u16) -> State
    ensures { result ≡ fresh_state n }
{
    State {
        group: Group {
            interval: group::INITIALIZATION,
            age: 0,
            lanes: lanes::entered(n),
            bypass: bypass::none(),
        },
        periods: period::no_periods(),
    }
}

// A state of zeros.
pub fn zero() -> State
    ensures { result ≡ zero_state }
{
    State {
        group: Group {
            interval: 0,
            age: 0,
            lanes: Lanes {
                colours: [0u16; 4],
                ages: [0u16; 4],
                counters: [0u16; 4],
                passages: [0u16; 4],
                offset: 0,
                last: 0,
            },
            bypass: bypass::none(),
        },
        periods: period::no_periods(),
    }
}
