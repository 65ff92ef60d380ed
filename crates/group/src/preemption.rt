// The fire service's call, and what it makes of the group's interval.
ghost use Rattle.std.specs.Prelude.{◌≡◌};
ghost use Rattle.group.specs.Preemption.{is_held, steered_wish};

use crate::interval::{DARK, PRE_GREEN};
use inputs::CALLED;
use wanted::Wish;

// Whether the call holds this interval, as it does pre-metering dark and pre-metering green.
pub fn held(preemption: u16, interval: u16) -> bool
    ensures { result ≡ is_held preemption interval }
{
    if preemption != CALLED {
        return false;
    }
    if interval < DARK {
        return false;
    }
    interval <= PRE_GREEN
}

// The wish that the interval goes by: under the call none to meter.
pub fn steered(preemption: u16, wish: Wish) -> Wish
    ensures { result ≡ steered_wish preemption wish }
{
    if preemption == CALLED {
        return Wish::Clear;
    }
    wish
}
