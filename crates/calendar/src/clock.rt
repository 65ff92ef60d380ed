// The clock of a tick.
ghost use Rattle.std.specs.Prelude.{◌≡◌};
ghost use Rattle.calendar.specs.Clock.{clock_bad};

use crate::day::Date;

#[derive(Clone, Copy)]
pub struct Clock {
    pub date: Date,
    // tenth of the day
    pub tenth: u32,
}

pub const LAST_TENTH: u32 = 863999;

// Whether there is no such date or tenth.
pub fn clock_bad(clock: Clock) -> bool
    ensures { result ≡ clock_bad clock }
{
    if !crate::day::is_date(clock.date) {
        return true;
    }
    LAST_TENTH < clock.tenth
}
