// A mainline lane's reading at a period's end.
ghost use Rattle.std.specs.Prelude.{◌≡◌};
ghost use Rattle.lane_speeds.specs.Reading.{reading_of, speed_in};

#[derive(Clone, Copy)]
pub enum Reading {
    Absent,
    // the period's speed there
    Measured(f64),
    // the last measured speed of an earlier period
    Carried(f64),
}

// The reading of a lane whose period timed so many vehicles in so many milliseconds, where the periods before last measured this
// speed, 0 for none.
pub fn read(timed: u16, millis: u32, earlier: f64) -> Reading
    ensures { result ≡ reading_of timed millis earlier }
{
    if timed == 0 {
        if earlier == 0.0 {
            return Reading::Absent;
        }
        return Reading::Carried(earlier);
    }
    Reading::Measured(speed::quotient(timed as u64, millis as u64))
}

// The speed of a reading, 0 where it is absent.
pub fn speed_in(reading: Reading) -> f64
    ensures { result ≡ speed_in reading }
{
    match reading {
        Reading::Absent => 0.0,
        Reading::Measured(x) => x,
        Reading::Carried(x) => x,
    }
}
