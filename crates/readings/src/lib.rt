// The mainline lanes' readings and speeds of the last completed period, for the control centre.
#![tactic(auto)]

ghost use Rattle.std.specs.Prelude.{◌≡◌, ◌<◌};
ghost use Rattle.readings.specs.Readings.{no_reading, lane_reading_of, readings_of, refused_readings, read_of, lane_in, MeasuredNear};
ghost use Rattle.readings.specs.SincePowerUp.{SincePowerUp};

use lane_speeds::{Reading, Speeds};
use period::Periods;
use refusals::Refusal;
use site::Site;
use state::State;

// A mainline lane's reading, and its latest and slowest speed of the period.
#[derive(Clone, Copy)]
pub struct LaneReading {
    pub reading: Reading,
    pub speeds: Speeds,
}

// The refusal, if a check refuses, and the lanes: absent and 0 beyond the site's. It is no Result, since
// a refused answer has its lanes too, all of them absent and 0, as `since` promises.
#[derive(Clone, Copy)]
pub struct Readings {
    pub refusal: Option<Refusal>,
    pub lanes: [LaneReading; 6],
}

fn lane_reading(p: Periods, j: u16) -> LaneReading
    requires { j < 6 }
    ensures { result ≡ lane_reading_of p j }
{
    let c = period::lane_counts(p.last, j);
    LaneReading {
        reading: lane_speeds::read(c.timed, c.millis, lane_speeds::earlier_at(p.speeds, j)),
        speeds: lane_speeds::last_at(p.speeds, j),
    }
}

// Of periods that have been checked.
fn of_periods(p: Periods) -> Readings
    ensures { result ≡ readings_of p }
{
    Readings {
        refusal: None,
        lanes: [
            lane_reading(p, 0),
            lane_reading(p, 1),
            lane_reading(p, 2),
            lane_reading(p, 3),
            lane_reading(p, 4),
            lane_reading(p, 5),
        ],
    }
}

fn no_reading() -> LaneReading
    ensures { result ≡ no_reading }
{
    LaneReading {
        reading: Reading::Absent,
        speeds: Speeds {
            latest: 0.0,
            slowest: 0.0,
        },
    }
}

fn refused(refusal: Refusal) -> Readings
    ensures { result ≡ refused_readings refusal }
{
    Readings {
        refusal: Some(refusal),
        lanes: [no_reading(); 6],
    }
}

// What an answer says of lane j, the first being 0; absent and 0 past the sixth.
pub fn lane_in(r: Readings, j: u16) -> LaneReading
    ensures { result ≡ lane_in r j }
{
    let i = j as usize;
    if 6 <= i {
        return no_reading();
    }
    r.lanes[i]
}

// The readings of the last completed period. A measured speed is off by at most its exact value ÷ 2^52. Over the ticks since power-up a
// reading is measured, carried over or absent as the request says, and the two speeds are those of the period's vehicles.
pub fn read(site: Site, state: State) -> Readings
    ensures is { result ≡ read_of site state }
    ensures near { MeasuredNear state.periods.last result }
    ensures since { SincePowerUp site state result }
{
    if let Some(refusal) = poll::refusal(site, state) {
        return refused(refusal);
    }
    of_periods(state.periods)
}
