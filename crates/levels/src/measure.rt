// What the last completed period measured over its good lanes.
ghost use Rattle.std.specs.Prelude.{◌≡◌, false, ℕ, ◌*◌, ◌/◌, ◌≤◌, ◌<◌};
ghost use Rattle.period.specs.Range.{counts_spoilt};
ghost use Rattle.speed.specs.Speed.{SpeedNear, TestsExactly};
ghost use Rattle.levels.specs.Measures.{totals_of, speed_over, measured_of, OfSpeed};

use period::Counts;

// A period is 30 s: so many make an hour, and so many milliseconds are a tenth of a percent of one.
const PERIODS_IN_AN_HOUR: u64 = 120;

const TENTH_OF_A_PERCENT: u64 = 30;

// Sums over the good lanes.
#[derive(Clone, Copy)]
pub struct Totals {
    pub lanes: u16,
    pub vehicles: u64,
    // milliseconds
    pub occupied: u64,
    // vehicles timed, and their milliseconds in all
    pub timed: u64,
    pub millis: u64,
}

#[derive(Clone, Copy)]
pub struct Measures {
    // vehicles an hour per lane
    pub flow: u64,
    // tenths of a percent
    pub occupancy: u64,
    // km/h, if a vehicle was timed
    pub speed: Option<f64>,
}

// The totals over the good ones of m mainline lanes.
fn lane_totals(c: Counts, m: u16) -> Totals
    ensures is { result ≡ totals_of c m }
    ensures small { (result.lanes ≤ m) × (result.vehicles ≤ 65535 * m) × (result.timed ≤ 65535 * m) × (result.millis ≤ 4294967295 * m) }
{
    let mut lanes: u16 = 0;
    let mut vehicles: u64 = 0;
    let mut occupied: u64 = 0;
    let mut timed: u64 = 0;
    let mut millis: u64 = 0;
    for j in 0..m {
        let lane = period::lane_counts(c, j);
        if period::is_good(lane) {
            lanes += 1;
            vehicles += lane.vehicles as u64;
            occupied += lane.occupied as u64;
            timed += lane.timed as u64;
            millis += lane.millis as u64;
        }
    }
    Totals {
        lanes,
        vehicles,
        occupied,
        timed,
        millis,
    }
}

// Vehicles an hour per lane.
fn flow_of(vehicles: u64, lanes: u16) -> u64
    requires { (vehicles ≤ 65535 * 65535) × (0 < lanes) }
    ensures { result ≡ vehicles * 120 / lanes }
{
    vehicles * PERIODS_IN_AN_HOUR / (lanes as u64)
}

// The speed over all vehicles timed, if there is one.
fn speed_over(t: Totals) -> Option<f64>
    requires { (t.timed ≤ 4294967295) × (t.millis ≤ 281474976710656) }
    ensures { result ≡ speed_over t }
{
    if t.timed == 0 {
        return None;
    }
    Some(speed::quotient(t.timed, t.millis))
}

// What a period's counts measured on m mainline lanes, if one of them was good. Where they are in range, the speed is off by at most its
// exact value ÷ 2^52, and testing it against a whole threshold is testing whole numbers.
pub fn measured_on(c: Counts, m: u16) -> Option<Measures>
    ensures is { result ≡ measured_of c m }
    ensures near { (n ticks : ℕ) → ticks ≤ 300 → m ≤ 6 → counts_spoilt c n m ticks ≡ false → OfSpeed SpeedNear (totals_of c m) result }
    ensures exact { (n ticks : ℕ) → ticks ≤ 300 → m ≤ 6 → counts_spoilt c n m ticks ≡ false → OfSpeed TestsExactly (totals_of c m) result }
{
    let t = lane_totals(c, m);
    if t.lanes == 0 {
        return None;
    }
    Some(Measures {
        flow: flow_of(t.vehicles, t.lanes),
        occupancy: t.occupied / (TENTH_OF_A_PERCENT * (t.lanes as u64)),
        speed: speed_over(t),
    })
}
