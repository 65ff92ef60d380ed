// What is kept of the mainline lanes' speeds, in km/h, and a lane's reading.
#![tactic(auto)]

mod range;
mod reading;

ghost use Rattle.std.specs.Prelude.{◌≡◌, ◌<◌, get_or};
ghost use Rattle.lane_speeds.specs.Speeds.{no_speeds, none_kept, current_of, last_of, earlier_of, slower_of, after_vehicle, time_at, speeds_timed, last_measured, speeds_closed};

use inputs::Mainline;
pub use range::spoilt;
pub use reading::{Reading, read, speed_in};

// A mainline lane's latest and slowest speed of a period, 0 until a vehicle is timed.
#[derive(Clone, Copy)]
pub struct Speeds {
    pub latest: f64,
    pub slowest: f64,
}

// Per mainline lane: the speeds of the open period and of the last completed one, and the last measured speed of the periods before
// that one, 0 for none.
#[derive(Clone, Copy)]
pub struct KeptSpeeds {
    pub current: [Speeds; 6],
    pub last: [Speeds; 6],
    pub earlier: [f64; 6],
}

fn current_at(k: KeptSpeeds, j: u16) -> Speeds
    requires { j < 6 }
    ensures { result ≡ current_of k j }
{
    let i = j as usize;
    k.current[i]
}

// Mainline lane j's speeds of the last completed period.
pub fn last_at(k: KeptSpeeds, j: u16) -> Speeds
    requires { j < 6 }
    ensures { result ≡ last_of k j }
{
    let i = j as usize;
    k.last[i]
}

// Its last measured speed of the periods before that.
pub fn earlier_at(k: KeptSpeeds, j: u16) -> f64
    requires { j < 6 }
    ensures { result ≡ earlier_of k j }
{
    let i = j as usize;
    k.earlier[i]
}

// The slowest speed, with one more.
fn slower(x: f64, slowest: f64) -> f64
    ensures { result ≡ slower_of x slowest }
{
    if slowest == 0.0 {
        return x;
    }
    if x < slowest {
        return x;
    }
    slowest
}

// A lane's speeds with those of a vehicle that was timed in so many milliseconds, 0 for none.
fn after_vehicle(s: Speeds, time: u16) -> Speeds
    ensures { result ≡ after_vehicle s time }
{
    if time == 0 {
        return s;
    }
    let x = speed::quotient(1, time as u64);
    Speeds {
        latest: x,
        slowest: slower(x, s.slowest),
    }
}

// The time of lane j of m.
fn time_at(main: Mainline, m: u16, j: u16) -> u16
    ensures { result ≡ time_at main m j }
{
    if m <= j {
        return 0;
    }
    inputs::travel_time(inputs::lane_sample(main, j))
}

fn current_after(k: KeptSpeeds, main: Mainline, m: u16, j: u16) -> Speeds
    requires { j < 6 }
    ensures { result ≡ after_vehicle (current_of k j) (time_at main m j) }
{
    after_vehicle(current_at(k, j), time_at(main, m, j))
}

// The speeds with a tick's vehicles.
pub fn timed(k: KeptSpeeds, main: Mainline, m: u16) -> KeptSpeeds
    ensures { result ≡ speeds_timed k main m }
{
    KeptSpeeds {
        current: [
            current_after(k, main, m, 0),
            current_after(k, main, m, 1),
            current_after(k, main, m, 2),
            current_after(k, main, m, 3),
            current_after(k, main, m, 4),
            current_after(k, main, m, 5),
        ],
        ..k
    }
}

// The last measured speed after a period.
fn last_measured(earlier: f64, timed: u16, millis: u32) -> f64
    ensures { result ≡ last_measured earlier timed millis }
{
    if timed == 0 {
        return earlier;
    }
    speed::quotient(timed as u64, millis as u64)
}

fn no_speeds() -> Speeds
    ensures { result ≡ no_speeds }
{
    Speeds {
        latest: 0.0,
        slowest: 0.0,
    }
}

fn earlier_after(k: KeptSpeeds, timed: [u16; 6], millis: [u32; 6], j: u16) -> f64
    requires { j < 6 }
    ensures { result ≡ last_measured (earlier_of k j) (get_or timed j 0) (get_or millis j 0) }
{
    let i = j as usize;
    last_measured(earlier_at(k, j), timed[i], millis[i])
}

// The speeds at a period's end. The lists have the vehicles timed in the period completed before it, and their milliseconds.
pub fn closed(k: KeptSpeeds, timed: [u16; 6], millis: [u32; 6]) -> KeptSpeeds
    ensures { result ≡ speeds_closed k timed millis }
{
    let none = no_speeds();
    let current = k.current; // the check takes no array straight from a field into a literal
    KeptSpeeds {
        current: [none, none, none, none, none, none],
        last: current,
        earlier: [
            earlier_after(k, timed, millis, 0),
            earlier_after(k, timed, millis, 1),
            earlier_after(k, timed, millis, 2),
            earlier_after(k, timed, millis, 3),
            earlier_after(k, timed, millis, 4),
            earlier_after(k, timed, millis, 5),
        ],
    }
}

// No speeds.
pub fn none_kept() -> KeptSpeeds
    ensures { result ≡ none_kept }
{
    let none = no_speeds();
    KeptSpeeds {
        current: [none, none, none, none, none, none],
        last: [none, none, none, none, none, none],
        earlier: [0.0, 0.0, 0.0, 0.0, 0.0, 0.0],
    }
}
