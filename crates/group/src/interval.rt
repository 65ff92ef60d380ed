// The group's interval: its time, and where it leads.
ghost use Rattle.std.specs.Prelude.{◌≡◌, ◌*◌};
ghost use Rattle.group.specs.Intervals.{age_of, time_of, from_dark, from_green, from_metering, successor_of, next_interval};

use timings::Timings;
use wanted::Wish;

// The group's intervals. They are numbers and no enum: a damaged state may hold any, and the check of a state (13) is told all of them.
pub const INITIALIZATION: u16 = 0;

pub const DARK: u16 = 1;

pub const PRE_GREEN: u16 = 2;

pub const WARNING: u16 = 3;

pub const STARTUP_GREEN: u16 = 4;

pub const STARTUP_YELLOW: u16 = 5;

pub const STARTUP_RED: u16 = 6;

pub const METERING: u16 = 7;

pub const CLOSING: u16 = 8;

pub const SHUTDOWN_RED: u16 = 9;

// Where the age of an interval stops.
pub const OLDEST: u16 = 36000;

// How long initialization lasts.
const INITIALIZATION_TICKS: u16 = 50;

const TICKS_OF_A_MINUTE: u32 = 600;

// One tick older, to 36000 at most.
pub fn older(age: u16) -> u16
    ensures { result ≡ age_of age }
{
    age.saturating_add(1).min(OLDEST)
}

// The time that an interval runs at least.
fn time_of(t: Timings, interval: u16) -> u16
    ensures { result ≡ time_of t interval }
{
    match interval {
        INITIALIZATION => INITIALIZATION_TICKS,
        DARK => 0,
        PRE_GREEN => t.minpregreen,
        WARNING => t.warning,
        STARTUP_GREEN => t.startgreen,
        STARTUP_YELLOW => t.startyellow,
        STARTUP_RED => t.startred,
        METERING => 0,
        CLOSING => 0,
        SHUTDOWN_RED => t.shutdown,
        _ => 0,
    }
}

// Where pre-metering dark leads.
fn from_dark(wish: Wish) -> u16
    ensures { result ≡ from_dark wish }
{
    match wish {
        Wish::Dark => DARK,
        Wish::Green => PRE_GREEN,
        Wish::Metering(_) => PRE_GREEN,
        Wish::Clear => DARK,
    }
}

// Where pre-metering green leads, its minimum being up; over: its maximum too.
fn from_green(wish: Wish, over: bool) -> u16
    ensures { result ≡ from_green wish over }
{
    match wish {
        Wish::Dark => DARK,
        Wish::Green => PRE_GREEN,
        Wish::Metering(_) => WARNING,
        Wish::Clear => { if over { DARK } else { PRE_GREEN } }
    }
}

// Where metering leads.
fn from_metering(wish: Wish) -> u16
    ensures { result ≡ from_metering wish }
{
    match wish {
        Wish::Dark => CLOSING,
        Wish::Green => CLOSING,
        Wish::Metering(_) => METERING,
        Wish::Clear => CLOSING,
    }
}

// Minutes in ticks.
fn minutes(x: u16) -> u32
    ensures { result ≡ 600 * x }
{
    TICKS_OF_A_MINUTE * (x as u32)
}

// Where an interval leads once its time is up; red: all lanes are.
fn successor(t: Timings, wish: Wish, age: u16, red: bool, interval: u16) -> u16
    ensures { result ≡ successor_of t wish age red interval }
{
    match interval {
        INITIALIZATION => DARK,
        DARK => from_dark(wish),
        PRE_GREEN => from_green(wish, minutes(t.maxpregreen) <= age as u32),
        WARNING => STARTUP_GREEN,
        STARTUP_GREEN => STARTUP_YELLOW,
        STARTUP_YELLOW => STARTUP_RED,
        STARTUP_RED => METERING,
        METERING => from_metering(wish),
        CLOSING => { if red { SHUTDOWN_RED } else { CLOSING } }
        SHUTDOWN_RED => PRE_GREEN,
        _ => interval,
    }
}

// The interval after a tick, at this age.
pub fn next(t: Timings, wish: Wish, age: u16, red: bool, interval: u16) -> u16
    ensures { result ≡ next_interval t wish age red interval }
{
    if age < time_of(t, interval) {
        return interval;
    }
    successor(t, wish, age, red, interval)
}
