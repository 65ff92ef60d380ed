// Speeds from travel times over a pair of loops, as doubles.
#![tactic(auto)]

mod tenth;

ghost use Rattle.std.specs.Prelude.{◌≡◌, false, ◌*◌, ◌≤◌};
ghost use Rattle.std.specs.Float.Ieee.{eq, to_bits, of_bits};
ghost use Rattle.std.specs.Float.{binary64};
ghost use Rattle.speed.specs.Speed.{speed_of, Timed, SpeedNear, TestsExactly, at_most, no_speed, speed_spoilt};

pub use tenth::tenths;

// 6.1 m in 1 ms, in km/h: two loops lie so far apart.
const FASTEST: u64 = 21960;

// Bit patterns: the sign's weight, an infinity's digits, and those of a double that is no number.
const SIGN: u64 = 9223372036854775808;

const INFINITE: u64 = 9218868437227405312;

const NO_NUMBER: u64 = 9221120237041090560;

// The speed of so many vehicles timed over so many milliseconds in all, in km/h. Where vehicles were timed, it is off by at most its
// exact value ÷ 2^52, testing it against a whole threshold is testing that exact value, and it may be kept.
pub fn quotient(vehicles: u64, millis: u64) -> f64
    requires { (vehicles ≤ 4294967295) × (millis ≤ 281474976710656) }
    ensures is { result ≡ speed_of vehicles millis }
    ensures near { Timed vehicles millis → SpeedNear result vehicles millis }
    ensures exact { Timed vehicles millis → TestsExactly result vehicles millis }
    ensures kept { Timed vehicles millis → (speed_spoilt result ≡ false) × (eq result no_speed ≡ false) }
{
    let way = FASTEST * vehicles;
    (way as f64) / (millis as f64)
}

// Whether a speed is at or below a whole threshold.
pub fn at_most(speed: f64, threshold: u16) -> bool
    ensures { result ≡ at_most speed threshold }
{
    speed <= threshold as f64
}

// Whether a kept speed is out of range: not 0, and not from 0.25 to 21960.
pub fn spoilt(x: f64) -> bool
    ensures { result ≡ speed_spoilt x }
{
    if x == 0.0 {
        return false;
    }
    // a double that is no number is neither below nor above an end, and differs from itself
    (x < 0.25) | ((21960.0 < x) | (x != x))
}

// A double's bit pattern; of a double that is no number the one whose fraction has only its highest bit set.
pub fn bits_of(x: f64) -> u64
    ensures { result ≡ to_bits binary64 x }
{
    if x != x {
        return NO_NUMBER;
    }
    f64::to_bits(x)
}

// The double of a bit pattern.
pub fn of_bits(n: u64) -> f64
    ensures { result ≡ of_bits binary64 n }
{
    if INFINITE < n % SIGN {
        return 0.0 / 0.0;
    }
    f64::from_bits(n)
}
