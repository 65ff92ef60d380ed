// The yellow of an approach speed and a grade.
#![tactic(auto)]

ghost use Rattle.std.specs.Prelude.{◌≡◌, true, IsOkAnd};
ghost use Rattle.slope.specs.Slope.{is_from, speed_in, grade_in, divisor_of, ticks_of, yellow_at, ticks_given};
ghost use Rattle.slope.specs.Kinematic.{LeastEnough};
ghost use Rattle.slope.specs.Claims.{InRange, Refuses, Fits, NeverGrows, NeverFalls};

use refusals::Refusal;

// The approach speeds in km/h, and the grades in per mille, that are in range.
pub const LEAST_SPEED: i64 = 20;

pub const MOST_SPEED: i64 = 80;

pub const LEAST_GRADE: i64 = -80;

pub const MOST_GRADE: i64 = 80;

fn is_from(low: i64, high: i64, x: i64) -> bool
    ensures { result ≡ is_from low high x }
{
    if x < low {
        return false;
    }
    x <= high
}

pub fn speed_in(speed: i64) -> bool
    ensures { result ≡ speed_in speed }
{
    is_from(LEAST_SPEED, MOST_SPEED, speed)
}

pub fn grade_in(grade: i64) -> bool
    ensures { result ≡ grade_in grade }
{
    is_from(LEAST_GRADE, MOST_GRADE, grade)
}

// 9 × (305000 + 981 × grade), which the grade's range makes positive.
fn divisor(grade: i64) -> i64
    requires { grade_in grade ≡ true }
    ensures { result ≡ divisor_of grade }
{
    9 * (305000 + 981 * grade)
}

// 10 + 1250000 × speed ÷ divisor, rounded up.
fn ticks(speed: i64, grade: i64) -> u16
    requires speed_value { speed_in speed ≡ true }
    requires grade_value { grade_in grade ≡ true }
    ensures { result ≡ ticks_of speed grade }
{
    let below = divisor(grade) as u64;
    (10 + (1250000 * (speed as u64) + (below - 1)) / below) as u16
}

// The yellow, in ticks, of an approach speed in km/h and a grade in per mille, downhill negative.
pub fn yellow_at(speed: i64, grade: i64) -> Result<u16, Refusal>
    ensures is { result ≡ yellow_at speed grade }
    ensures refuses { Refuses speed grade result }
    ensures least { InRange speed grade → IsOkAnd result (LeastEnough speed grade) }
    ensures fits { InRange speed grade → IsOkAnd result Fits }
    ensures upward { InRange speed grade → IsOkAnd result (NeverGrows speed grade) }
    ensures faster { InRange speed grade → IsOkAnd result (NeverFalls speed grade) }
{
    if speed_in(speed) && grade_in(grade) {
        return Ok(ticks(speed, grade));
    }
    Err(Refusal::BadApproach)
}

// The yellow given, in ticks: 0 where it is refused.
pub fn ticks_given(yellow: Result<u16, Refusal>) -> u16
    ensures { result ≡ ticks_given yellow }
{
    yellow.unwrap_or(0)
}
