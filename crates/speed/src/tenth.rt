// A speed in whole tenths of a km/h.
ghost use Rattle.std.specs.Prelude.{◌≡◌, ℕ, ◌*◌, ◌/◌};
ghost use Rattle.std.specs.Float.Ieee.{le};
ghost use Rattle.speed.specs.Speed.{speed_of, Timed};
ghost use Rattle.speed.specs.Tenths.{tenth, tenths_of};

// One more than the tenths of the greatest speed, 21960 km/h.
const TOO_MANY: u32 = 219601;

// Whether a speed is at or above so many tenths.
fn reaches(x: f64, k: u32) -> bool
    ensures { result ≡ le (tenth k) x }
{
    k as f64 / 10.0 <= x
}

// The greatest number of tenths, up to those of 21960 km/h, whose double a speed is not below; 0 if there is none. If the speed comes
// from counts, that is its exact quotient in tenths, rounded down.
pub fn tenths(x: f64) -> u32
    ensures is { result ≡ tenths_of x }
    ensures exact { (v ms : ℕ) → Timed v ms → x ≡ speed_of v ms → result ≡ 219600 * v / ms }
{
    let mut lo: u32 = 0;
    let mut hi: u32 = TOO_MANY;
    // halves what is left to search
    while 1 < hi - lo {
        let k = lo + (hi - lo) / 2;
        if reaches(x, k) {
            lo = k;
        } else {
            hi = k;
        }
    }
    lo
}
