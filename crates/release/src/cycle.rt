// The cycle of a metering rate, the only quotient that a tick's release needs, and the offset.
ghost use Rattle.std.specs.Prelude.{◌≡◌, ◌*◌, ◌≤◌, leb};
ghost use Rattle.release.specs.Cycle.{to_nearest, cycle_ticks, offset_ticks};
ghost use Rattle.release.specs.Nearest.{Nearest};

const TICKS_OF_AN_HOUR: u32 = 36000;

// a ÷ b to the nearest whole number, a half going up; by 0, 0.
fn to_nearest(a: u32, b: u16) -> u32
    ensures { result ≡ to_nearest a b }
{
    if b == 0 {
        return 0;
    }
    let b = b as u32;
    let down = a / b;
    let left = a % b;
    if 2 * left < b {
        return down;
    }
    down + 1
}

// The cycle in ticks of a metering rate, with so many vehicles per green: the nearest whole tick, a
// half going up; 0 for a rate of 0.
pub fn cycle_ticks(vehicles: u16, rate: u16) -> u32
    ensures is { result ≡ cycle_ticks vehicles rate }
    ensures nearest { 1 ≤ rate → Nearest (36000 * vehicles) rate result }
{
    to_nearest(TICKS_OF_AN_HOUR * (vehicles as u32), rate)
}

// Whether so many ticks since a group's last green start are its offset, cycle ÷ n, rounded up, or more:
// n times as many are a cycle or more, so that nothing is divided. Of no lanes it is 0, and up.
pub fn offset_is_up(cycle: u16, n: u16, ticks: u16) -> bool
    ensures { result ≡ leb (offset_ticks cycle n) ticks }
{
    if n == 0 {
        return true;
    }
    cycle as u32 <= (ticks as u32) * (n as u32)
}
