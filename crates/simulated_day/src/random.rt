// The random samples of a simulated day: the same on every run, and in docs/src/reference.
ghost use Rattle.std.specs.Prelude.{◌≤◌};

use inputs::{Mainline, Metered};

// The samples of one tick, and the generator behind them.
#[derive(Clone, Copy)]
pub struct Drawn {
    pub random: u32,
    pub lanes: Metered,
    pub main: Mainline,
}

// The next number of a Lehmer generator, below 2^31.
fn next(x: u32) -> u32 {
    ((x as u64) * 16807 % 2147483647) as u32
}

// Four numbers to 7.
fn four(x: u32) -> [u32; 4] {
    [x % 8, x / 8 % 8, x / 64 % 8, x / 512 % 8]
}

// Mostly 1.
fn demands(x: u32) -> [u16; 4] {
    four(x).map(|v| u16::from(v != 0))
}

// Mostly 0.
fn passages(x: u32) -> [u16; 4] {
    four(x / 4096).map(|v| u16::from(v == 0))
}

// Six numbers to 31, each so many times.
fn six(x: u32, times: u32) -> [u16; 6]
    requires { times ≤ 40 }
{
    [
        (x % 32 * times) as u16,
        (x / 32 % 32 * times) as u16,
        (x / 1024 % 32 * times) as u16,
        (x / 32768 % 32 * times) as u16,
        (x / 1048576 % 32 * times) as u16,
        (x / 33554432 % 32 * times) as u16,
    ]
}

// One of 2048 ticks finds a lane failing.
fn working(x: u32) -> [u16; 6] {
    [0, 1, 2, 3, 4, 5].map(|lane| u16::from(x / 1048576 != lane))
}

fn vehicles(x: u32) -> [u16; 6] {
    six(x, 1).map(|v| u16::from(v < 2))
}

// To 93 milliseconds.
fn occupied(x: u32) -> [u16; 6] {
    six(x, 3)
}

// To 1240 ms.
fn times(x: u32) -> [u16; 6] {
    six(x, 40)
}

// The samples of the next tick.
pub fn draw(random: u32) -> Drawn {
    let a = next(random);
    let b = next(a);
    let c = next(b);
    let d = next(c);
    Drawn {
        random: d,
        lanes: Metered {
            demand: demands(a),
            passage: passages(a),
        },
        main: Mainline {
            working: working(b),
            occupied: occupied(b),
            vehicles: vehicles(c),
            time: times(d),
        },
    }
}
