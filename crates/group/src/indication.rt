// What the lamps show.
ghost use Rattle.std.specs.Prelude.{◌≡◌};
ghost use Rattle.group.specs.Indications.{colour_shown, lower_shown, sign_shown, lane_shown, indications_of, all_dark};

use crate::Group;
use crate::interval::{
    CLOSING, DARK, INITIALIZATION, METERING, PRE_GREEN, SHUTDOWN_RED, STARTUP_GREEN, STARTUP_RED,
    STARTUP_YELLOW, WARNING,
};
use lanes::{GREEN, RED, YELLOW};

// Each lane's colour, 0 dark, 1 red, 2 yellow, 3 green; its lower green and the warning sign, 0 off,
// 1 on.
#[derive(Clone, Copy)]
pub struct Indications {
    pub colours: [u16; 4],
    pub lower: [u16; 4],
    pub sign: u16,
}

// A lane's colour in an interval; in 7 and 8 its own.
fn colour_shown(interval: u16, own: u16) -> u16
    ensures { result ≡ colour_shown interval own }
{
    match interval {
        INITIALIZATION => 0,
        DARK => 0,
        PRE_GREEN => GREEN,
        WARNING => GREEN,
        STARTUP_GREEN => GREEN,
        STARTUP_YELLOW => YELLOW,
        STARTUP_RED => RED,
        METERING => own,
        CLOSING => own,
        SHUTDOWN_RED => RED,
        _ => 0,
    }
}

fn lower_shown(colour: u16) -> u16
    ensures { result ≡ lower_shown colour }
{
    if colour == YELLOW {
        return 1;
    }
    if colour == GREEN {
        return 1;
    }
    0
}

fn sign_shown(interval: u16) -> u16
    ensures { result ≡ sign_shown interval }
{
    if interval < WARNING { 0 } else { 1 }
}

fn lane_shown(g: Group, n: u16, i: u16) -> u16
    ensures { result ≡ lane_shown g n i }
{
    if n <= i {
        return 0;
    }
    let lane = lanes::lane_at(g.lanes, i);
    colour_shown(g.interval, lane.colour)
}

// The lamps of a group of n lanes.
pub fn shown(g: Group, n: u16) -> Indications
    ensures { result ≡ indications_of g n }
{
    let a = lane_shown(g, n, 0);
    let b = lane_shown(g, n, 1);
    let c = lane_shown(g, n, 2);
    let d = lane_shown(g, n, 3);
    Indications {
        colours: [a, b, c, d],
        lower: [
            lower_shown(a),
            lower_shown(b),
            lower_shown(c),
            lower_shown(d),
        ],
        sign: sign_shown(g.interval),
    }
}

// All lamps off.
pub fn all_dark() -> Indications
    ensures { result ≡ all_dark }
{
    Indications {
        colours: [0u16; 4],
        lower: [0u16; 4],
        sign: 0,
    }
}
