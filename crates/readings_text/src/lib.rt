// The mainline lanes' readings as a line of text.
#![tactic(auto)]

ghost use Rattle.text.specs.Puts.{Puts};
ghost use Rattle.readings_text.specs.Line.{speed_text, case_text, lane_text, lanes_text, speeds_line};

use lane_speeds::Reading;
use readings::{LaneReading, Readings};
use text::Text;

// A speed behind a blank, in km/h with one decimal.
fn put_speed(out: &mut Text, x: f64)
    ensures { Puts out.old (speed_text x) out.new }
{
    let tenths = speed::tenths(x);
    phrases::put_blank_and_decimal(out, (tenths / 10) as u64);
    out.put_byte(b'.');
    out.put_decimal((tenths % 10) as u64);
}

// The letter of a reading's case behind a blank.
fn put_case(out: &mut Text, reading: Reading)
    ensures { Puts out.old (case_text reading) out.new }
{
    match reading {
        Reading::Absent => out.put(b" -"),
        Reading::Measured(_) => out.put(b" m"),
        Reading::Carried(_) => out.put(b" c"),
    }
}

// A lane's case and speed, and its latest and slowest speed of the period.
fn put_lane(out: &mut Text, l: LaneReading)
    ensures { Puts out.old (lane_text l) out.new }
{
    put_case(out, l.reading);
    put_speed(out, lane_speeds::speed_in(l.reading));
    put_speed(out, l.speeds.latest);
    put_speed(out, l.speeds.slowest);
}

// The first m lanes.
fn put_lanes(out: &mut Text, readings: Readings, m: u16)
    ensures { Puts out.old (lanes_text readings 0 m) out.new }
{
    for j in 0..m {
        put_lane(out, readings::lane_in(readings, j));
    }
}

// The line of the readings of m mainline lanes.
pub fn put_speeds(out: &mut Text, readings: Readings, m: u16)
    ensures { Puts out.old (speeds_line readings m) out.new }
{
    out.put(b"speeds");
    put_lanes(out, readings, m);
    out.put_byte(b'\n');
}
