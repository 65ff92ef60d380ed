// What the parts of a tick's input and their numbers are called, and the refusal of each part.
ghost use Rattle.std.specs.Prelude.{◌≡◌};
ghost use Rattle.text.specs.Puts.{Puts};
ghost use Rattle.tick_diagnosis.specs.Names.{refusal_of, lane_text, part_text, name_text};

use crate::number::Part;
use refusals::Refusal;
use text::Text;

pub fn refusal_of(part: Part) -> Refusal
    ensures { result ≡ refusal_of part }
{
    match part {
        Part::TheClock => Refusal::BadClock,
        Part::MeteredLane(_) => Refusal::BadSample,
        Part::MainlineLane(_) => Refusal::BadSample,
        Part::TheCalls => Refusal::BadSample,
        Part::Manual => Refusal::BadCommand,
        Part::Communications => Refusal::BadCommand,
    }
}

// A lane, counted from 1.
fn put_lane(out: &mut Text, name: &[u8], i: u16)
    ensures { Puts out.old (lane_text name.now i) out.new }
{
    out.put(name);
    phrases::put_blank_and_decimal(out, i as u64 + 1);
    out.put(b", ");
}

// Whose number it is.
pub fn put_part(out: &mut Text, part: Part)
    ensures { Puts out.old (part_text part) out.new }
{
    match part {
        Part::TheClock => {}
        Part::MeteredLane(i) => put_lane(out, b"metered lane", i),
        Part::MainlineLane(j) => put_lane(out, b"mainline lane", j),
        Part::TheCalls => {}
        Part::Manual => out.put(b"manual, "),
        Part::Communications => out.put(b"communications, "),
    }
}

// The name of a part's number.
pub fn put_name(out: &mut Text, part: Part, column: usize)
    ensures { Puts out.old (name_text part column) out.new }
{
    match part {
        Part::TheClock => out.put_item(b"year,month,day,tenth", column),
        Part::MeteredLane(_) => out.put_item(b"demand,passage", column),
        Part::MainlineLane(_) => out.put_item(b"working,occupied,vehicles,time", column),
        Part::TheCalls => out.put_item(b"preemption,bypass", column),
        Part::Manual => out.put_item(b"kind,rate,table", column),
        Part::Communications => out.put_item(b"kind,rate,table", column),
    }
}
