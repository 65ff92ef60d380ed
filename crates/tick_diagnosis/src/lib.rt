// Which number of a tick's input is out of range, in words.
#![tactic(auto)]

mod names;
mod number;

ghost use Rattle.text.specs.Puts.{Puts};
ghost use Rattle.tick_diagnosis.specs.Diagnosis.{place_text, out_of_range_text, number_line, diagnosis_line, Diagnosed};

use number::Number;
use text::Text;
use tick::Input;
use timings::Shape;

fn put_place(out: &mut Text, line: u64)
    ensures { Puts out.old (place_text line) out.new }
{
    out.put(b" (line ");
    out.put_decimal(line);
    out.put(b")\n");
}

// A number with the range that it is not in.
fn put_out_of_range(out: &mut Text, x: Number)
    ensures { Puts out.old (out_of_range_text x) out.new }
{
    names::put_part(out, x.part);
    names::put_name(out, x.part, x.column);
    phrases::put_not_allowed(out, x.value, x.low, x.high);
}

// The line of a number that is out of range.
fn put_number(out: &mut Text, line: u64, x: Number)
    ensures { Puts out.old (number_line line x) out.new }
{
    phrases::put_opening(out, names::refusal_of(x.part).number());
    put_out_of_range(out, x);
    put_place(out, line);
}

// The line that says which number of a tick's input is out of range; no text where none is.
pub fn put_diagnosis(out: &mut Text, line: u64, shape: Shape, input: Input)
    ensures is { Puts out.old (diagnosis_line line shape input) out.new }
    ensures diagnosed { Diagnosed line shape input (diagnosis_line line shape input) }
{
    match number::first_bad(shape, input) {
        Some(x) => put_number(out, line, x),
        None => {}
    }
}
