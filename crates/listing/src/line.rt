// One entry's line in the timetable.
ghost use Rattle.text.specs.Puts.{Puts};
ghost use Rattle.listing.specs.Timetable.{line_of, line_if};

use plan::Entry;
use text::Text;

fn put_line(out: &mut Text, day: u16, e: Entry, filed: u64)
    ensures { Puts out.old (line_of day e filed) out.new }
{
    phrases::put_day_name(out, day);
    out.put_byte(b' ');
    entry_text::put_timed(out, e);
    phrases::put_blank_and_decimal(out, filed);
    out.put_byte(b'\n');
}

// The entry's line, if it is one of that day and starts at that minute.
pub fn put_line_if(out: &mut Text, day: u16, minute: u16, e: Entry, filed: u64)
    ensures { Puts out.old (line_if day minute e filed) out.new }
{
    if !plan::on_day(e.days, day) {
        return;
    }
    if e.start != minute {
        return;
    }
    put_line(out, day, e, filed);
}
