// What a site file's sections, rows and numbers are called.
ghost use Rattle.std.specs.Prelude.{◌<◌};
ghost use Rattle.text.specs.Put.{farthest};
ghost use Rattle.text.specs.Puts.{Puts};
ghost use Rattle.site_diagnosis.specs.Names.{rows_text, row_text, name_text, number_text};

use ranges::Section;
use text::Text;

// A section's rows.
pub fn put_rows(out: &mut Text, section: Section)
    ensures { Puts out.old (rows_text section) out.new }
{
    match section {
        Section::Timings => out.put(b"timings"),
        Section::Entries => out.put(b"plan entries"),
        Section::Holidays => out.put(b"holidays"),
        Section::Levels => out.put(b"levels"),
    }
}

// One of them: "plan entry" is not "plan entries" without its end.
fn put_row(out: &mut Text, section: Section)
    ensures { Puts out.old (row_text section) out.new }
{
    match section {
        Section::Timings => out.put(b"timing"),
        Section::Entries => out.put(b"plan entry"),
        Section::Holidays => out.put(b"holiday"),
        Section::Levels => out.put(b"level"),
    }
}

// The name of a section's number i.
fn put_name(out: &mut Text, section: Section, i: usize)
    ensures { Puts out.old (name_text section i) out.new }
{
    match section {
        Section::Timings => out.put_item(
            b"lanes,service mode,vehicles per green,minimum green,maximum green,yellow,minimum red,startup warning,startup green,startup yellow,startup red,shutdown red,maximum pre-metering green,minimum pre-metering green,mainline lanes,priority lane,bypass timeout",
            i,
        ),
        Section::Entries => out.put_item(
            b"days,start minute,mode,rate,level table",
            i % ranges::ENTRY_WIDTH,
        ),
        Section::Holidays => out.put_item(
            b"kind,month,day or week,weekday,Sunday move",
            i % ranges::HOLIDAY_WIDTH,
        ),
        Section::Levels => out.put_item(
            b"table,flow,occupancy,speed,rate",
            i % ranges::LEVEL_WIDTH,
        ),
    }
}

// A section's number i, by its row and its name.
pub fn put_number(out: &mut Text, section: Section, i: usize)
    requires { i < farthest }
    ensures { Puts out.old (number_text section i) out.new }
{
    put_row(out, section);
    phrases::put_blank_and_decimal(out, ranges::row(section, i) as u64 + 1);
    out.put(b", ");
    put_name(out, section, i);
}
