// What is wrong with a site file, in words.
#![tactic(auto)]

mod names;
mod wrong;

ghost use Rattle.std.specs.Prelude.{◌≡◌, length, Err};
ghost use Rattle.text.specs.Puts.{Puts};
ghost use Rattle.numbers.specs.Words.{words};
ghost use Rattle.site.specs.Reading.{section_of};
ghost use Rattle.site_diagnosis.specs.Diagnosis.{place_text, section_line, long_line, diagnosis_line, Diagnosed};

use ranges::Section;
use refusals::Refusal;
use site::Misread;
use text::Text;

fn put_place(out: &mut Text, name: &[u8], place: usize)
    ensures { Puts out.old (place_text name.now place) out.new }
{
    out.put(b" (");
    out.put(name);
    out.put(b", byte ");
    out.put_decimal(place as u64);
    out.put(b")\n");
}

// The line of a section that is refused. Its count is number q of the file.
fn put_section(
    out: &mut Text,
    name: &[u8],
    section: Section,
    file: &[u8],
    q: usize,
    misread: Misread,
)
    requires { section_of section (length file.now) (words file.now) q ≡ Err misread }
    ensures { Puts out.old (section_line name.now section (words file.now) q misread) out.new }
{
    phrases::put_opening(out, misread.refusal.number());
    wrong::put_wrong(out, section, file, q, misread);
    put_place(out, name, misread.place);
}

// The line of a file with bytes behind its levels.
fn put_long(out: &mut Text, name: &[u8], place: usize)
    ensures { Puts out.old (long_line name.now place) out.new }
{
    phrases::put_opening(out, Refusal::LongFile.number());
    out.put(b"nothing may follow the levels");
    put_place(out, name, place);
}

// The line that says what is wrong with the site file of that name; no text where it is accepted.
pub fn put_diagnosis(out: &mut Text, name: &[u8], file: &[u8])
    ensures is { Puts out.old (diagnosis_line name.now file.now) out.new }
    ensures diagnosed { Diagnosed name.now file.now (diagnosis_line name.now file.now) }
{
    let t = match site_reader::find_section(file, Section::Timings, 0) {
        Ok(found) => found,
        Err(misread) => return put_section(out, name, Section::Timings, file, 0, misread),
    };
    let e = match site_reader::find_section(file, Section::Entries, t.next) {
        Ok(found) => found,
        Err(misread) => return put_section(out, name, Section::Entries, file, t.next, misread),
    };
    let h = match site_reader::find_section(file, Section::Holidays, e.next) {
        Ok(found) => found,
        Err(misread) => return put_section(out, name, Section::Holidays, file, e.next, misread),
    };
    let l = match site_reader::find_section(file, Section::Levels, h.next) {
        Ok(found) => found,
        Err(misread) => return put_section(out, name, Section::Levels, file, h.next, misread),
    };
    let end = l.next * 2;
    if end != file.len() {
        return put_long(out, name, end);
    }
}
