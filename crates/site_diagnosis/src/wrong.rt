// What is wrong with a section. Its count is number q of the file.
ghost use Rattle.std.specs.Prelude.{◌≡◌, true, ◌+◌, ◌≤◌, ◌<◌, length, get_or, Err};
ghost use Rattle.text.specs.Put.{farthest};
ghost use Rattle.text.specs.Puts.{Puts};
ghost use Rattle.numbers.specs.Words.{words};
ghost use Rattle.ranges.specs.Sections.{allowed_of, size_of, most_of};
ghost use Rattle.site.specs.Reading.{numbers_of, section_of};
ghost use Rattle.site_diagnosis.specs.Wrong.{missing_text, count_text, unused_text, out_of_range_text, bad_number_text, wrong_text};

use crate::names;
use ranges::Section;
use refusals::Refusal;
use site::Misread;
use text::Text;

// The first number that is not whole there.
fn put_missing(out: &mut Text, section: Section, file: &[u8], q: usize)
    ensures { Puts out.old (missing_text section (words file.now) q) out.new }
{
    let total = file.len() / 2;
    if total <= q {
        out.put(b"the count of ");
        names::put_rows(out, section);
        return out.put(b" is missing");
    }
    names::put_number(out, section, total - q - 1);
    out.put(b" is missing");
}

// A count that is not allowed.
fn put_count(out: &mut Text, section: Section, count: u16)
    ensures { Puts out.old (count_text section count) out.new }
{
    out.put_decimal(count as u64);
    out.put_byte(b' ');
    names::put_rows(out, section);
    let counts = ranges::counts(section);
    phrases::put_allowed(out, counts.low as u64, counts.high as u64);
}

// The words behind the range of a number that may be unused.
fn put_unused(out: &mut Text, section: Section, i: usize)
    ensures { Puts out.old (unused_text section i) out.new }
{
    if ranges::may_be_unused(section, i) {
        out.put(b" or ");
        return out.put_decimal(ranges::UNUSED as u64);
    }
}

// Number i of a section's numbers, with the range that it is not in.
fn put_out_of_range(out: &mut Text, section: Section, v: &[u16], i: usize)
    requires { i < farthest }
    ensures { Puts out.old (out_of_range_text section v.now i) out.new }
{
    names::put_number(out, section, i);
    let range = ranges::range_at(section, v, i);
    let x = numbers::number_at(v, i);
    phrases::put_not_allowed(out, x as u64, range.low as u64, range.high as u64);
    put_unused(out, section, i);
}

// The first of a section's numbers that is not allowed.
fn put_bad_number(out: &mut Text, section: Section, v: &[u16])
    ensures { Puts out.old (bad_number_text section v.now) out.new }
{
    put_out_of_range(out, section, v, ranges::first_bad(section, v));
}

// The same of a section that is whole in the file. Its numbers are put over the front of v.
fn put_bad_number_in(out: &mut Text, section: Section, file: &[u8], q: usize, v: &mut [u16])
    requires { (most_of section ≤ length v.old) × (allowed_of section (get_or (words file.now) q 0) ≡ true) × (q + 1 + size_of section (get_or (words file.now) q 0) ≤ length (words file.now)) }
    ensures { Puts out.old (bad_number_text section (numbers_of section (words file.now) q)) out.new }
{
    let n = ranges::size(section, numbers::word(file, q));
    numbers::load(file, q + 1, &mut v[..n]);
    put_bad_number(out, section, &v[..n]);
}

// What is wrong with a section that is refused.
pub fn put_wrong(out: &mut Text, section: Section, file: &[u8], q: usize, misread: Misread)
    requires { section_of section (length file.now) (words file.now) q ≡ Err misread }
    ensures { Puts out.old (wrong_text section (words file.now) q misread.refusal) out.new }
{
    match misread.refusal {
        Refusal::ShortFile => put_missing(out, section, file, q),
        Refusal::WrongCount => put_count(out, section, numbers::word(file, q)),
        _ => {
            let mut v = [0u16; ranges::MOST_LEVEL_NUMBERS];
            put_bad_number_in(out, section, file, q, &mut v)
        }
    }
}
