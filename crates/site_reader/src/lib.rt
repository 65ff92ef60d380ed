// Reading a site file.
#![tactic(auto)]

ghost use Rattle.std.specs.Prelude.{◌≡◌, false, List, ℕ, ◌≤◌, length, take, OnOk, IfOk};
ghost use Rattle.numbers.specs.Words.{words};
ghost use Rattle.ranges.specs.Sections.{most_of};
ghost use Rattle.site.specs.Record.{spoilt_site};
ghost use Rattle.site.specs.Reading.{filled_of, section_of, read_of};
ghost use Rattle.site.specs.Writing.{bytes_of};
ghost use Rattle.site_reader.specs.Given.{site_given};

use ranges::Section;
use refusals::Refusal;
use site::{Found, Misread, Site};

// The most numbers that a site file can have: a count and the most rows of each section.
const MOST_NUMBERS: usize = 4
    + ranges::MOST_TIMING_NUMBERS
    + ranges::MOST_ENTRY_NUMBERS
    + ranges::MOST_HOLIDAY_NUMBERS
    + ranges::MOST_LEVEL_NUMBERS;

// One byte more than the longest site file has.
pub const FRONT: usize = MOST_NUMBERS * 2 + 1;

// How many bytes of a file's front are enough: what reading them gives is what reading the file does.
pub fn front() -> usize
    ensures { (s : List ℕ) → read_of (take result s) ≡ read_of s }
{
    FRONT
}

// Checks the section whose count is number `at` of the file, and puts its numbers over the front
// of dst.
fn read_section(src: &[u8], section: Section, at: usize, dst: &mut [u16]) -> Result<Found, Misread>
    requires { most_of section ≤ length dst.old }
    ensures found { result ≡ section_of section (length src.now) (words src.now) at }
    ensures filled { OnOk result (dst.new ≡ filled_of section (words src.now) at dst.old) }
{
    let total = src.len() / 2;
    let short = Misread {
        refusal: Refusal::ShortFile,
        place: src.len(),
    };
    if total <= at {
        return Err(short);
    }
    let count = numbers::word(src, at);
    if !ranges::allowed(section, count) {
        return Err(Misread {
            refusal: Refusal::WrongCount,
            place: at * 2,
        });
    }
    let k = ranges::size(section, count);
    if total - at - 1 < k {
        return Err(short);
    }
    numbers::load(src, at + 1, &mut dst[..k]);
    let bad = ranges::first_bad(section, &dst[..k]);
    if bad < k {
        return Err(Misread {
            refusal: ranges::bad_number(section),
            place: (at + 1 + bad) * 2,
        });
    }
    Ok(Found {
        count,
        next: at + 1 + k,
    })
}

// What reading finds of the section whose count is number `at` of the file.
pub fn find_section(src: &[u8], section: Section, at: usize) -> Result<Found, Misread>
    ensures { result ≡ section_of section (length src.now) (words src.now) at }
{
    let mut numbers = [0u16; ranges::MOST_LEVEL_NUMBERS];
    read_section(src, section, at, &mut numbers)
}

// The record of a site file, or why it is refused and where. An accepted file is rewritten byte
// for byte: its record is not spoilt, and that record's file is the one that was read.
pub fn read(src: &[u8]) -> Result<Site, Misread>
    ensures is { result ≡ read_of src.now }
    ensures rewritten { IfOk result (λ site. (spoilt_site site ≡ false) × (bytes_of site ≡ src.now)) }
{
    let mut timings = [0u16; ranges::MOST_TIMING_NUMBERS];
    let t = read_section(src, Section::Timings, 0, &mut timings)?;
    let mut plan = [0u16; ranges::MOST_ENTRY_NUMBERS];
    let e = read_section(src, Section::Entries, t.next, &mut plan)?;
    let mut dates = [0u16; ranges::MOST_HOLIDAY_NUMBERS];
    let h = read_section(src, Section::Holidays, e.next, &mut dates)?;
    let mut tables = [0u16; ranges::MOST_LEVEL_NUMBERS];
    let l = read_section(src, Section::Levels, h.next, &mut tables)?;
    let end = l.next * 2;
    if end != src.len() {
        return Err(Misread {
            refusal: Refusal::LongFile,
            place: end,
        });
    }
    Ok(Site {
        timings,
        entries: e.count,
        plan,
        holidays: h.count,
        dates,
        levels: l.count,
        tables,
    })
}

// The site record that reading gave: of zeros where the file is refused.
pub fn site_given(read: Result<Site, Misread>) -> Site
    ensures { result ≡ site_given read }
{
    match read {
        Ok(site) => site,
        Err(_) => Site {
            timings: [0u16; ranges::MOST_TIMING_NUMBERS],
            entries: 0,
            plan: [0u16; ranges::MOST_ENTRY_NUMBERS],
            holidays: 0,
            dates: [0u16; ranges::MOST_HOLIDAY_NUMBERS],
            levels: 0,
            tables: [0u16; ranges::MOST_LEVEL_NUMBERS],
        },
    }
}
