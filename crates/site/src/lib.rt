// The site record, and the check for a record that no file could give.
#![tactic(auto)]

ghost use Rattle.std.specs.Prelude.{◌≡◌, ◌≤◌, length};
ghost use Rattle.ranges.specs.Sections.{most_of};
ghost use Rattle.ranges.specs.declared.Section.TheVariants.{Entries};
ghost use Rattle.site.specs.Record.{spoilt_of, spoilt_site};
ghost use Rattle.site.specs.Named.{timings_of, shape_of};

use ranges::Section;
use refusals::Refusal;
use timings::{Shape, Timings};

// All of a site file. A section's rows stand one behind the other; those beyond its count are 0. Arrays with a count, and no lists: there
// is no heap, and a record that no file could give is told by the check of a site (14).
#[derive(Clone, Copy)]
pub struct Site {
    // 17 timings
    pub timings: [u16; ranges::MOST_TIMING_NUMBERS],
    // how many plan entries, and their rows of 5: days, start, mode, rate, table
    pub entries: u16,
    pub plan: [u16; ranges::MOST_ENTRY_NUMBERS],
    // how many holidays, and their rows of 5: kind, month, day or week, weekday, Sunday move
    pub holidays: u16,
    pub dates: [u16; ranges::MOST_HOLIDAY_NUMBERS],
    // how many levels, and their rows of 5: table, flow, occupancy, speed, rate
    pub levels: u16,
    pub tables: [u16; ranges::MOST_LEVEL_NUMBERS],
}

// Why a file is not read, and where: its length, or the offset of the offending number or byte.
#[derive(Clone, Copy, PartialEq, Eq)]
pub struct Misread {
    pub refusal: Refusal,
    pub place: usize,
}

// A section of a file: its count, and the number behind it.
#[derive(Clone, Copy, PartialEq, Eq)]
pub struct Found {
    pub count: u16,
    pub next: usize,
}

// A site's timings by name.
#[tactic(auto, unfolding(crate::specs::Named::timings_of))]
pub fn timings_of(site: Site) -> Timings
    ensures { result ≡ timings_of site }
{
    Timings {
        lanes: site.timings[0],
        mode: site.timings[1],
        vehicles: site.timings[2],
        mingreen: site.timings[3],
        maxgreen: site.timings[4],
        yellow: site.timings[5],
        minred: site.timings[6],
        warning: site.timings[7],
        startgreen: site.timings[8],
        startyellow: site.timings[9],
        startred: site.timings[10],
        shutdown: site.timings[11],
        maxpregreen: site.timings[12],
        minpregreen: site.timings[13],
        mainline: site.timings[14],
        priority: site.timings[15],
        timeout: site.timings[16],
    }
}

// What a state at this site must fit.
pub fn shape_of(site: Site) -> Shape
    ensures { result ≡ shape_of site }
{
    let t = timings_of(site);
    Shape {
        lanes: t.lanes,
        mainline: t.mainline,
        priority: t.priority,
    }
}

// Whether these are no section's count and numbers, with 0 after them.
fn spoilt_section(section: Section, count: u16, v: &[u16]) -> bool
    requires { most_of section ≤ length v.now }
    ensures { result ≡ spoilt_of section count v.now }
{
    if !ranges::allowed(section, count) {
        return true;
    }
    let k = ranges::size(section, count);
    if ranges::first_bad(section, &v[..k]) < k {
        return true;
    }
    let zeros_beyond = ranges::all_zero(&v[k..]);
    !zeros_beyond
}

// Whether no file could give this plan: its rows, and how many entries.
pub fn spoilt_plan(plan: &[u16; ranges::MOST_ENTRY_NUMBERS], entries: u16) -> bool
    ensures { result ≡ spoilt_of Entries entries plan.now }
{
    spoilt_section(Section::Entries, entries, plan)
}

// Whether no file could give this record.
#[tactic(auto, unfolding(crate::specs::Record::spoilt_site))]
pub fn spoilt(site: Site) -> bool
    ensures { result ≡ spoilt_site site }
{
    spoilt_section(Section::Timings, ranges::TIMINGS, &site.timings)
        || spoilt_plan(&site.plan, site.entries)
        || spoilt_section(Section::Holidays, site.holidays, &site.dates)
        || spoilt_section(Section::Levels, site.levels, &site.tables)
}
