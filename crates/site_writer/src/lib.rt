// Writing a site file.
#![tactic(auto)]

ghost use Rattle.std.specs.Prelude.{◌≡◌, false, ◌++◌, ◌+◌, ◌*◌, ◌≤◌, ◌<◌, length, take, drop, Ok, IfOk, IsErrOf};
ghost use Rattle.std.proofs.lemmas.List.Edits.{sets};
ghost use Rattle.numbers.specs.Words.{bytes};
ghost use Rattle.ranges.specs.Sections.{size_of};
ghost use Rattle.site.specs.Record.{spoilt_site};
ghost use Rattle.site.specs.Reading.{longest_file, read_of};
ghost use Rattle.site.specs.Writing.{part_of, bytes_of, written_of, out_of};

use output::Written;
use ranges::Section;
use refusals::Refusal;
use site::Site;

// Writes a section after its count over dst from byte `at` on, and gives the byte behind it.
fn store_section(dst: &mut [u8], at: usize, section: Section, count: u16, v: &[u16]) -> usize
    requires { (size_of section count ≤ length v.now) × (at + 2 + size_of section count * 2 ≤ length dst.old) }
    ensures next { result ≡ at + (2 + size_of section count * 2) }
    ensures stored { dst.new ≡ sets dst.old at (bytes (part_of section count v.now)) }
{
    let k = ranges::size(section, count);
    numbers::store(dst, at, &[count]);
    numbers::store(dst, at + 2, &v[..k]);
    at + 2 + k * 2
}

// How many bytes the record's file has.
fn file_size(site: Site) -> usize
    requires { spoilt_site site ≡ false }
    ensures { result ≡ length (bytes_of site) }
{
    let entries = ranges::size(Section::Entries, site.entries);
    let holidays = ranges::size(Section::Holidays, site.holidays);
    let levels = ranges::size(Section::Levels, site.levels);
    42 + (entries + holidays + levels) * 2
}

// Writes the record's file over the front of out, and gives the byte behind it.
fn store_site(site: Site, out: &mut [u8]) -> usize
    requires { (spoilt_site site ≡ false) × (length (bytes_of site) ≤ length out.old) }
    ensures { (result ≡ length (bytes_of site)) × (out.new ≡ bytes_of site ++ drop (length (bytes_of site)) out.old) }
{
    let entries = store_section(out, 0, Section::Timings, ranges::TIMINGS, &site.timings);
    let holidays = store_section(out, entries, Section::Entries, site.entries, &site.plan);
    let levels = store_section(out, holidays, Section::Holidays, site.holidays, &site.dates);
    store_section(out, levels, Section::Levels, site.levels, &site.tables)
}

// Writes the record's file to the front of out. What is written reads back as that record. A buffer with
// room for the longest file is never too small.
pub fn write(site: Site, out: &mut [u8]) -> Written
    ensures answer { result ≡ written_of site out.old }
    ensures buffer { out.new ≡ out_of site out.old }
    ensures back { IfOk result (λ count. read_of (take count out.new) ≡ Ok site) }
    ensures room { IsErrOf result Refusal.SmallBuffer → length out.old < longest_file }
{
    if site::spoilt(site) {
        return Err(Refusal::SpoiltSite);
    }
    if out.len() < file_size(site) {
        return Err(Refusal::SmallBuffer);
    }
    Ok(store_site(site, out))
}
