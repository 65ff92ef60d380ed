// What the clerk is told: which entries are dropped, and by which they are covered; or how many would remain.
ghost use Rattle.std.specs.Prelude.{◌≡◌, ◌++◌, length, drop};
ghost use Rattle.text.specs.Puts.{Puts};
ghost use Rattle.refusals.specs.declared.Refusal.TheVariants.{TooManyEntries};
ghost use Rattle.join_plans.specs.JoinedSite.{plan_of};
ghost use Rattle.join_plans.specs.Report.{filed_text, dropped_line, line_for, report_of, of_text, shares_text, too_many_text, remain_text, ShortNames};

use joining::PlanList;
use numbers::Rows;
use plan::Entry;
use refusals::Refusal;
use site::Site;
use text::Text;

// An entry, its file and its place there.
fn put_filed(out: &mut Text, e: Entry, name: &[u8], place: u64)
    ensures { Puts out.old (filed_text e name.now place) out.new }
{
    entry_text::put_entry(out, e);
    out.put(b" (");
    out.put(name);
    out.put(b", entry ");
    out.put_decimal(place);
    out.put_byte(b')');
}

// An entry that is dropped, and the one that covers it.
fn put_dropped(
    out: &mut Text,
    name: &[u8],
    e: Entry,
    place: u64,
    other: &[u8],
    by: Entry,
    there: u64,
)
    ensures { Puts out.old (dropped_line name.now e place other.now by there) out.new }
{
    out.put(b"dropped: ");
    put_filed(out, e, name, place);
    out.put(b", covered by ");
    put_filed(out, by, other, there);
    out.put_byte(b'\n');
}

// The line of entry i of the first list, if it is dropped.
fn put_line(out: &mut Text, name: &[u8], first: PlanList, other: &[u8], second: PlanList, i: u16)
    ensures { Puts out.old (line_for name.now first other.now second i) out.new }
{
    let e = plan::entry_at(&first.rows, i);
    let others = Rows {
        numbers: &second.rows,
        count: second.count,
    };
    let place = joining::covering(others, e);
    if place == 0 {
        return;
    }
    let by = plan::entry_at(&second.rows, place - 1);
    put_dropped(out, name, e, i as u64 + 1, other, by, place as u64);
}

// A line for each entry of the first list that is dropped.
pub fn put_report(out: &mut Text, name: &[u8], first: PlanList, other: &[u8], second: PlanList)
    ensures { Puts out.old (report_of name.now first other.now second) out.new }
{
    for i in 0..first.count {
        put_line(out, name, first, other, second, i);
    }
}

// Room for every report: 16 lines of 8341 bytes at the most, with names of 4096 bytes in each.
pub const REPORT_ROOM: usize = 133456;

// The same in a buffer with room for it: how many bytes it has.
pub fn fill_report(
    out: &mut [u8; REPORT_ROOM],
    name: &[u8],
    site: Site,
    other: &[u8],
    works: Site,
) -> usize
    requires { ShortNames name.now site other.now works }
    ensures count { result ≡ length (report_of name.now (plan_of site) other.now (plan_of works)) }
    ensures buffer { out.new ≡ report_of name.now (plan_of site) other.now (plan_of works) ++ drop result out.old }
{
    let mut text = Text::new(out);
    put_report(
        &mut text,
        name,
        crate::joined::plan_of(site),
        other,
        crate::joined::plan_of(works),
    );
    text.end
}

fn put_of(out: &mut Text, many: u16, name: &[u8])
    ensures { Puts out.old (of_text many name.now) out.new }
{
    out.put_decimal(many as u64);
    out.put(b" of ");
    out.put(name);
}

// So many are from each file.
fn put_shares(out: &mut Text, first: u16, name: &[u8], second: u16, other: &[u8])
    ensures { Puts out.old (shares_text first name.now second other.now) out.new }
{
    out.put(b" (");
    put_of(out, first, name);
    out.put(b", ");
    put_of(out, second, other);
    out.put(b")\n");
}

// So many of each file would remain.
fn put_too_many(
    out: &mut Text,
    refusal: Refusal,
    first: u16,
    name: &[u8],
    second: u16,
    other: &[u8],
)
    ensures { Puts out.old (too_many_text refusal first name.now second other.now) out.new }
{
    phrases::put_refused(out, refusal.number());
    phrases::put_opening(out, refusal.number());
    out.put_decimal(first as u64 + second as u64);
    out.put(b" would remain");
    phrases::put_allowed(out, 0, ranges::MOST_ENTRIES as u64);
    put_shares(out, first, name, second, other);
}

fn put_remaining(
    out: &mut Text,
    refusal: Refusal,
    name: &[u8],
    first: PlanList,
    other: &[u8],
    second: PlanList,
)
    ensures { Puts out.old (remain_text refusal name.now first other.now second) out.new }
{
    put_too_many(
        out,
        refusal,
        joining::remaining(first, second),
        name,
        second.count,
        other,
    );
}

// Room for these two lines: 8268 bytes at the most, with names of 4096 bytes.
pub const REMAINING_ROOM: usize = 8268;

// How many would remain, in a buffer with room for it: how many bytes it has. 17 is the refusal.
pub fn fill_remaining(
    out: &mut [u8; REMAINING_ROOM],
    refusal: Refusal,
    name: &[u8],
    site: Site,
    other: &[u8],
    works: Site,
) -> usize
    requires { (refusal ≡ TooManyEntries) × ShortNames name.now site other.now works }
    ensures count { result ≡ length (remain_text TooManyEntries name.now (plan_of site) other.now (plan_of works)) }
    ensures buffer { out.new ≡ remain_text TooManyEntries name.now (plan_of site) other.now (plan_of works) ++ drop result out.old }
{
    let mut text = Text::new(out);
    put_remaining(
        &mut text,
        refusal,
        name,
        crate::joined::plan_of(site),
        other,
        crate::joined::plan_of(works),
    );
    text.end
}
