// A list filled an entry at a time.
ghost use Rattle.std.specs.Prelude.{◌≡◌, ◌+◌, ◌≤◌, ◌<◌, []};
ghost use Rattle.ranges.specs.declared.Section.TheVariants.{Entries};
ghost use Rattle.ranges.specs.Sections.{greatest_of};
ghost use Rattle.joining.specs.Joining.{entries_of, kept, list_of};
ghost use Rattle.joining.specs.Filling.{with_entry, with_all};

use crate::PlanList;
use numbers::Rows;
use plan::Entry;

// A list without entries.
pub fn empty() -> PlanList
    ensures { result ≡ list_of [] }
{
    PlanList {
        rows: [0; ranges::MOST_ENTRY_NUMBERS],
        count: 0,
    }
}

// A list with one more entry at its end.
fn with_entry(list: PlanList, e: Entry) -> PlanList
    requires { list.count < greatest_of Entries }
    ensures { result ≡ with_entry list e }
{
    let mut rows = list.rows;
    let at = (list.count as usize) * ranges::ENTRY_WIDTH;
    rows[at] = e.days;
    rows[at + 1] = e.start;
    rows[at + 2] = e.mode;
    rows[at + 3] = e.rate;
    rows[at + 4] = e.table;
    PlanList {
        rows,
        count: list.count + 1,
    }
}

// The entries of the first list that none of the second covers.
pub fn keep(first: PlanList, second: PlanList) -> PlanList
    requires { first.count ≤ greatest_of Entries }
    ensures { result ≡ list_of (kept (entries_of first) (entries_of second)) }
{
    let others = Rows {
        numbers: &second.rows,
        count: second.count,
    };
    let mut list = empty();
    for i in 0..first.count {
        let e = plan::entry_at(&first.rows, i);
        if crate::covering(others, e) == 0 {
            list = with_entry(list, e);
        }
    }
    list
}

// A list with another's entries at its end.
pub fn append(list: PlanList, more: PlanList) -> PlanList
    requires { list.count + more.count ≤ greatest_of Entries }
    ensures { result ≡ with_all list (entries_of more) }
{
    let mut longer = list;
    for i in 0..more.count {
        let e = plan::entry_at(&more.rows, i);
        longer = with_entry(longer, e);
    }
    longer
}
