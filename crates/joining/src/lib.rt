// Joining two plan lists, as a standing list and a roadworks list.
#![tactic(auto)]

mod filling;

ghost use Rattle.std.specs.Prelude.{◌≡◌, true, false, ℕ, length};
ghost use Rattle.joining.specs.Joining.{covers, covering_of, entries_of, kept, spoilt_list, joined_of, list_given};
ghost use Rattle.joining.specs.InWords.{Covers, LastCovering, Remain, Answers};
ghost use Rattle.joining.specs.EndToEnd.{IsAccepted, SameInForce};
ghost use Rattle.joining.specs.Decided.{SameDecisions};
ghost use Rattle.joining.specs.Ticked.{SameTicks};

use numbers::Rows;
use plan::Entry;
use refusals::Refusal;

// A plan's rows of 5 and how many there are, as a site record has them. Any numbers are taken: 14 is the answer to
// those that no file could give.
#[derive(Clone, Copy)]
pub struct PlanList {
    pub rows: [u16; ranges::MOST_ENTRY_NUMBERS],
    pub count: u16,
}

// The bits of the day types, Sunday to Saturday and Holiday.
const ALL_DAYS: u16 = 255;

// Whether the other has an entry's start and all its days.
pub fn covers(other: Entry, e: Entry) -> bool
    ensures is { result ≡ covers other e }
    ensures words { (result ≡ true → Covers other e) × (Covers other e → result ≡ true) }
{
    if other.start != e.start {
        return false;
    }
    let days = e.days & ALL_DAYS;
    let shared = days & other.days; // no more than these
    days <= shared
}

// The place from 1 of the last of a plan's entries that covers this one; 0 for none.
// (places are told as the plan's own calls tell them, and as the lines print them)
pub fn covering(plan: Rows, e: Entry) -> u16
    ensures is { result ≡ covering_of plan.entry.numbers.now e plan.entry.count }
    ensures words { LastCovering plan.entry.numbers.now plan.entry.count e result }
{
    for i in (0..plan.count).rev() {
        if covers(plan::entry_at(plan.numbers, i), e) {
            return i + 1;
        }
    }
    0
}

// How many entries of the first list would remain: those that none of the second covers.
pub fn remaining(first: PlanList, second: PlanList) -> u16
    ensures is { result ≡ length (kept (entries_of first) (entries_of second)) }
    ensures words { (from : ℕ → ℕ) × Remain first second result from }
{
    let others = Rows {
        numbers: &second.rows,
        count: second.count,
    };
    let mut many: u16 = 0;
    for i in 0..first.count {
        let e = plan::entry_at(&first.rows, i);
        if covering(others, e) == 0 {
            many += 1;
        }
    }
    many
}

// The first list's entries in filed order without those that one of the second covers, and then the
// second's. At every clock the list has the entry in force that the two laid end to end have.
pub fn join(first: PlanList, second: PlanList) -> Result<PlanList, Refusal>
    ensures is { result ≡ joined_of first second }
    ensures words { Answers first second result }
    ensures could_be_filed { spoilt_list (list_given result) ≡ false }
    ensures same_in_force { IsAccepted first second → SameInForce first second (list_given result) }
    ensures same_decisions { IsAccepted first second → SameDecisions first second (list_given result) }
    ensures same_ticks { IsAccepted first second → SameTicks first second (list_given result) }
{
    if site::spoilt_plan(&first.rows, first.count) {
        return Err(Refusal::SpoiltSite);
    }
    if site::spoilt_plan(&second.rows, second.count) {
        return Err(Refusal::SpoiltSite);
    }
    let kept = filling::keep(first, second);
    if ranges::MOST_ENTRIES < kept.count + second.count {
        return Err(Refusal::TooManyEntries);
    }
    Ok(filling::append(kept, second))
}

// The list given: an empty one where the pair is refused.
pub fn list_given(answer: Result<PlanList, Refusal>) -> PlanList
    ensures { result ≡ list_given answer }
{
    match answer {
        Ok(list) => list,
        Err(_) => filling::empty(),
    }
}
