// The day type and the entry in force: one that has begun today or, where none has, the last of the most
// recent day that has one.
ghost use Rattle.std.specs.Prelude.{◌≡◌, true};
ghost use Rattle.calendar.specs.Dates.{is_date};
ghost use Rattle.calendar.specs.Holidays.{day_type_of};
ghost use Rattle.calendar.specs.Named.{Typed};
ghost use Rattle.plan.specs.InForce.{in_force_of};
ghost use Rattle.plan.specs.PastMidnight.{in_force_now, InForceNow};

use calendar::Date;
use numbers::Rows;

// The day type, 0 Sunday to 6 Saturday, 7 Holiday and 8 for no day; the place from 1 of the entry in force,
// 0 for none.
#[derive(Clone, Copy)]
pub struct DayAndEntry {
    pub day: u16,
    pub entry: u16,
}

// The same weekday last week is the last that is looked at.
const DAYS_BACK: u16 = 7;

// By then every entry of a day has begun.
const LAST_MINUTE: u16 = 1439;

// The place of the entry in force on this date, of this day type, at this minute.
fn in_force_now(plan: Rows, holidays: Rows, today: Date, day: u16, minute: u16) -> u16
    requires { day ≡ day_type_of today holidays.numbers.now holidays.count }
    ensures { result ≡ in_force_now (in_force_of plan.entry.numbers.now plan.entry.count) holidays.entry.numbers.now holidays.entry.count today minute }
{
    if day == calendar::NO_DAY {
        return 0;
    }
    let begun = crate::in_force(plan, day, minute);
    if begun != 0 {
        return begun;
    }
    let mut date = today;
    for _back in 0..DAYS_BACK {
        date = calendar::day_before(date);
        let day = calendar::day_type(date, holidays);
        if day == calendar::NO_DAY {
            return 0; // before 1 January 2000
        }
        let place = crate::in_force(plan, day, LAST_MINUTE);
        if place != 0 {
            return place;
        }
    }
    0
}

// The day type of a date and the entry in force there at this minute, at a site with this plan and these
// holidays.
pub fn day_and_entry(plan: Rows, holidays: Rows, today: Date, minute: u16) -> DayAndEntry
    ensures day { result.day ≡ day_type_of today holidays.entry.numbers.now holidays.entry.count }
    ensures named { is_date today ≡ true → Typed today holidays.entry.numbers.now holidays.entry.count result.day }
    ensures entry { result.entry ≡ in_force_now (in_force_of plan.entry.numbers.now plan.entry.count) holidays.entry.numbers.now holidays.entry.count today minute }
    ensures recent { is_date today ≡ true → InForceNow (in_force_of plan.entry.numbers.now plan.entry.count) holidays.entry.numbers.now holidays.entry.count today minute result.entry }
{
    let day = calendar::day_type(today, holidays);
    DayAndEntry {
        day,
        entry: in_force_now(plan, holidays, today, day, minute),
    }
}
