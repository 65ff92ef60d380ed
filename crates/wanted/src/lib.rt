// What is wanted at a clock, under two commands, after the periods so far.
#![tactic(auto)]

mod wish;

ghost use Rattle.std.specs.Prelude.{◌≡◌, ◌≤◌};
ghost use Rattle.wanted.specs.Wish.{rate_of};
ghost use Rattle.wanted.specs.Decision.{day_of, entry_in_force, decision_of, no_decision};

use calendar::Clock;
use inputs::Command;
use numbers::Rows;
use period::Periods;
use plan::DayAndEntry;
use site::Site;
pub use wish::{Source, Wish};

// The day type, 0 Sunday to 6 Saturday, 7 Holiday and 8 for no day; the places from 1 in the file of
// the entry in force and of the level that decided, 0 for none; who rules, and the wish.
#[derive(Clone, Copy)]
pub struct Decision {
    pub day: u16,
    pub entry: u16,
    pub source: Source,
    pub level: u16,
    pub wish: Wish,
}

// The rate of a wish; 0 for none.
pub fn rate_of(wish: Wish) -> u16
    ensures { result ≡ rate_of wish }
{
    match wish {
        Wish::Dark => 0,
        Wish::Green => 0,
        Wish::Metering(rate) => rate,
        Wish::Clear => 0,
    }
}

const TENTHS_OF_A_MINUTE: u32 = 600;

fn day_and_entry(site: Site, clock: Clock) -> DayAndEntry
    requires { clock.tenth ≤ 863999 }
    ensures day { result.day ≡ day_of site clock }
    ensures entry { result.entry ≡ entry_in_force site clock }
{
    plan::day_and_entry(
        Rows {
            numbers: &site.plan,
            count: site.entries,
        },
        Rows {
            numbers: &site.dates,
            count: site.holidays,
        },
        clock.date,
        (clock.tenth / TENTHS_OF_A_MINUTE) as u16,
    )
}

// What is decided at an accepted clock under accepted commands.
pub fn wanted_now(
    site: Site,
    clock: Clock,
    manual: Command,
    centre: Command,
    p: Periods,
) -> Decision
    requires { clock.tenth ≤ 863999 }
    ensures { result ≡ decision_of site clock manual centre p }
{
    let today = day_and_entry(site, clock);
    let source = wish::source_of(manual, centre);
    let planned = wish::planned(&site.plan, today.entry);
    let command = wish::ruling(source, manual, centre, planned);
    let shape = site::shape_of(site);
    let levels = Rows {
        numbers: &site.tables,
        count: site.levels,
    };
    let choice = wish::chosen(command, levels, shape.mainline, p);
    Decision {
        day: today.day,
        entry: today.entry,
        source,
        level: choice.level,
        wish: choice.wish,
    }
}

// Where nothing is decided: no day, no entry, dark.
pub fn no_decision() -> Decision
    ensures { result ≡ no_decision }
{
    Decision {
        day: calendar::NO_DAY,
        entry: 0,
        source: Source::Plan,
        level: 0,
        wish: Wish::Dark,
    }
}
