// What is kept of the last decision while the clock stays in one minute.
ghost use Rattle.std.specs.Prelude.{◌≡◌, true, false, cond, eqb, Some, None};
ghost use Rattle.site.specs.Record.{spoilt_site};
ghost use Rattle.site.specs.Named.{shape_of};
ghost use Rattle.wanted.specs.Decision.{minute_of};
ghost use Rattle.tick.specs.Checks.{input_refusal};
ghost use Rattle.tick.specs.Tick.{decided_of};
ghost use Rattle.many_ticks.specs.Known.{Asked, Holds};

use calendar::{Clock, Date};
use inputs::Command;
use period::Periods;
use site::Site;
use tick::{DecidedTick, Input};

// What was decided: on this date, in this minute of it and under these commands. It is kept until a period is completed.
#[derive(Clone, Copy)]
pub struct Known {
    pub date: Date,
    pub minute: u32,
    pub manual: Command,
    pub centre: Command,
    pub decided: DecidedTick,
}

const TENTHS_OF_A_MINUTE: u32 = 600;

fn minute_of(clock: Clock) -> u32
    ensures { result ≡ minute_of clock }
{
    clock.tenth / TENTHS_OF_A_MINUTE
}

// Whether an input surely asks what was asked: `false` costs time alone.
fn is_asked(known: Known, input: Input) -> bool
    ensures { result ≡ true → Asked known input }
{
    let day = input.clock.date == known.date;
    let minute = minute_of(input.clock) == known.minute;
    let manual = input.manual == known.manual;
    let centre = input.centre == known.centre;
    (day & minute) & (manual & centre)
}

// What an input decides, the tick counted.
fn decided_anew(site: Site, input: Input, counted: Periods) -> Known
    requires { (spoilt_site site ≡ false) × (input_refusal (shape_of site) input ≡ None) }
    ensures decided { result.decided ≡ decided_of site input counted }
    ensures holds { Holds site (Some result) counted }
{
    Known {
        date: input.clock.date,
        minute: minute_of(input.clock),
        manual: input.manual,
        centre: input.centre,
        decided: tick::decision_of(site, input, counted),
    }
}

// Whether what is known is what an input decides, the tick counted: it was asked, in the same open period.
fn is_known(known: Known, input: Input, counted: Periods) -> bool
    ensures { result ≡ true → (counted.ticks ≡ 0 → ⊥) × Asked known input }
{
    if counted.ticks == 0 {
        return false;
    }
    is_asked(known, input)
}

// What an input decides, the tick counted: what is known, where that was asked in the same open period, or what it decides anew. The one
// call that decides anew stands behind the test, so that the site is not moved before it.
pub fn decided_now(site: Site, input: Input, counted: Periods, known: Option<Known>) -> Known
    requires { (spoilt_site site ≡ false) × (input_refusal (shape_of site) input ≡ None) × ((counted.ticks ≡ 0 → ⊥) → Holds site known counted) }
    ensures decided { result.decided ≡ decided_of site input counted }
    ensures holds { Holds site (Some result) counted }
{
    if let Some(last) = known {
        if is_known(last, input, counted) {
            return last;
        }
    }
    decided_anew(site, input, counted)
}

// What is kept of it behind the tick: at the end of a period nothing.
pub fn kept_after(known: Known, counted: Periods) -> Option<Known>
    ensures { result ≡ cond (eqb counted.ticks 0) None (Some known) }
{
    if counted.ticks == 0 {
        return None;
    }
    Some(known)
}
