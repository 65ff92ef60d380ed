// What a command wishes, and which command rules.
ghost use Rattle.std.specs.Prelude.{◌≡◌};
ghost use Rattle.wanted.specs.Wish.{kind_of, planned_of, ruling_of, source_of, level_choice, measured_choice, responsive_choice, choice_of};

use inputs::Command;
use levels::Measures;
use numbers::Rows;
use period::Periods;

// What is wanted of the group.
#[derive(Clone, Copy)]
pub enum Wish {
    Dark,
    Green,
    // at a rate in vehicles an hour per lane
    Metering(u16),
    Clear,
}

// Who wishes it: the technician, the control centre, or the plan, also where no entry is in force.
#[derive(Clone, Copy)]
pub enum Source {
    Manual,
    Centre,
    Plan,
}

// A wish, and the place from 1 of the level that decided it, or 0.
#[derive(Clone, Copy)]
pub struct Choice {
    pub level: u16,
    pub wish: Wish,
}

// An entry's mode as a command's kind.
fn kind_of(mode: u16) -> u16
    ensures { result ≡ kind_of mode }
{
    if mode < 3 {
        mode + 1
    } else {
        inputs::RESPONSIVE
    }
}

// The entry in force as a command; dark with none.
pub fn planned(rows: &[u16], place: u16) -> Command
    ensures { result ≡ planned_of rows.now place }
{
    if place == 0 {
        return Command {
            kind: inputs::DARK,
            rate: 0,
            table: 0,
        };
    }
    let e = plan::entry_at(rows, place - 1);
    Command {
        kind: kind_of(e.mode),
        rate: e.rate,
        table: e.table,
    }
}

// Who rules: the technician, else the control centre, else the plan.
pub fn source_of(manual: Command, centre: Command) -> Source
    ensures { result ≡ source_of manual centre }
{
    if manual.kind != inputs::NONE {
        return Source::Manual;
    }
    if centre.kind != inputs::NONE {
        return Source::Centre;
    }
    Source::Plan
}

// The command of who rules.
pub fn ruling(source: Source, manual: Command, centre: Command, planned: Command) -> Command
    ensures { result ≡ ruling_of source manual centre planned }
{
    match source {
        Source::Manual => manual,
        Source::Centre => centre,
        Source::Plan => planned,
    }
}

fn level_choice(rows: &[u16], place: u16) -> Choice
    ensures { result ≡ level_choice rows.now place }
{
    if place == 0 {
        return Choice {
            level: 0,
            wish: Wish::Clear,
        };
    }
    let l = levels::level_at(rows, place - 1);
    Choice {
        level: place,
        wish: Wish::Metering(l.rate),
    }
}

fn measured_choice(c: Command, levels: Rows, measured: Option<Measures>) -> Choice
    ensures { result ≡ measured_choice c levels.entry.numbers.now levels.entry.count measured }
{
    match measured {
        None => Choice {
            level: 0,
            wish: Wish::Metering(c.rate),
        },
        Some(q) => level_choice(levels.numbers, levels::deciding(levels, c.table, q)),
    }
}

fn responsive_choice(c: Command, levels: Rows, m: u16, p: Periods) -> Choice
    ensures { result ≡ responsive_choice c levels.entry.numbers.now levels.entry.count m p }
{
    if p.serial == 0 {
        return Choice {
            level: 0,
            wish: Wish::Clear,
        };
    }
    measured_choice(c, levels, levels::measured_on(p.last, m))
}

// What a command wishes at a site with these levels and m mainline lanes.
pub fn chosen(c: Command, levels: Rows, m: u16, p: Periods) -> Choice
    ensures { result ≡ choice_of c levels.entry.numbers.now levels.entry.count m p }
{
    if c.kind == inputs::GREEN {
        return Choice {
            level: 0,
            wish: Wish::Green,
        };
    }
    if c.kind == inputs::FIXED {
        return Choice {
            level: 0,
            wish: Wish::Metering(c.rate),
        };
    }
    if c.kind == inputs::RESPONSIVE {
        return responsive_choice(c, levels, m, p);
    }
    Choice {
        level: 0,
        wish: Wish::Dark,
    }
}
