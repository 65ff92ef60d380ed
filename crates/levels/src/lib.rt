// What the last completed period measured, and the level that decides.
#![tactic(auto)]

mod measure;

ghost use Rattle.std.specs.Prelude.{◌≡◌};
ghost use Rattle.levels.specs.Levels.{level_of, reaches_of, is_slow, is_met, decides, deciding_of, ListedLast};

pub use measure::{Measures, Totals, measured_on};
use numbers::Rows;

// One level of a level table.
#[derive(Clone, Copy)]
pub struct Level {
    pub table: u16,
    // per lane an hour, at or above
    pub flow: u16,
    // tenths of a percent, at or above
    pub occupancy: u16,
    // km/h, at or below
    pub speed: u16,
    // vehicles an hour per lane
    pub rate: u16,
}

// Level i of a site's rows, the first being 0; all 0 where there is none.
pub fn level_at(rows: &[u16], i: u16) -> Level
    ensures { result ≡ level_of rows.now i }
{
    let at = (i as usize) * ranges::LEVEL_WIDTH;
    Level {
        table: numbers::number_at(rows, at),
        flow: numbers::number_at(rows, at + 1),
        occupancy: numbers::number_at(rows, at + 2),
        speed: numbers::number_at(rows, at + 3),
        rate: numbers::number_at(rows, at + 4),
    }
}

// Whether a threshold is in use and a measure is at or above it.
fn reaches(threshold: u16, measure: u64) -> bool
    ensures { result ≡ reaches_of threshold measure }
{
    if threshold == ranges::UNUSED {
        return false;
    }
    threshold as u64 <= measure
}

// Whether a threshold is in use and a known speed is at or below it.
fn is_slow(threshold: u16, speed: Option<f64>) -> bool
    ensures { result ≡ is_slow threshold speed }
{
    match speed {
        None => false,
        Some(x) => threshold != ranges::UNUSED && speed::at_most(x, threshold),
    }
}

// Whether one of a level's thresholds in use is reached.
fn is_met(l: Level, q: Measures) -> bool
    ensures { result ≡ is_met l q }
{
    if reaches(l.flow, q.flow) {
        return true;
    }
    if reaches(l.occupancy, q.occupancy) {
        return true;
    }
    is_slow(l.speed, q.speed)
}

// Whether a level is of a table, and met.
fn decides_for(l: Level, table: u16, q: Measures) -> bool
    ensures { result ≡ decides l table q }
{
    if l.table != table {
        return false;
    }
    is_met(l, q)
}

// The place from 1 of the level of a table that decides, the one listed last among those met; 0 for
// none.
pub fn deciding(levels: Rows, table: u16, q: Measures) -> u16
    ensures is { result ≡ deciding_of levels.entry.numbers.now levels.entry.count table q }
    ensures last { ListedLast (λ j. decides (level_of levels.entry.numbers.now j) table q) levels.entry.count result }
{
    for i in (0..levels.count).rev() {
        if decides_for(level_at(levels.numbers, i), table, q) {
            return i + 1;
        }
    }
    0
}
