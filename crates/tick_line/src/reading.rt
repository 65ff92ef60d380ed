// The tick of a line's numbers, or why it is none.
ghost use Rattle.std.specs.Prelude.{◌≡◌, List, ℕ, ◌^◌, ◌<◌, length};
ghost use Rattle.tick_line.specs.Scan.{line_start, scanned, closed};
ghost use Rattle.tick_line.specs.Reading.{words_wanted, counted, verdict_of, is_tick, tick_read};
ghost use Rattle.tick_line.specs.Words.{line_read};

use crate::scan;
use crate::scan::{Scan, Stage};
use tick::Input;
use timings::Shape;

// Whether a line is a tick, and if not, why: how many numbers it has and how many are wanted; or
// which word is no number, above its most, or empty.
#[derive(Clone, Copy)]
pub enum Verdict {
    Tick,
    Count(u64, u64),
    NoNumber(u64),
    Above(u64),
    Empty(u64),
}

// The verdict, and the line's tick; zeros where it is none. Both stand side by side in each line's
// answer, by replay_lines/specs/Replay.antt, so that this is no Result.
#[derive(Clone, Copy)]
pub struct ReadLine {
    pub verdict: Verdict,
    pub input: Input,
}

// How many numbers a line has: the tenth is one, and two of a row.
fn words_wanted(shape: Shape) -> u64
    ensures { result ≡ words_wanted shape.lanes shape.mainline }
{
    (tick_row::row_size(shape) - 1) as u64
}

fn counted(words: u64, wanted: u64) -> Verdict
    ensures { result ≡ counted words wanted }
{
    if words == wanted {
        return Verdict::Tick;
    }
    Verdict::Count(words, wanted)
}

fn verdict_of(stage: Stage, words: u64, wanted: u64) -> Verdict
    ensures { result ≡ verdict_of stage words wanted }
{
    let word = scan::one_more(words);
    match stage {
        Stage::NoNumber => Verdict::NoNumber(word),
        Stage::Above => Verdict::Above(word),
        Stage::Empty => Verdict::Empty(word),
        Stage::Between => counted(words, wanted),
        Stage::Number => counted(words, wanted),
        Stage::Blanks => counted(words, wanted),
    }
}

pub fn is_tick(verdict: Verdict) -> bool
    ensures { result ≡ is_tick verdict }
{
    match verdict {
        Verdict::Tick => true,
        _ => false,
    }
}

// The tick of a line's numbers at a site of this shape.
fn tick_read(s: Scan, shape: Shape) -> ReadLine
    ensures { result ≡ tick_read s shape.lanes shape.mainline }
{
    let verdict = verdict_of(s.stage, s.words, words_wanted(shape));
    if is_tick(verdict) {
        return ReadLine {
            verdict,
            input: tick_row::input_of(&s.row, shape),
        };
    }
    let row = [0u16; tick_row::LONGEST_ROW];
    let none = Shape {
        lanes: 0,
        mainline: 0,
        priority: 0,
    };
    ReadLine {
        verdict,
        input: tick_row::input_of(&row, none),
    }
}

// What is read of a line that ends here, at a site of this shape: of any line whose bytes led here,
// shorter than 2^64, what its words say.
pub fn read(s: Scan, shape: Shape) -> ReadLine
    ensures is { result ≡ tick_read (closed s) shape.lanes shape.mainline }
    ensures words { (line : List ℕ) → length line < 2 ^ 64 → s ≡ scanned line line_start → result ≡ line_read line shape.lanes shape.mainline }
{
    tick_read(scan::closed(s), shape)
}
