// The words of a line, byte by byte.
ghost use Rattle.std.specs.Prelude.{◌≡◌, ◌≤◌};
ghost use Rattle.tick_line.specs.Scan.{one_more, line_start, in_stage, in_number, after_digit, after_blank, after_other, most_of, place_of, with_number, with_digit, ended, with_blank, with_return, with_other, with_byte, after_byte, closed};

// The largest tenth, and the largest of the other numbers.
const MOST_TENTH: u64 = 4294967295;

const MOST: u64 = 65535;

// The tenth is the fourth word, behind three others; its halves have the row's places 3 and 4.
const TENTH_WORD: u64 = 4;

const BEFORE_TENTH: u64 = 3;

const HALF: u64 = 65536;

const MOST_COUNTED: u64 = 18446744073709551615;

// Where a line's bytes so far end.
#[derive(Clone, Copy)]
pub enum Stage {
    // before a word: at the line's start, or one blank behind a number
    Between,
    // within a word, of digits alone
    Number,
    // at one more blank: the line's end, or an empty word
    Blanks,
    // behind a word that is no number, is above its most, or is empty
    NoNumber,
    Above,
    Empty,
}

#[derive(Clone, Copy)]
pub struct Scan {
    pub stage: Stage,
    // whether the last byte was a carriage return, which may belong to the line's end
    pub returned: bool,
    // the present number's value so far
    pub value: u64,
    // how many numbers stand before it, and the tick's row with them
    pub words: u64,
    pub row: [u16; tick_row::LONGEST_ROW],
}

// One more, or the largest number that there is.
pub fn one_more(count: u64) -> u64
    ensures { result ≡ one_more count }
{
    if count == MOST_COUNTED {
        count
    } else {
        count + 1
    }
}

// Before the first byte of a line.
pub fn line_start() -> Scan
    ensures { result ≡ line_start }
{
    Scan {
        stage: Stage::Between,
        returned: false,
        value: 0,
        words: 0,
        row: [0u16; tick_row::LONGEST_ROW],
    }
}

fn in_stage(s: Scan, stage: Stage) -> Scan
    ensures { result ≡ in_stage s stage }
{
    Scan {
        stage,
        returned: false,
        ..s
    }
}

fn in_number(stage: Stage) -> bool
    ensures { result ≡ in_number stage }
{
    match stage {
        Stage::Number => true,
        _ => false,
    }
}

// What a byte does to a stage: those that it leaves as they are stand together.

fn after_digit(stage: Stage) -> Stage
    ensures { result ≡ after_digit stage }
{
    match stage {
        Stage::Between => Stage::Number,
        Stage::Blanks => Stage::Empty,
        _ => stage,
    }
}

fn after_blank(stage: Stage) -> Stage
    ensures { result ≡ after_blank stage }
{
    match stage {
        Stage::Between => Stage::Blanks,
        _ => stage,
    }
}

fn after_other(stage: Stage) -> Stage
    ensures { result ≡ after_other stage }
{
    match stage {
        Stage::Between | Stage::Number => Stage::NoNumber,
        Stage::Blanks => Stage::Empty,
        _ => stage,
    }
}

// The most that a word of a line may be.
pub fn most_of(word: u64) -> u64
    ensures { result ≡ most_of word }
{
    if word == TENTH_WORD { MOST_TENTH } else { MOST }
}

// Where a number stands in the row.
fn place_of(words: u64) -> u64
    ensures { result ≡ place_of words }
{
    if words < BEFORE_TENTH {
        return words;
    }
    one_more(words)
}

// The row with one more number.
fn with_number(
    row: [u16; tick_row::LONGEST_ROW],
    words: u64,
    value: u64,
) -> [u16; tick_row::LONGEST_ROW]
    ensures { result ≡ with_number row words value }
{
    let mut filled = row;
    if words == BEFORE_TENTH {
        filled[3] = (value / HALF % HALF) as u16;
        filled[4] = (value % HALF) as u16;
        return filled;
    }
    let place = place_of(words) as usize;
    if place < tick_row::LONGEST_ROW {
        filled[place] = (value % HALF) as u16;
    }
    filled
}

fn with_digit(s: Scan, digit: u8) -> Scan
    ensures { result ≡ with_digit s digit }
{
    Scan {
        stage: after_digit(s.stage),
        returned: false,
        value: word_value::grown(s.value, digit),
        ..s
    }
}

// The end of a number.
fn ended(s: Scan) -> Scan
    ensures { result ≡ ended s }
{
    let word = one_more(s.words);
    if most_of(word) < s.value {
        return in_stage(s, Stage::Above);
    }
    Scan {
        stage: Stage::Between,
        returned: false,
        value: 0,
        words: word,
        row: with_number(s.row, s.words, s.value),
    }
}

fn with_blank(s: Scan) -> Scan
    ensures { result ≡ with_blank s }
{
    if in_number(s.stage) {
        return ended(s);
    }
    in_stage(s, after_blank(s.stage))
}

fn with_return(s: Scan) -> Scan
    ensures { result ≡ with_return s }
{
    Scan {
        returned: true,
        ..s
    }
}

// A byte that stands in no number.
fn with_other(s: Scan) -> Scan
    ensures { result ≡ with_other s }
{
    in_stage(s, after_other(s.stage))
}

// A byte that follows no carriage return.
fn with_byte(s: Scan, b: u8) -> Scan
    ensures { result ≡ with_byte s b }
{
    if b == b' ' {
        return with_blank(s);
    }
    if b == b'\r' {
        return with_return(s);
    }
    if b < b'0' {
        return with_other(s);
    }
    if b'9' < b {
        return with_other(s);
    }
    with_digit(s, b - 48)
}

// The line with one more of its bytes.
pub fn after_byte(s: Scan, b: u8) -> Scan
    ensures { result ≡ after_byte s b }
{
    if s.returned {
        return with_other(s);
    }
    with_byte(s, b)
}

// The end of the line.
pub fn closed(s: Scan) -> Scan
    ensures { result ≡ closed s }
{
    if in_number(s.stage) {
        return ended(s);
    }
    s
}
