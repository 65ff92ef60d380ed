// Document 02's tick record: a tick in two-byte numbers, in five sections each behind its count.
#![tactic(auto)]

ghost use Rattle.std.specs.Prelude.{◌≡◌, ◌+◌, ◌*◌, ◌<◌, length, get_or};
ghost use Rattle.numbers.specs.Words.{words};
ghost use Rattle.tick_record.specs.Record.{record_size, mainline_count, calls_count, commands_count, counts_right, is_record, record_input};

use tick::Input;
use timings::Shape;

// The counts that are the same at every site: of the clock's numbers, the calls and the commands.
const CLOCK_NUMBERS: u16 = 5;

const CALLS: u16 = 2;

const COMMANDS: u16 = 2;

// The places of the first two counts.
const CLOCK: usize = 0;

const METERED: usize = 6;

// How many numbers a metered lane, a mainline lane, the calls and a command have.
const METERED_WIDTH: usize = 2;

const MAINLINE_WIDTH: usize = 4;

const CALLS_WIDTH: usize = 2;

const COMMAND_WIDTH: usize = 3;

// The places of the other counts.
fn mainline_count(n: u16) -> usize
    ensures { result ≡ mainline_count n }
{
    METERED + 1 + METERED_WIDTH * (n as usize)
}

fn calls_count(shape: Shape) -> usize
    ensures { result ≡ calls_count shape.lanes shape.mainline }
{
    mainline_count(shape.lanes) + 1 + MAINLINE_WIDTH * (shape.mainline as usize)
}

fn commands_count(shape: Shape) -> usize
    ensures { result ≡ commands_count shape.lanes shape.mainline }
{
    calls_count(shape) + 1 + CALLS_WIDTH
}

// How many numbers the record at a site of this shape has.
fn count(shape: Shape) -> usize
    ensures { result * 2 ≡ record_size shape.lanes shape.mainline }
{
    commands_count(shape) + 1 + 2 * COMMAND_WIDTH
}

// How many bytes it has.
pub fn size(shape: Shape) -> usize
    ensures { result ≡ record_size shape.lanes shape.mainline }
{
    count(shape) * 2
}

// The i-th number of a record. The caller has seen that it has as many.
fn word_at(bytes: &[u8], i: usize) -> u16
    requires { i * 2 + 1 < length bytes.now }
    ensures { result ≡ get_or (words bytes.now) i 0 }
{
    let high = bytes[i * 2] as u16;
    let low = bytes[i * 2 + 1] as u16;
    high * 256 + low
}

// Whether each count among a record's numbers is what it should be.
fn counts_right(bytes: &[u8], shape: Shape) -> bool
    requires { length bytes.now ≡ record_size shape.lanes shape.mainline }
    ensures { result ≡ counts_right (words bytes.now) shape.lanes shape.mainline }
{
    let clock = word_at(bytes, CLOCK);
    let metered = word_at(bytes, METERED);
    let mainline = word_at(bytes, mainline_count(shape.lanes));
    let calls = word_at(bytes, calls_count(shape));
    let commands = word_at(bytes, commands_count(shape));
    (clock == CLOCK_NUMBERS)
        & ((metered == shape.lanes)
            & ((mainline == shape.mainline) & ((calls == CALLS) & (commands == COMMANDS))))
}

// Whether bytes are a record, at a site of this shape.
pub fn is_record(bytes: &[u8], shape: Shape) -> bool
    ensures { result ≡ is_record bytes.now shape.lanes shape.mainline }
{
    if bytes.len() != size(shape) {
        return false;
    }
    counts_right(bytes, shape)
}

// The tick of a record. The caller has seen that it is one.
pub fn input_of(bytes: &[u8], shape: Shape) -> Input
    requires { length bytes.now ≡ record_size shape.lanes shape.mainline }
    ensures { result ≡ record_input bytes.now shape.lanes shape.mainline }
{
    let main = mainline_count(shape.lanes);
    let calls = calls_count(shape);
    let commands = commands_count(shape);
    let number = |i: usize| word_at(bytes, i);
    Input {
        clock: tick_row::clock_of(&number, CLOCK + 1),
        lanes: tick_row::metered_of(&number, shape.lanes, METERED + 1),
        main: tick_row::mainline_of(&number, shape.mainline, main + 1),
        calls: tick_row::calls_of(&number, calls + 1),
        manual: tick_row::command_of(&number, commands + 1),
        centre: tick_row::command_of(&number, commands + 1 + COMMAND_WIDTH),
    }
}
