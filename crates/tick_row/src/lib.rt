// A tick as one row of numbers: clock, metered lanes, mainline lanes, calls, commands.
#![tactic(auto)]

ghost use Rattle.std.specs.Prelude.{◌≡◌, ◌≤◌, ◌<◌, ℕ, ◌+◌, ◌*◌, List, get_or};
ghost use Rattle.tick_row.specs.Row.{long_of, clock_of, of_lane, of_metered, metered_of, of_mainline, mainline_of, calls_of, command_of, mainline_at, calls_at, commands_at, input_of, row_size};

use calendar::{Clock, Date};
use inputs::{Calls, Command, Mainline, Metered};
use tick::Input;
use timings::Shape;

// The most numbers that a row has: those of four metered and six mainline lanes.
pub const LONGEST_ROW: usize = 45;

// Where the clock's numbers and, behind them, the metered lanes' begin.
const CLOCK: usize = 0;

const METERED: usize = 5;

// How many numbers a metered lane, a mainline lane, the calls and a command have.
const METERED_WIDTH: usize = 2;

const MAINLINE_WIDTH: usize = 4;

const CALLS_WIDTH: usize = 2;

const COMMAND_WIDTH: usize = 3;

// Where the mainline lanes' numbers begin.
fn mainline_at(n: u16) -> usize
    ensures { result ≡ mainline_at n }
{
    METERED + METERED_WIDTH * (n as usize)
}

// Where the calls begin.
fn calls_at(shape: Shape) -> usize
    ensures { result ≡ calls_at shape.lanes shape.mainline }
{
    mainline_at(shape.lanes) + MAINLINE_WIDTH * (shape.mainline as usize)
}

// Where the commands' numbers begin.
fn commands_at(shape: Shape) -> usize
    ensures { result ≡ commands_at shape.lanes shape.mainline }
{
    calls_at(shape) + CALLS_WIDTH
}

// How many numbers the row at a site of this shape has.
pub fn row_size(shape: Shape) -> usize
    ensures { result ≡ row_size shape.lanes shape.mainline }
{
    commands_at(shape) + 2 * COMMAND_WIDTH
}

// The number of two halves.
pub fn long_of(high: u16, low: u16) -> u32
    ensures { result ≡ long_of high low }
{
    (high as u32) * 65536 + (low as u32)
}

// The parts of a tick, each from a place on; `number` gives the number of a row at a place.

pub fn clock_of<F: Fn(usize) -> u16>(number: &F, p: usize) -> Clock
    requires place { p ≤ 1000000 }
    requires reads { (i : ℕ) → i < p + 5 → F.pre number.now i }
    ensures { (row : List ℕ) → ((i x : ℕ) → F.post number.now i x → x ≡ get_or row i 0) → result ≡ clock_of row p }
{
    Clock {
        date: Date {
            year: number(p),
            month: number(p + 1),
            day: number(p + 2),
        },
        tenth: long_of(number(p + 3), number(p + 4)),
    }
}

// A number of lane i, or 0 where there is no such lane.
fn of_lane<F: Fn(usize) -> u16>(number: &F, lanes: u16, i: u16, place: usize) -> u16
    requires { i < lanes → F.pre number.now place }
    ensures { (row : List ℕ) → ((i x : ℕ) → F.post number.now i x → x ≡ get_or row i 0) → result ≡ of_lane row lanes i place }
{
    if lanes <= i {
        return 0;
    }
    number(place)
}

// The same number of each metered lane.
fn of_metered<F: Fn(usize) -> u16>(number: &F, n: u16, p: usize) -> [u16; 4]
    requires place { p ≤ 1000000 }
    requires reads { (i : ℕ) → i + 1 < p + 2 * n → F.pre number.now i }
    ensures { (row : List ℕ) → ((i x : ℕ) → F.post number.now i x → x ≡ get_or row i 0) → result ≡ of_metered row n p }
{
    [
        of_lane(number, n, 0, p),
        of_lane(number, n, 1, p + METERED_WIDTH),
        of_lane(number, n, 2, p + 2 * METERED_WIDTH),
        of_lane(number, n, 3, p + 3 * METERED_WIDTH),
    ]
}

pub fn metered_of<F: Fn(usize) -> u16>(number: &F, n: u16, p: usize) -> Metered
    requires place { p ≤ 900000 }
    requires reads { (i : ℕ) → i < p + 2 * n → F.pre number.now i }
    ensures { (row : List ℕ) → ((i x : ℕ) → F.post number.now i x → x ≡ get_or row i 0) → result ≡ metered_of row n p }
{
    Metered {
        demand: of_metered(number, n, p),
        passage: of_metered(number, n, p + 1),
    }
}

// The same number of each mainline lane.
fn of_mainline<F: Fn(usize) -> u16>(number: &F, m: u16, p: usize) -> [u16; 6]
    requires place { p ≤ 1000000 }
    requires reads { (i : ℕ) → i + 3 < p + 4 * m → F.pre number.now i }
    ensures { (row : List ℕ) → ((i x : ℕ) → F.post number.now i x → x ≡ get_or row i 0) → result ≡ of_mainline row m p }
{
    [
        of_lane(number, m, 0, p),
        of_lane(number, m, 1, p + MAINLINE_WIDTH),
        of_lane(number, m, 2, p + 2 * MAINLINE_WIDTH),
        of_lane(number, m, 3, p + 3 * MAINLINE_WIDTH),
        of_lane(number, m, 4, p + 4 * MAINLINE_WIDTH),
        of_lane(number, m, 5, p + 5 * MAINLINE_WIDTH),
    ]
}

pub fn mainline_of<F: Fn(usize) -> u16>(number: &F, m: u16, p: usize) -> Mainline
    requires place { p ≤ 900000 }
    requires reads { (i : ℕ) → i < p + 4 * m → F.pre number.now i }
    ensures { (row : List ℕ) → ((i x : ℕ) → F.post number.now i x → x ≡ get_or row i 0) → result ≡ mainline_of row m p }
{
    Mainline {
        working: of_mainline(number, m, p),
        occupied: of_mainline(number, m, p + 1),
        vehicles: of_mainline(number, m, p + 2),
        time: of_mainline(number, m, p + 3),
    }
}

pub fn calls_of<F: Fn(usize) -> u16>(number: &F, p: usize) -> Calls
    requires place { p ≤ 1000000 }
    requires reads { (i : ℕ) → i < p + 2 → F.pre number.now i }
    ensures { (row : List ℕ) → ((i x : ℕ) → F.post number.now i x → x ≡ get_or row i 0) → result ≡ calls_of row p }
{
    Calls {
        preemption: number(p),
        bypass: number(p + 1),
    }
}

pub fn command_of<F: Fn(usize) -> u16>(number: &F, p: usize) -> Command
    requires place { p ≤ 1000000 }
    requires reads { (i : ℕ) → i < p + 3 → F.pre number.now i }
    ensures { (row : List ℕ) → ((i x : ℕ) → F.post number.now i x → x ≡ get_or row i 0) → result ≡ command_of row p }
{
    Command {
        kind: number(p),
        rate: number(p + 1),
        table: number(p + 2),
    }
}

// The tick of a row, at a site of this shape; what the row lacks is 0.
pub fn input_of(row: &[u16], shape: Shape) -> Input
    ensures { result ≡ input_of row.now shape.lanes shape.mainline }
{
    let number = |i: usize| numbers::number_at(row, i);
    let main = mainline_at(shape.lanes);
    let calls = calls_at(shape);
    let commands = commands_at(shape);
    Input {
        clock: clock_of(&number, CLOCK),
        lanes: metered_of(&number, shape.lanes, METERED),
        main: mainline_of(&number, shape.mainline, main),
        calls: calls_of(&number, calls),
        manual: command_of(&number, commands),
        centre: command_of(&number, commands + COMMAND_WIDTH),
    }
}
