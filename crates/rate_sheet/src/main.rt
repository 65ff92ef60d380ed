// Prints the cabinet's rate sheet: for each metering rate the cycle in seconds at 1, 2 and 3 vehicles
// per green, as a tick gives it that is asked for that rate.
#![tactic(auto)]

ghost use Rattle.std.specs.Prelude.{◌≡◌, ◌≤◌};
ghost use Rattle.text.specs.Puts.{Puts};
ghost use Rattle.release.specs.Cycle.{cycle_ticks};
ghost use Rattle.rate_sheet.specs.Sheet.{rate_line, rate_lines, sheet_text, ramp, asking, first_tick};

use calendar::{Clock, Date};
use inputs::{Calls, Command, Mainline, Metered};
use site::Site;
use site_program::Asked;
use streams::STDERR_FILENO;
use text::Text;
use tick::Input;

const FIRST_RATE: u16 = 150;

const LAST_RATE: u16 = 1800;

// The bytes of the sheet.
const SHEET: usize = 28953;

// A ramp of one lane, every timing at its least but for the vehicles per green.
fn ramp(vehicles: u16) -> Site
    ensures { result ≡ ramp vehicles }
{
    Site {
        timings: [
            1, 0, vehicles, 10, 10, 10, 10, 10, 10, 10, 10, 10, 1, 1, 1, 0, 0,
        ],
        entries: 0,
        plan: [0u16; ranges::MOST_ENTRY_NUMBERS],
        holidays: 0,
        dates: [0u16; ranges::MOST_HOLIDAY_NUMBERS],
        levels: 0,
        tables: [0u16; ranges::MOST_LEVEL_NUMBERS],
    }
}

// A tick at which the technician asks for this rate, and no vehicle is seen.
fn asking(rate: u16) -> Input
    ensures { result ≡ asking rate }
{
    Input {
        clock: Clock {
            date: Date {
                year: 2024,
                month: 1,
                day: 1,
            },
            tenth: 0,
        },
        lanes: Metered {
            demand: [0u16; 4],
            passage: [0u16; 4],
        },
        main: Mainline {
            working: [1u16; 6],
            occupied: [0u16; 6],
            vehicles: [0u16; 6],
            time: [0u16; 6],
        },
        calls: Calls {
            preemption: 0,
            bypass: 0,
        },
        manual: Command {
            kind: inputs::FIXED,
            rate,
            table: 0,
        },
        centre: Command {
            kind: inputs::NONE,
            rate: 0,
            table: 0,
        },
    }
}

// The cycle of the first tick since power-up; at these rates and vehicles no check refuses it.
fn cycle(vehicles: u16, rate: u16) -> u16
    requires le_vehicles { 1 ≤ vehicles }
    requires vehicles_bound { vehicles ≤ 3 }
    requires le_rate { 150 ≤ rate }
    requires rate_bound { rate ≤ 1800 }
    ensures ticks { result ≡ (first_tick vehicles rate).cycle }
    ensures is { result ≡ cycle_ticks vehicles rate }
{
    let site = ramp(vehicles);
    tick::tick(site, tick::power_up(site).state, asking(rate)).cycle
}

fn put_rate(out: &mut Text, rate: u16)
    requires le_rate { 150 ≤ rate }
    requires rate_bound { rate ≤ 1800 }
    ensures { Puts out.old (rate_line rate) out.new }
{
    out.put_decimal(rate as u64);
    phrases::put_blank_and_seconds(out, cycle(1, rate));
    phrases::put_blank_and_seconds(out, cycle(2, rate));
    phrases::put_blank_and_seconds(out, cycle(3, rate));
    out.put_byte(b'\n');
}

fn put_rates(out: &mut Text)
    ensures { Puts out.old rate_lines out.new }
{
    for rate in FIRST_RATE..=LAST_RATE {
        put_rate(out, rate);
    }
}

fn put_sheet(out: &mut Text)
    ensures { Puts out.old sheet_text out.new }
{
    out.put(b"rate V1 V2 V3\n");
    put_rates(out);
}

// The whole sheet, in a buffer of its length: that it is filled to the end is proved of this text.
fn fill_sheet(out: &mut [u8; SHEET])
    ensures { out.new ≡ sheet_text }
{
    put_sheet(&mut Text::new(out));
}

fn print_sheet(rt: &impl Print) {
    let mut sheet = [0u8; SHEET];
    fill_sheet(&mut sheet);
    site_program::write_out(rt, &sheet);
}

fn print_help(rt: &impl Print) {
    site_program::write_out(
        rt,
        b"usage: rate_sheet\nPrints for every metering rate, 150 to 1800, the cycle in seconds at 1, 2 and 3 vehicles per green.\n",
    );
}

fn print_no_argument_wanted() {
    io::write_all(STDERR_FILENO, b"no argument is wanted\nusage: rate_sheet\n");
}

fn main(rt: HostRuntime) {
    let count = site_program::arguments_given(&rt);
    if count == 0 {
        print_sheet(&rt);
        return;
    }
    let mut argument = io::buffer();
    let n = site_program::argument(&rt, 1, &mut argument);
    match site_program::asked_by(count, &argument[..n]) {
        Asked::Help => print_help(&rt),
        _ => print_no_argument_wanted(),
    }
}
