// A controller at a site, and the operations on it.
ghost use Rattle.std.specs.Prelude.{◌≤◌, length};

use crate::print::Line;
use crate::{input, print, site_record};
use site::Site;
use state::State;
use tick::{Input, Ticked};

#[derive(Clone, Copy)]
struct Run {
    // the record that the site file gave, and the present one
    given: Site,
    site: Site,
    state: State,
}

// The kinds of operations.
const TICKS: u16 = 1;

const STATE: u16 = 2;

const DAMAGE: u16 = 3;

const REPAIR: u16 = 4;

const POWER_UP: u16 = 5;

const POLL: u16 = 6;

const DECIDE: u16 = 7;

const WRITE: u16 = 8;

const RECORDS: u16 = 9;

const READINGS: u16 = 10;

// The bytes of the records stand behind three numbers.
const RECORDS_FROM: usize = 6;

// The state is that of power-up at the present site.
fn power_up(mut run: Run) -> Run {
    let powered = tick::power_up(run.site);
    print::powered(powered.refusal);
    print::state(powered.state);
    run.state = powered.state;
    run
}

// Prints a tick that releases a lane, and one whose line differs from the line before.
fn print_tick(number: u16, ticked: Ticked, before: Line) -> Line {
    let line = print::line_of(ticked);
    if ticked.released != 0 || line != before {
        print::ticked(number, line);
    }
    line
}

// So many ticks at a site, the first with this input; gives the state behind them.
fn run_ticks(site: Site, first: State, count: u16, input: Input) -> State {
    let mut state = first;
    let mut line = print::no_line();
    for done in 0..count {
        let ticked = tick::tick(site, state, input::later(input, done));
        let printed = print_tick(done + 1, ticked, line);
        line = printed;
        state = ticked.state;
    }
    state
}

fn ticks(mut run: Run, op: &[u8]) -> Run {
    let count = numbers::word(op, 1);
    run.state = run_ticks(run.site, run.state, count, input::of_tick(op));
    print::state(run.state);
    run
}

fn replace_state(mut run: Run, op: &[u8]) -> Run {
    run.state = input::state(op);
    run
}

fn damage(mut run: Run, op: &[u8]) -> Run {
    let section = numbers::word(op, 1);
    let place = numbers::word(op, 2) as usize;
    run.site = site_record::with_number(run.site, section, place, numbers::word(op, 3));
    run
}

fn repair(mut run: Run) -> Run {
    run.site = run.given;
    run
}

fn poll_into(site: Site, state: State, out: &mut [u8]) {
    let written = poll::poll(site, state, out);
    print::polled(written, out);
}

fn poll_now(run: Run, op: &[u8]) -> Run {
    let mut buffer = test_output::buffer();
    let end = test_output::front_length(&buffer, numbers::word(op, 1) as usize);
    poll_into(run.site, run.state, &mut buffer[..end]);
    run
}

fn decide_now(run: Run, op: &[u8]) -> Run {
    let input = input::of_decision(op);
    let decided = decide::decide(run.site, run.state, input.clock, input.manual, input.centre);
    print::decided(decided, site::timings_of(run.site).vehicles);
    run
}

fn write_into(site: Site, buffer: &mut [u8], size: usize) {
    let end = test_output::front_length(buffer, size);
    let written = site_writer::write(site, &mut buffer[..end]);
    let count = written.unwrap_or(0);
    print::written(written, test_output::untouched(buffer, count));
}

fn write_now(run: Run, op: &[u8]) -> Run {
    let mut buffer = test_output::buffer();
    write_into(run.site, &mut buffer, numbers::word(op, 1) as usize);
    run
}

// The records' ticks; gives the state behind them.
fn run_into(site: Site, before: State, records: &[u8], out: &mut [u8]) -> State {
    let ran = many_ticks::run(site, before, records, out);
    print::ran(ran, out);
    print::state(ran.state);
    ran.state
}

// All bytes of the records are there: `op_size` has looked.
fn records(mut run: Run, op: &[u8]) -> Run {
    let end = RECORDS_FROM + numbers::word(op, 2) as usize;
    if op.len() < end {
        return run;
    }
    let mut buffer = test_output::buffer();
    let size = test_output::front_length(&buffer, numbers::word(op, 1) as usize);
    let bytes = &op[RECORDS_FROM..end];
    run.state = run_into(run.site, run.state, bytes, &mut buffer[..size]);
    run
}

fn read_now(run: Run) -> Run {
    print::readings(readings::read(run.site, run.state));
    run
}

fn run_op(run: Run, op: &[u8]) -> Run {
    let kind = numbers::word(op, 0);
    match kind {
        TICKS => ticks(run, op),
        STATE => replace_state(run, op),
        DAMAGE => damage(run, op),
        REPAIR => repair(run),
        POWER_UP => power_up(run),
        POLL => poll_now(run, op),
        DECIDE => decide_now(run, op),
        WRITE => write_now(run, op),
        RECORDS => records(run, op),
        READINGS => read_now(run),
        _ => run,
    }
}

// How many numbers records of so many bytes have as an operation, with a byte more where these are odd.
fn record_numbers(bytes: u16) -> usize
    ensures { result ≤ 32771 }
{
    3 + (bytes as usize + 1) / 2
}

// How many numbers an operation has, records by their bytes; 0 for one that there is not.
fn op_numbers(kind: u16, bytes: u16) -> usize
    ensures { result ≤ 32771 }
{
    match kind {
        TICKS => 47,
        STATE => 235,
        DAMAGE => 4,
        REPAIR => 1,
        POWER_UP => 1,
        POLL => 2,
        DECIDE => 14,
        WRITE => 2,
        RECORDS => record_numbers(bytes),
        READINGS => 1,
        _ => 0,
    }
}

// How many bytes the first operation has; 0 where it is cut or there is none.
fn op_size(ops: &[u8]) -> usize
    ensures { result ≤ length ops.now }
{
    let size = op_numbers(numbers::word(ops, 0), numbers::word(ops, 2)) * 2;
    if ops.len() < size {
        return 0;
    }
    size
}

fn run_ops(mut run: Run, ops: &[u8]) {
    let mut at: usize = 0;
    // each operation has its own size
    while at < ops.len() {
        let op = &ops[at..];
        let size = op_size(op);
        if size == 0 {
            return;
        }
        run = run_op(run, op);
        at += size;
    }
}

pub fn answer_case(file: &[u8], ops: &[u8]) {
    match site_reader::read(file) {
        Ok(site) => run_ops(
            Run {
                given: site,
                site,
                state: state::zero(),
            },
            ops,
        ),
        Err(misread) => test_output::print_refusal(misread.refusal.number(), misread.place),
    }
}
