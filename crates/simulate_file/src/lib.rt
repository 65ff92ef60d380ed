// The simulator over a site file of any name and the tick records of standard input, by calls for many ticks or by single ones.
#![tactic(auto)]

mod single;

ghost use Rattle.std.specs.Prelude.{◌≡◌, ◌≤◌, length};

use record_stream::Front;
use refusals::Refusal;
use site::Site;
use state::State;
use std::io::Read;
use std::rt::Files;

// The state, and how many ticks were accepted so far; the refusal, if there was one; how many bytes of the output the ticks since the last read take;
// how many bytes of the next record are held; whether more is to be read, and whether nothing has failed.
#[derive(Clone, Copy)]
pub struct Run {
    pub state: State,
    pub accepted: u64,
    pub refusal: Option<Refusal>,
    pub shown: usize,
    pub held: usize,
    pub on: bool,
    pub well: bool,
}

// The records of some bytes, by one call.
fn take_block(site: Site, run: Run, bytes: &[u8], out: &mut [u8]) -> Run {
    let ran = many_ticks::run(site, run.state, bytes, out);
    let shape = site::shape_of(site);
    Run {
        state: ran.state,
        accepted: std::num::wrapping_add_u64(run.accepted, ran.accepted as u64),
        refusal: ran.refusal,
        shown: ran.accepted * (shape.lanes as usize + 1),
        ..run
    }
}

// The same, by one call or by one for each.
fn take(site: Site, singly: bool, run: Run, bytes: &[u8], out: &mut [u8]) -> Run {
    if singly {
        return single::take_records(site, run, bytes, out);
    }
    take_block(site, run, bytes, out)
}

// Runs the records of some bytes, and writes what they show.
fn run_block(
    rt: &impl Print,
    site: Site,
    singly: bool,
    run: Run,
    bytes: &[u8],
    out: &mut [u8],
) -> Run {
    let mut next = take(site, singly, run, bytes, out);
    next.well = site_program::write_front(rt, out, next.shown);
    next.on = next.well & next.refusal.is_none();
    next
}

// The run with so many bytes held; behind the last ones nothing is read.
fn holding(mut run: Run, held: usize, last: bool) -> Run
    ensures { result.held ≡ held }
{
    run.held = held;
    run.on = run.on & !last;
    run
}

// Runs the whole records of the buffer's front and holds the bytes behind them; at the end of the stream these are a record too, which
// is cut short.
fn run_front(
    rt: &impl Print,
    site: Site,
    singly: bool,
    run: Run,
    front: Front,
    buffer: &mut [u8],
    out: &mut [u8],
) -> Run
    requires { front.count ≤ length buffer.old }
    ensures { result.held ≤ length buffer.new }
{
    let shape = site::shape_of(site);
    let n = record_stream::taken(front, tick_record::size(shape));
    let next = run_block(rt, site, singly, run, &buffer[..n], out);
    record_stream::move_front(buffer, n, front.count);
    holding(next, front.count - n, front.last)
}

// One read of the records.
fn read_some(
    rt: &impl Print,
    records: &mut impl Read,
    site: Site,
    singly: bool,
    run: Run,
    buffer: &mut [u8],
    out: &mut [u8],
) -> Run
    requires { run.held ≤ length buffer.old }
    ensures { result.held ≤ length buffer.new }
{
    match record_stream::read_on(records, buffer, run.held) {
        Some(front) => run_front(rt, site, singly, run, front, buffer, out),
        None => Run {
            on: false,
            well: false,
            ..run
        },
    }
}

// Reads records until they end or one is refused. What all whole ones show is written before the next read.
fn run_all(rt: &impl Print, records: &mut impl Read, site: Site, singly: bool) -> Run {
    let mut out = io::large_buffer();
    let mut buffer = io::large_buffer();
    let mut run = Run {
        state: tick::power_up(site).state,
        accepted: 0,
        refusal: None,
        shown: 0,
        held: 0,
        on: true,
        well: true,
    };
    // the language wants to see that a loop ends
    for _ in 0..u64::MAX {
        if !run.on {
            return run;
        }
        run = read_some(rt, records, site, singly, run, &mut buffer, &mut out);
    }
    run
}

// Simulates records at the site of that name, singly or not. A site file that is refused is reported on standard
// error; so is one that cannot be read, or that the user named and that is absent.
pub fn simulate(
    rt: &(impl Files + Print),
    records: &mut impl Read,
    name: &[u8],
    named: bool,
    singly: bool,
) {
    if let Some(site) = site_input::site_of(rt, name, named, false) {
        let run = run_all(rt, records, site, singly);
        if run.well {
            let refusal = match run.refusal {
                Some(refusal) => refusal.number(),
                None => 0,
            };
            record_stream::print_end(run.accepted, refusal);
        }
    }
}
