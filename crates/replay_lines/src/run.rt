// A run of ticks, byte by byte.
ghost use Rattle.std.specs.Prelude.{◌≡◌, true, ◌≤◌, ◌<◌, ◌+◌, leb, length, take};
ghost use Rattle.text.specs.Put.{Put};
ghost use Rattle.text.specs.Puts.{Puts};
ghost use Rattle.replay_lines.specs.Answer.{PeriodPolled};
ghost use Rattle.replay_lines.specs.Lines.{ByLines};
ghost use Rattle.replay_lines.specs.Replay.{longest_answer, start_of, with_scan, line_of, line_text, noted, after_line, output_of, run_after, last_text, last_run};

use crate::{answer, no_tick};
use refusals::Refusal;
use site::Site;
use state::State;
use text::Text;
use tick::{Input, Ticked};
use tick_line::{Scan, Verdict};

// A tick that was refused: its line, the refusal and the input.
#[derive(Clone, Copy)]
pub struct Refused {
    pub line: u64,
    pub refusal: Refusal,
    pub input: Input,
}

#[derive(Clone, Copy)]
pub struct Run {
    pub state: State,
    // how many lines have ended
    pub lines: u64,
    // whether a line has begun, and what its bytes so far give
    pub begun: bool,
    pub scan: Scan,
    // whether a line was no tick: nothing behind it is read
    pub ended: bool,
    // the first tick that was refused
    pub refused: Option<Refused>,
}

// A line that has ended: its number from 1, what was read of it, and what the tick gave.
#[derive(Clone, Copy)]
struct Line {
    number: u64,
    verdict: Verdict,
    input: Input,
    ticked: Ticked,
}

// The run behind the bytes that were taken, and how long the text is that they added.
#[derive(Clone, Copy)]
pub struct Taken {
    pub run: Run,
    pub bytes: usize,
    pub text: usize,
}

// No line adds more bytes to the output.
pub const LONGEST_ANSWER: usize = 544;

// Power-up, before the first byte. From there a replay's text is the answers to its input's lines.
pub fn start(site: Site) -> Run
    ensures is { result ≡ start_of site }
    ensures lines { ByLines site }
{
    Run {
        state: tick::power_up(site).state,
        lines: 0,
        begun: false,
        scan: tick_line::line_start(),
        ended: false,
        refused: None,
    }
}

fn with_scan(run: Run, scan: Scan, begun: bool) -> Run
    ensures { result ≡ with_scan run scan begun }
{
    Run { begun, scan, ..run }
}

// The present line, which ends here.
fn line_of(site: Site, run: Run) -> Line
    ensures { result ≡ line_of site run }
{
    let shape = site::shape_of(site);
    let read = tick_line::read(run.scan, shape);
    Line {
        number: tick_line::one_more(run.lines),
        verdict: read.verdict,
        input: read.input,
        ticked: tick::tick(site, run.state, read.input),
    }
}

// What a line adds to the output.
fn put_line(out: &mut Text, site: Site, line: Line)
    ensures is { Puts out.old (line_text site line) out.new }
    ensures short { length (line_text site line) ≤ longest_answer }
{
    if tick_line::is_tick(line.verdict) {
        return answer::put_answer(out, site, line.number, line.ticked);
    }
    no_tick::put_no_tick(out, line.number, line.verdict);
}

// The same behind the text so far, which ends here: where it ends then.
fn add_line(out: &mut [u8], end: usize, site: Site, line: Line) -> usize
    ensures is { Put out.old end (line_text site line) result out.new }
    ensures short { length (line_text site line) ≤ longest_answer }
{
    let mut text = Text { out, end };
    put_line(&mut text, site, line);
    text.end
}

// The first refused tick, after one more.
fn noted(refused: Option<Refused>, line: Line) -> Option<Refused>
    ensures { result ≡ noted refused line }
{
    if refused.is_some() {
        return refused;
    }
    match line.ticked.refusal {
        Some(refusal) => Some(Refused {
            line: line.number,
            refusal,
            input: line.input,
        }),
        None => None,
    }
}

// The run behind the line.
fn after_line(run: Run, line: Line) -> Run
    ensures { result ≡ after_line run line }
{
    if tick_line::is_tick(line.verdict) {
        return Run {
            state: line.ticked.state,
            lines: line.number,
            begun: false,
            scan: tick_line::line_start(),
            ended: false,
            refused: noted(run.refused, line),
        };
    }
    Run {
        lines: line.number,
        begun: false,
        scan: tick_line::line_start(),
        ended: true,
        ..run
    }
}

// Whether a line's answer fits behind this place in an output of so many bytes.
fn has_room(size: usize, end: usize) -> bool
    ensures { result ≡ leb (end + longest_answer) size }
{
    if size < LONGEST_ANSWER {
        return false;
    }
    if size - LONGEST_ANSWER < end {
        return false;
    }
    true
}

// Takes a part of the input's bytes, and writes what they add over the front of out. How many it
// takes is left to it: some, where out holds the longest answer. It stops before the newline of a
// line whose answer might not fit. After a tick that completes a period there is always a poll record.
pub fn take(site: Site, first: Run, bytes: &[u8], out: &mut [u8]) -> Taken
    ensures is { result.run ≡ run_after site (take result.bytes bytes.now) first }
    ensures adds { Put out.old 0 (output_of site (take result.bytes bytes.now) first) result.text out.new }
    ensures part { result.bytes ≤ length bytes.now }
    ensures goes { longest_answer ≤ length out.old → 0 < length bytes.now → 0 < result.bytes }
    ensures fits { result.text ≤ length out.old }
    ensures polled { PeriodPolled site }
{
    if first.ended {
        return Taken {
            run: first,
            bytes: bytes.len(),
            text: 0,
        };
    }
    let mut run = first;
    let mut scan = first.scan;
    let mut begun = first.begun;
    let mut end: usize = 0;
    let mut at: usize = 0;
    // `at` is part of the answer: it stops before the newline of a line whose answer might not fit
    while at < bytes.len() {
        let b = bytes[at];
        if b != b'\n' {
            scan = tick_line::after_byte(scan, b);
            begun = true;
            at += 1;
            continue;
        }
        let whole = with_scan(run, scan, begun);
        if !has_room(out.len(), end) {
            return Taken {
                run: whole,
                bytes: at,
                text: end,
            };
        }
        let line = line_of(site, whole);
        end = add_line(out, end, site, line);
        run = after_line(whole, line);
        if run.ended {
            return Taken {
                run,
                bytes: bytes.len(),
                text: end,
            };
        }
        scan = tick_line::line_start();
        begun = false;
        at += 1;
    }
    Taken {
        run: with_scan(run, scan, begun),
        bytes: at,
        text: end,
    }
}

// The end of the input: what it adds.
pub fn put_last(out: &mut Text, site: Site, run: Run)
    ensures is { Puts out.old (last_text site run) out.new }
    ensures short { length (last_text site run) ≤ longest_answer }
{
    if run.ended {
        return;
    }
    if !run.begun {
        return;
    }
    put_line(out, site, line_of(site, run));
}

// The run behind its last line.
pub fn last(site: Site, run: Run) -> Run
    ensures { result ≡ last_run site run }
{
    if run.ended {
        return run;
    }
    if !run.begun {
        return run;
    }
    after_line(run, line_of(site, run))
}
