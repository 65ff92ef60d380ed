// Reading ticks and writing their answers.
ghost use Rattle.std.specs.Prelude.{◌≡◌, true, ◌≤◌, length};
ghost use Rattle.replay_lines.specs.Replay.{longest_answer, run_after};

use replay_lines::Run;
use site::Site;
use std::io::Read;
use text::Text;

// The run, and whether more is to be read. It is no Option, since a run that has ended still tells the
// first refused tick.
#[derive(Clone, Copy)]
struct Going {
    run: Run,
    on: bool,
}

// Takes the bytes of one read, and writes all that they add. The run goes on behind all of them.
fn take_all(rt: &impl Print, site: Site, first: Run, bytes: &[u8], out: &mut [u8]) -> Going
    requires { longest_answer ≤ length out.old }
    ensures { result.on ≡ true → result.run ≡ run_after site bytes.now first }
{
    let mut run = first;
    let mut from: usize = 0;
    // each call takes as many bytes as it likes
    while from < bytes.len() {
        let taken = replay_lines::take(site, run, &bytes[from..], out);
        run = taken.run;
        if !site_program::write_out(rt, &out[..taken.text]) {
            return Going { run, on: false };
        }
        from += taken.bytes;
    }
    Going {
        run,
        on: !run.ended,
    }
}

// The end of the ticks; a last line may lack its newline.
fn end_all(rt: &impl Print, site: Site, run: Run, out: &mut [u8]) -> Going
    requires { longest_answer ≤ length out.old }
{
    let mut text = Text::new(out);
    replay_lines::put_last(&mut text, site, run);
    // a slice, so that the answer is proved to fit; the text lends out until here
    let end = text.end;
    site_program::write_out(rt, &out[..end]);
    Going {
        run: replay_lines::last(site, run),
        on: false,
    }
}

// One read of the ticks.
fn read_some(
    rt: &impl Print,
    site: Site,
    run: Run,
    ticks: &mut impl Read,
    bytes: &mut [u8],
    out: &mut [u8],
) -> Going
    requires { longest_answer ≤ length out.old }
{
    match ticks.read(bytes) {
        Ok(0) => end_all(rt, site, run, out),
        Ok(n) => take_all(rt, site, run, &bytes[..n], out),
        Err(error) => {
            streams::fail(b"the ticks", error);
            Going { run, on: false }
        }
    }
}

// Says what is wrong with the first refused tick, where it is one of those just read.
fn explain_first(errors: i32, site: Site, earlier: Run, run: Run) {
    if earlier.refused.is_some() {
        return;
    }
    if let Some(refused) = run.refused {
        let shape = site::shape_of(site);
        let mut buffer = io::buffer();
        let mut text = Text::new(&mut buffer);
        tick_diagnosis::put_diagnosis(&mut text, refused.line, shape, refused.input);
        site_program::write_error(errors, text.whole());
    }
}

// Reads ticks until they end or a line is no tick. All answers are written before the next read.
pub fn replay_at(rt: &impl Print, site: Site, ticks: &mut impl Read, errors: i32) {
    let mut out = io::large_buffer();
    let mut bytes = io::large_buffer();
    let mut heading = Text::new(&mut out);
    tick_text::put_heading(&mut heading);
    let mut going = Going {
        run: replay_lines::start(site),
        on: site_program::write_text(rt, &heading),
    };
    // the language wants to see that a loop ends
    for _ in 0..u64::MAX {
        if !going.on {
            return;
        }
        let run = going.run;
        going = read_some(rt, site, run, ticks, &mut bytes, &mut out);
        explain_first(errors, site, run, going.run);
    }
}
