// Records by single calls of the tick: what these cost beside a call for many ticks, and a check that both show the same.
use crate::Run;
use group::Indications;
use refusals::Refusal;
use site::Site;
use text::Text;
use tick::Ticked;

// Puts what a tick shows behind what those before it do: a byte for each of n lanes, then the sign's.
fn put_shown(out: &mut Text, shown: Indications, n: u16) {
    for i in 0..n {
        let colour = numbers::number_at(&shown.colours, i as usize);
        out.put_byte((colour % 256) as u8);
    }
    out.put_byte((shown.sign % 256) as u8);
}

fn refused(run: Run, refusal: Refusal) -> Run {
    Run {
        refusal: Some(refusal),
        ..run
    }
}

fn accepted(run: Run, ticked: Ticked, n: u16, out: &mut [u8]) -> Run {
    let mut text = Text {
        out,
        end: run.shown,
    };
    put_shown(&mut text, ticked.shown, n);
    Run {
        state: ticked.state,
        accepted: std::num::wrapping_add_u64(run.accepted, 1),
        shown: text.end,
        ..run
    }
}

// One record: refused, or its tick.
fn take_record(site: Site, run: Run, bytes: &[u8], out: &mut [u8]) -> Run {
    let shape = site::shape_of(site);
    if !tick_record::is_record(bytes, shape) {
        return refused(run, Refusal::BadRecord);
    }
    let input = tick_record::input_of(bytes, shape);
    let ticked = tick::tick(site, run.state, input);
    match ticked.refusal {
        Some(refusal) => refused(run, refusal),
        None => accepted(run, ticked, shape.lanes, out),
    }
}

// Each record of some bytes in turn, until one is refused or none is left; the output is taken from its front.
pub fn take_records(site: Site, run: Run, bytes: &[u8], out: &mut [u8]) -> Run {
    let shape = site::shape_of(site);
    let mut run = Run { shown: 0, ..run };
    for record in bytes.chunks(tick_record::size(shape)) {
        run = take_record(site, run, record, out);
        if run.refusal.is_some() {
            return run;
        }
    }
    run
}
