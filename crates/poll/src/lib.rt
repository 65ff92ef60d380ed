// The poll record, by which the control centre asks for the last completed period.
#![tactic(auto)]

ghost use Rattle.std.specs.Prelude.{◌≡◌, cond, ◌+◌, ◌*◌, ◌≤◌, length};
ghost use Rattle.std.proofs.lemmas.List.Edits.{sets};
ghost use Rattle.numbers.specs.Words.{bytes};
ghost use Rattle.output.specs.Output.{answer_of, buffer_of};
ghost use Rattle.period.specs.Counts.{good_of};
ghost use Rattle.poll.specs.Poll.{metered_row, mainline_row, rows_from, poll_words, poll_of, refusal_of};

use output::Written;
use period::{Counts, LaneCounts, Periods};
use refusals::Refusal;
use site::Site;
use state::State;
use timings::Shape;

// 1 for a good lane, else 0.
fn good_number(lane: LaneCounts) -> u16
    ensures { result ≡ cond (good_of lane) 1 0 }
{
    if period::is_good(lane) { 1 } else { 0 }
}

// Writes the metered lanes' passages and greens begun over out from byte `at` on. These are numbers of two bytes and no text, and the
// caller has seen that they fit.
fn store_metered(out: &mut [u8], at: usize, c: Counts, n: u16)
    requires { (n ≤ 4) × (at + n * 4 ≤ length out.old) }
    ensures { out.new ≡ sets out.old at (bytes (rows_from (metered_row c) 0 n)) }
{
    for i in 0..n {
        let k = i as usize;
        let row = [c.passages[k], c.greens[k]];
        numbers::store(out, at + k * 4, &row);
    }
}

// Writes the mainline lanes' vehicles, occupied milliseconds and good over out from byte `at` on.
fn store_mainline(out: &mut [u8], at: usize, c: Counts, m: u16)
    requires { at + m * 6 ≤ length out.old }
    ensures { out.new ≡ sets out.old at (bytes (rows_from (mainline_row c) 0 m)) }
{
    for j in 0..m {
        let lane = period::lane_counts(c, j);
        let row = [lane.vehicles, lane.occupied, good_number(lane)];
        numbers::store(out, at + (j as usize) * 6, &row);
    }
}

// Writes the record at a site of this shape over the front of out.
fn store_record(periods: Periods, shape: Shape, out: &mut [u8])
    requires { (shape.lanes ≤ 4) × (8 + shape.lanes * 4 + shape.mainline * 6 ≤ length out.old) }
    ensures { out.new ≡ sets out.old 0 (bytes (poll_words periods shape.lanes shape.mainline)) }
{
    let head = [
        (periods.serial / 65536) as u16,
        (periods.serial % 65536) as u16,
        shape.lanes,
    ];
    numbers::store(out, 0, &head);
    store_metered(out, 6, periods.last, shape.lanes);
    let at = 6 + (shape.lanes as usize) * 4;
    numbers::store(out, at, &[shape.mainline]);
    store_mainline(out, at + 2, periods.last, shape.mainline);
}

// How many bytes the record at a site of this shape has.
fn record_size(shape: Shape) -> usize
    ensures { result ≡ 8 + shape.lanes * 4 + shape.mainline * 6 }
{
    8 + (shape.lanes as usize) * 4 + (shape.mainline as usize) * 6
}

// Which check refuses to speak of the last completed period, if one does: 14, 13, 12.
pub fn refusal(site: Site, state: State) -> Option<Refusal>
    ensures { result ≡ refusal_of site state }
{
    if site::spoilt(site) {
        return Some(Refusal::SpoiltSite);
    }
    if state::spoilt(state, site::shape_of(site)) {
        return Some(Refusal::SpoiltState);
    }
    if state.periods.serial == 0 {
        return Some(Refusal::NoPeriod);
    }
    None
}

// Writes the record of the last completed period to the front of out.
pub fn poll(site: Site, state: State, out: &mut [u8]) -> Written
    ensures answer { result ≡ answer_of (refusal_of site state) (poll_of site state) out.old }
    ensures buffer { out.new ≡ buffer_of (refusal_of site state) (poll_of site state) out.old }
{
    if let Some(refused) = refusal(site, state) {
        return Err(refused);
    }
    let shape = site::shape_of(site);
    let size = record_size(shape);
    if out.len() < size {
        return Err(Refusal::SmallBuffer);
    }
    store_record(state.periods, shape, out);
    Ok(size)
}
