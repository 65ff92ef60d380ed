// Many ticks in one call: tick records, and the indications of each accepted tick behind those of the tick before.
#![tactic(auto)]

mod known;

ghost use Rattle.std.specs.Prelude.{◌≡◌, cond, false, ℕ, ◌+◌, ◌*◌, ◌-◌, ◌≤◌, min, length, get_or, Some, None, Ok, Err};
ghost use Rattle.std.proofs.lemmas.List.Edits.{sets};
ghost use Rattle.refusals.specs.declared.Refusal.TheVariants.{SmallBuffer, BadRecord};
ghost use Rattle.site.specs.Record.{spoilt_site};
ghost use Rattle.site.specs.Named.{metered_lanes, shape_of};
ghost use Rattle.state.specs.State.{state_spoilt};
ghost use Rattle.tick.specs.Checks.{tick_refusal};
ghost use Rattle.tick.specs.Tick.{counted_in, decided_of, accepted_tick};
ghost use Rattle.tick.specs.Waiting.{WaitingBound};
ghost use Rattle.tick.specs.Preemption.{PreemptionClears};
ghost use Rattle.tick.specs.Serving.{BusServed, BusHeld};
ghost use Rattle.many_ticks.specs.Many.{input_at, shown_bytes, record_refusal, unless, records_at, ends_with, run_from, run_of, ran_of, output_of};
ghost use Rattle.many_ticks.specs.Singly.{Singly};
ghost use Rattle.many_ticks.specs.Blocks.{InBlocks};

use group::Indications;
use period::Periods;
use refusals::Refusal;
use site::Site;
use state::State;
use tick::{DecidedTick, Input};

// What a call gives: the refusal, if it came to one; how many ticks were accepted; the state after them.
// It is no Result, since a call that ends with a refusal has accepted ticks before it.
#[derive(Clone, Copy)]
pub struct Ran {
    pub refusal: Option<Refusal>,
    pub accepted: usize,
    pub state: State,
}

// Lays a tick's indications over the front of out: a byte for each of n lanes, then the sign's.
fn lay(shown: Indications, n: u16, out: &mut [u8])
    requires { (n ≤ 4) × (n + 1 ≤ length out.old) × ((i : ℕ) → get_or shown.colours i 0 ≤ 3) × (shown.sign ≤ 1) }
    ensures { out.new ≡ sets out.old 0 (shown_bytes n shown) }
{
    for i in 0..n as usize {
        out[i] = shown.colours[i] as u8;
    }
    out[n as usize] = shown.sign as u8;
}

// The checks before the tick's: whether the bytes are a record, and whether there is room.
fn early_check(whole: bool, small: bool) -> Result<(), Refusal>
    ensures { result ≡ cond whole (cond small (Err SmallBuffer) (Ok tt)) (Err BadRecord) }
{
    if !whole {
        return Err(Refusal::BadRecord);
    }
    if small {
        return Err(Refusal::SmallBuffer);
    }
    Ok(())
}

// A record's tick, with so much room, or which check refuses it.
fn check_record(site: Site, bytes: &[u8], room: usize) -> Result<Input, Refusal>
    requires { spoilt_site site ≡ false }
    ensures { (s : State) → state_spoilt s (shape_of site) ≡ false → result ≡ unless (record_refusal site s room bytes.now) (input_at site bytes.now) }
{
    let shape = site::shape_of(site);
    let whole = tick_record::is_record(bytes, shape);
    early_check(whole, room < shape.lanes as usize + 1)?;
    let input = tick_record::input_of(bytes, shape);
    match tick::input_refusal(shape, input) {
        Some(refusal) => Err(refusal),
        None => Ok(input),
    }
}

// The periods of a state, the tick of an accepted record counted.
fn count(site: Site, state: State, input: Input) -> Periods
    requires { tick_refusal site state input ≡ None }
    ensures { result ≡ counted_in site state input }
{
    let shape = site::shape_of(site);
    period::after_tick(state.periods, input.lanes, input.main, shape)
}

// The tick of an accepted record, counted and decided, whose indications are laid over the front of out.
fn accept(
    site: Site,
    state: State,
    input: Input,
    counted: Periods,
    decided: DecidedTick,
    out: &mut [u8],
) -> State
    requires { (tick_refusal site state input ≡ None) × (counted ≡ counted_in site state input) × (decided ≡ decided_of site input counted) × (metered_lanes site + 1 ≤ length out.old) }
    ensures state { result ≡ (accepted_tick site state input).state }
    ensures laid { out.new ≡ sets out.old 0 (shown_bytes (metered_lanes site) (accepted_tick site state input).shown) }
{
    let t = site::timings_of(site);
    let ticked = tick::finished(t, state.group, input, counted, decided);
    lay(ticked.shown, t.lanes, out);
    ticked.state
}

// Where the record that begins here ends: behind so many bytes or, cut short, where all bytes do.
fn end_of(from: usize, size: usize, bytes: usize) -> usize
    requires { from ≤ bytes }
    ensures { result ≡ from + min size (bytes - from) }
{
    if bytes - from < size {
        return bytes;
    }
    from + size
}

// Each record in turn, until one is refused or none is left. The rest of the output is lent on to the tick that comes next.
fn run_all(site: Site, first: State, records: &[u8], out: &mut [u8]) -> Ran
    requires { (spoilt_site site ≡ false) × (state_spoilt first (shape_of site) ≡ false) }
    ensures is { result ≡ ran_of (run_from site first (length out.old) (records_at site records.now)) }
    ensures kept { state_spoilt result.state (shape_of site) ≡ false }
    ensures output { out.new ≡ output_of (run_from site first (length out.old) (records_at site records.now)) out.old }
{
    let shape = site::shape_of(site);
    let size = tick_record::size(shape);
    let width = shape.lanes as usize + 1;
    let mut state = first;
    let mut known = None;
    let mut accepted: usize = 0;
    let mut from: usize = 0;
    let mut at: usize = 0;
    // from, at and accepted go on by different steps, and the first by a shorter one at the end
    while from < records.len() {
        let end = end_of(from, size, records.len());
        let input = match check_record(site, &records[from..end], out.len() - at) {
            Ok(input) => input,
            Err(refusal) => {
                return Ran {
                    refusal: Some(refusal),
                    accepted,
                    state,
                };
            }
        };
        let counted = count(site, state, input);
        let now = known::decided_now(site, input, counted, known);
        known = known::kept_after(now, counted);
        state = accept(site, state, input, counted, now.decided, &mut out[at..]);
        from = end;
        at += width;
        accepted += 1;
    }
    Ran {
        refusal: None,
        accepted,
        state,
    }
}

// The call ends before the first record.
fn stopped(state: State, refusal: Refusal) -> Ran
    ensures { result ≡ ran_of (ends_with state (Some refusal)) }
{
    Ran {
        refusal: Some(refusal),
        accepted: 0,
        state,
    }
}

// Runs the ticks of records, one after the other, until one is refused or none is left. Site and state are checked once. Each accepted
// tick's indications are laid over out, behind those of the tick before. State and output are those of single calls of the tick, so that
// what the tick promises of the list since power-up holds of ticks that are run here too; and records may be sent in blocks.
pub fn run(site: Site, state: State, records: &[u8], out: &mut [u8]) -> Ran
    ensures is { result ≡ ran_of (run_of site state records.now (length out.old)) }
    ensures output { out.new ≡ output_of (run_of site state records.now (length out.old)) out.old }
    ensures kept { state_spoilt state (shape_of site) ≡ false → state_spoilt result.state (shape_of site) ≡ false }
    ensures long { (length (run_of site state records.now (length out.old)).laid ≡ result.accepted * (metered_lanes site + 1)) × (result.accepted * (metered_lanes site + 1) ≤ length out.old) }
    ensures room { length records.now ≤ length out.old → result.refusal ≡ Some SmallBuffer → ⊥ }
    ensures singly { spoilt_site site ≡ false → state_spoilt state (shape_of site) ≡ false → (shown : Indications) → Singly site (record { state = state; shown = shown }) (records_at site records.now) (length out.old) (run_of site state records.now (length out.old)) }
    ensures blocks { InBlocks site state records.now out.old }
    ensures waits { WaitingBound site }
    ensures clears { PreemptionClears site }
    ensures serves { BusServed site }
    ensures holds { BusHeld site }
{
    if site::spoilt(site) {
        return stopped(state, Refusal::SpoiltSite);
    }
    if state::spoilt(state, site::shape_of(site)) {
        return stopped(state, Refusal::SpoiltState);
    }
    run_all(site, state, records, out)
}
