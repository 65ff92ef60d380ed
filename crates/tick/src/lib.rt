// Power-up, and the tick: one call per tenth of a second.
#![tactic(auto)]

ghost use Rattle.std.specs.Prelude.{◌≡◌, ℕ, ◌≤◌, ◌<◌, false, get_or, None};
ghost use Rattle.site.specs.Record.{spoilt_site};
ghost use Rattle.site.specs.Named.{timings_of, shape_of};
ghost use Rattle.wanted.specs.Wish.{rate_of};
ghost use Rattle.calendar.specs.Named.{Typed};
ghost use Rattle.wanted.specs.Decision.{EntryInForce, command_in_force};
ghost use Rattle.wanted.specs.Levelled.{Levelled};
ghost use Rattle.release.specs.Cycle.{cycle_ticks};
ghost use Rattle.group.specs.Steered.{Steered};
ghost use Rattle.group.specs.Searched.{Searched};
ghost use Rattle.serving.specs.Bypassed.{Bypassed};
ghost use Rattle.state.specs.State.{state_spoilt};
ghost use Rattle.tick.specs.Checks.{sample_bad, input_refusal, tick_refusal};
ghost use Rattle.tick.specs.Tick.{power_up_of, counted_in, decided_of, finished_with, accepted_tick, refused_tick, tick_of};
ghost use Rattle.tick.specs.Cycle.{Cycled};
ghost use Rattle.tick.specs.Waiting.{WaitingBound};
ghost use Rattle.tick.specs.Preemption.{PreemptionClears};
ghost use Rattle.tick.specs.Serving.{BusServed, BusHeld};

use bypass::Doing;
use calendar::Clock;
use group::{Group, Indications};
use inputs::{Calls, Command, Mainline, Metered};
use period::Periods;
use refusals::Refusal;
use site::Site;
use state::State;
use timings::{Shape, Timings};
use wanted::{Decision, Wish};

// What a tick is given: the clock, the detectors' samples, the calls of the fire service and of a
// bus, the technician's command and the control centre's.
#[derive(Clone, Copy)]
pub struct Input {
    pub clock: Clock,
    pub lanes: Metered,
    pub main: Mainline,
    pub calls: Calls,
    pub manual: Command,
    pub centre: Command,
}

// What a tick gives: the refusal, if a check refuses; the state and the lamps; what was decided, the cycle of a wish
// to meter or 0, the lane released, from 1, or 0, and what the bus bypass does: of a refused tick
// nothing, whatever is kept.
#[derive(Clone, Copy)]
pub struct Ticked {
    pub refusal: Option<Refusal>,
    pub state: State,
    pub shown: Indications,
    pub decision: Decision,
    pub cycle: u16,
    pub released: u16,
    pub bypass: Doing,
}

// What a tick decides, and the cycle of a wish to meter or 0.
#[derive(Clone, Copy)]
pub struct DecidedTick {
    pub decision: Decision,
    pub cycle: u16,
}

// What power-up gives: the refusal, if the check refuses, and the state. It is no Result, since a caller
// gets a state after a refusal too: zeros.
#[derive(Clone, Copy)]
pub struct PoweredUp {
    pub refusal: Option<Refusal>,
    pub state: State,
}

// The state from which ticks begin. What it promises of them is what `tick` does.
pub fn power_up(site: Site) -> PoweredUp
    ensures is { result ≡ power_up_of site }
    ensures kept { result.refusal ≡ None → state_spoilt result.state (shape_of site) ≡ false }
    ensures waits { WaitingBound site }
    ensures clears { PreemptionClears site }
    ensures serves { BusServed site }
    ensures holds { BusHeld site }
{
    if site::spoilt(site) {
        return PoweredUp {
            refusal: Some(Refusal::SpoiltSite),
            state: state::zero(),
        };
    }
    PoweredUp {
        refusal: None,
        state: state::fresh(site::shape_of(site).lanes),
    }
}

// Whether a detector's sample or a call's is out of range.
fn sample_bad(shape: Shape, input: Input) -> bool
    ensures { result ≡ sample_bad shape input }
{
    inputs::samples_bad(input.lanes, input.main, shape) || inputs::calls_bad(input.calls)
}

// Which check refuses a tick's input, if one does.
pub fn input_refusal(shape: Shape, input: Input) -> Option<Refusal>
    ensures { result ≡ input_refusal shape input }
{
    if calendar::clock_bad(input.clock) {
        return Some(Refusal::BadClock);
    }
    if sample_bad(shape, input) {
        return Some(Refusal::BadSample);
    }
    if inputs::commands_bad(input.manual, input.centre) {
        return Some(Refusal::BadCommand);
    }
    None
}

// Which check refuses a tick, if one does.
fn refusal_of(site: Site, state: State, input: Input) -> Option<Refusal>
    ensures { result ≡ tick_refusal site state input }
{
    if site::spoilt(site) {
        return Some(Refusal::SpoiltSite);
    }
    let shape = site::shape_of(site);
    if state::spoilt(state, shape) {
        return Some(Refusal::SpoiltState);
    }
    input_refusal(shape, input)
}

// The cycle of a wish, in ticks, with so many vehicles per green.
fn cycle_of(vehicles: u16, wish: Wish) -> u16
    requires { cycle_ticks vehicles (rate_of wish) ≤ 720 }
    ensures { result ≡ cycle_ticks vehicles (rate_of wish) }
{
    release::cycle_ticks(vehicles, wanted::rate_of(wish)) as u16
}

// What a tick with an accepted input decides, once it is counted, and the cycle of its wish.
pub fn decision_of(site: Site, input: Input, counted: Periods) -> DecidedTick
    requires { (spoilt_site site ≡ false) × (input_refusal (shape_of site) input ≡ None) }
    ensures { result ≡ decided_of site input counted }
{
    let t = site::timings_of(site);
    let decision = wanted::wanted_now(site, input.clock, input.manual, input.centre, counted);
    let cycle = cycle_of(t.vehicles, decision.wish);
    DecidedTick { decision, cycle }
}

// The rest of an accepted tick, once it is counted and decided: the group, its release and its lamps.
pub fn finished(
    t: Timings,
    group: Group,
    input: Input,
    counted: Periods,
    decided: DecidedTick,
) -> Ticked
    requires { (i : ℕ) → i < 4 → (get_or counted.current.greens i 0 ≤ 300) × (get_or counted.last.greens i 0 ≤ 300) }
    ensures { result ≡ finished_with t group input counted decided }
{
    let wish = decided.decision.wish;
    let moved = group::tick(t, input.calls, wish, decided.cycle, input.lanes, group);
    let after = moved.group;
    Ticked {
        refusal: None, // no check refuses
        state: State {
            group: after,
            periods: period::after_release(counted, moved.released),
        },
        shown: group::shown(after, t.lanes),
        decision: decided.decision,
        cycle: decided.cycle,
        released: moved.released,
        bypass: bypass::does(t, after.bypass, after.lanes),
    }
}

// A tick that no check refuses. The state stays in range, so that many ticks need one check of site and
// state.
fn advance(site: Site, state: State, input: Input) -> Ticked
    requires { tick_refusal site state input ≡ None }
    ensures is { result ≡ accepted_tick site state input }
    ensures kept { state_spoilt result.state (shape_of site) ≡ false }
{
    let t = site::timings_of(site);
    let shape = site::shape_of(site);
    let counted = period::after_tick(state.periods, input.lanes, input.main, shape);
    let decided = decision_of(site, input, counted);
    finished(t, state.group, input, counted, decided)
}

// A tick that a check refuses: the state that came.
fn refused(site: Site, state: State, refusal: Refusal) -> Ticked
    ensures { result ≡ refused_tick site state refusal }
{
    let shown = match refusal {
        Refusal::SpoiltState | Refusal::SpoiltSite => group::all_dark(),
        _ => group::shown(state.group, site::shape_of(site).lanes),
    };
    Ticked {
        refusal: Some(refusal),
        state,
        shown,
        decision: wanted::no_decision(),
        cycle: 0,
        released: 0,
        bypass: Doing::None,
    }
}

// One tick. Over the ticks since power-up no waiting lane is passed over for long; the fire service's
// call soon finds the ramp dark or green, and holds it so; and a bus, while its call, metering and its
// timeout last, soon finds its lane green, which stays green until its bypass ends.
pub fn tick(site: Site, state: State, input: Input) -> Ticked
    ensures is { result ≡ tick_of site state input }
    ensures kept { result.refusal ≡ None → state_spoilt result.state (shape_of site) ≡ false }
    ensures day { result.refusal ≡ None → Typed input.clock.date site.dates site.holidays result.decision.day }
    ensures entry { result.refusal ≡ None → EntryInForce site input.clock result.decision.entry }
    ensures levelled { result.refusal ≡ None → Levelled site (command_in_force site input.clock input.manual input.centre) (counted_in site state input) result.decision.level result.decision.wish }
    ensures steered { result.refusal ≡ None → Steered (timings_of site) input.calls.preemption result.decision.wish state.group result.state.group.interval }
    ensures cycled { result.refusal ≡ None → Cycled (timings_of site).vehicles result.decision.wish result.cycle }
    ensures searched { result.refusal ≡ None → Searched (timings_of site) result.cycle input.lanes state.group (record { group = result.state.group; released = result.released }) }
    ensures bypassed { result.refusal ≡ None → Bypassed (timings_of site) input.calls result.decision.wish result.cycle input.lanes state.group (record { group = result.state.group; released = result.released }) }
    ensures waits { WaitingBound site }
    ensures clears { PreemptionClears site }
    ensures serves { BusServed site }
    ensures holds { BusHeld site }
{
    if let Some(refusal) = refusal_of(site, state, input) {
        return refused(site, state, refusal);
    }
    advance(site, state, input)
}
