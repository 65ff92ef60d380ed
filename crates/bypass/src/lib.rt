// The bus bypass: what is kept of it, whether it begins, goes on or ends at a tick, how the lanes'
// greens end meanwhile, and when the priority lane is released.
#![tactic(auto)]

mod at_lanes;

ghost use Rattle.std.specs.Prelude.{◌≡◌};
ghost use Rattle.bypass.specs.Bypass.{later_of, is_time_up, begins_at, ends_at, kept_of, mark_of, timer_of, bypass_of};
ghost use Rattle.bypass.specs.Range.{no_bypass, bypass_spoilt};

pub use at_lanes::{does, endings, has_passed, released};
use inputs::CALLED;
use timings::Timings;

// What is kept of a bypass. It is no Option: a damaged state may have a timer without a bypass, which the check of a state (13) is told.
#[derive(Clone, Copy)]
pub struct Bypass {
    // one waits or runs
    pub kept: bool,
    // the mark: another needs a tick without the call first
    pub mark: bool,
    // ticks since the call's first tick in metering; 0 while none is kept
    pub timer: u16,
}

// What the bypass does: none is kept; its lane is not green yet; its lane is green.
#[derive(Clone, Copy)]
pub enum Doing {
    None,
    Waits,
    Runs,
}

const TICKS_OF_A_SECOND: u32 = 10;

// Where the timer stops.
pub const LONGEST_TIMER: u16 = 2550;

// The timer one tick later, to 2550 at most.
fn later(timer: u16) -> u16
    ensures { result ≡ later_of timer }
{
    timer.saturating_add(1).min(LONGEST_TIMER)
}

// Whether the timeout has come, in seconds; 0 never does.
fn is_time_up(timeout: u16, timer: u16) -> bool
    ensures { result ≡ is_time_up timeout timer }
{
    if timeout == 0 {
        return false;
    }
    TICKS_OF_A_SECOND * (timeout as u32) <= timer as u32
}

// Whether a bypass begins at a tick, where none is kept; metering: the group is in it, the tick done.
fn begins(t: Timings, metering: bool, call: u16, mark: bool) -> bool
    ensures { result ≡ begins_at t metering call mark }
{
    if mark {
        return false;
    }
    if t.priority == 0 {
        return false;
    }
    if call != CALLED {
        return false;
    }
    metering
}

// Whether the bypass that is kept ends at a tick; passed: a vehicle has passed its green lane.
fn ends(t: Timings, metering: bool, call: u16, passed: bool, timer: u16) -> bool
    ensures { result ≡ ends_at t metering call passed timer }
{
    if passed {
        return true;
    }
    if call != CALLED {
        return true;
    }
    if is_time_up(t.timeout, later(timer)) {
        return true;
    }
    !metering
}

// Whether one is kept, the tick done.
fn kept(t: Timings, metering: bool, call: u16, passed: bool, b: Bypass) -> bool
    ensures { result ≡ kept_of t metering call passed b }
{
    if b.kept {
        return !ends(t, metering, call, passed, b.timer);
    }
    begins(t, metering, call, b.mark)
}

// The mark, the tick done; on: the call is.
fn mark(on: bool, kept: bool, b: Bypass) -> bool
    ensures { result ≡ mark_of on kept b }
{
    if on {
        if b.mark {
            return true;
        }
        if b.kept {
            return true;
        }
        return kept;
    }
    false
}

// The timer, the tick done.
fn timer(kept: bool, b: Bypass) -> u16
    ensures { result ≡ timer_of kept b }
{
    if kept {
        if b.kept {
            return later(b.timer);
        }
        return 0; // its first tick
    }
    0
}

// The bypass one tick later.
pub fn tick(t: Timings, metering: bool, call: u16, passed: bool, b: Bypass) -> Bypass
    ensures { result ≡ bypass_of t metering call passed b }
{
    let kept = kept(t, metering, call, passed, b);
    let on = call == CALLED;
    Bypass {
        kept,
        mark: mark(on, kept, b),
        timer: timer(kept, b),
    }
}

// No bypass, and no mark.
pub fn none() -> Bypass
    ensures { result ≡ no_bypass }
{
    Bypass {
        kept: false,
        mark: false,
        timer: 0,
    }
}

// Whether what is kept is out of range, in metering or not, with this priority lane.
pub fn spoilt(metering: bool, priority: u16, b: Bypass) -> bool
    ensures { result ≡ bypass_spoilt metering priority b }
{
    if b.kept {
        if priority == 0 {
            return true;
        }
        if LONGEST_TIMER < b.timer {
            return true;
        }
        return !metering;
    }
    0 < b.timer
}
