// The polling desk of the centre: it polls cabinets 0 to 31 over one line, one to a tick. Each call takes
// any desk and any number.
#![tactic(auto)]

ghost use Rattle.std.specs.Prelude.{◌≡◌, ◌<◌, ◌≤◌, ◌+◌, length};
ghost use Rattle.turns.specs.Turn.{next_of, first_after};
ghost use Rattle.desk.specs.declared.Changed.{Changed};
ghost use Rattle.desk.specs.declared.DeskTicked.{DeskTicked};
ghost use Rattle.desk.specs.Desk.{fresh_desk, enrolled_at, has_place, spoilt_desk, refusal_of, with_cabinet, tries_without, without_cabinet, enrol_of, remove_of};
ghost use Rattle.desk.specs.Tick.{is_again, again_of, before_first, passed_of, tick_of};
ghost use Rattle.desk.specs.InWords.{InRange, InTurn, EnrolAnswers, RemoveAnswers, TickAnswers};
ghost use Rattle.desk.specs.Removed.{NextPasses};
ghost use Rattle.desk.specs.Polling.{PolledInTime};

use refusals::Refusal;

const CABINETS: u8 = 32;

// The greatest cabinet's number, and the greatest answer.
pub const LAST_CABINET: u64 = 31;

pub const ANSWERED: u64 = 1;

const MOST_TRIES: u8 = 3;

// Who is enrolled; the cabinet polled by the last accepted tick, and how often running it has been, 0
// where nobody was. A caller hands each call the desk that the call before gave.
#[derive(Clone, Copy)]
pub struct Desk {
    pub enrolled: [bool; 32],
    pub turn: u8,
    pub tries: u8,
}

// What enrolling and removing give: the refusal, if there is one, and the desk, which is there refused too.
#[derive(Clone, Copy)]
pub struct Changed {
    pub refusal: Option<Refusal>,
    pub desk: Desk,
}

// What a tick gives: the refusal, if there is one, the desk, and the cabinet to poll now, or nobody.
#[derive(Clone, Copy)]
pub struct DeskTicked {
    pub refusal: Option<Refusal>,
    pub desk: Desk,
    pub polled: Option<u8>,
}

// A fresh desk. Whatever calls come, while enrolment is unchanged every enrolled cabinet is polled in time.
pub fn fresh() -> Desk
    ensures is { result ≡ fresh_desk }
    ensures polled_in_time { PolledInTime result }
{
    Desk {
        enrolled: [false; 32],
        turn: 0,
        tries: 0,
    }
}

fn enrolled_at(d: Desk, cabinet: u64) -> bool
    ensures { result ≡ enrolled_at d cabinet }
{
    let i = cabinet as usize;
    if 32 <= i {
        return false;
    }
    d.enrolled[i]
}

// The same of a place in the round, from 1.
fn has_place(d: Desk, place: u8) -> bool
    requires { 1 ≤ place }
    ensures { result ≡ has_place d place }
{
    enrolled_at(d, (place - 1) as u64)
}

fn spoilt(d: Desk) -> bool
    ensures { result ≡ spoilt_desk d }
{
    if LAST_CABINET < d.turn as u64 {
        return true;
    }
    MOST_TRIES < d.tries
}

// Which check refuses a call with a number that may be at most this: the desk's turn or tries are out of range, or the number is.
fn refusal_of(d: Desk, most: u64, number: u64) -> Option<Refusal>
    ensures { result ≡ refusal_of d most number }
{
    if spoilt(d) {
        return Some(Refusal::SpoiltState);
    }
    if most < number {
        return Some(Refusal::BadNumber);
    }
    None
}

fn with_cabinet(d: Desk, cabinet: u64) -> Desk
    requires { cabinet ≤ 31 }
    ensures { result ≡ with_cabinet d cabinet }
{
    if enrolled_at(d, cabinet) {
        return d;
    }
    let i = cabinet as usize;
    let mut next = d;
    next.enrolled[i] = true;
    next
}

// How often running the one in turn has been polled, once a cabinet is removed: if that is the one in turn,
// its tries are up.
fn tries_without(d: Desk, cabinet: u64) -> u8
    ensures { result ≡ tries_without d cabinet }
{
    if cabinet != d.turn as u64 {
        return d.tries;
    }
    if d.tries == 0 {
        return 0;
    }
    MOST_TRIES
}

fn without_cabinet(d: Desk, cabinet: u64) -> Desk
    requires { cabinet ≤ 31 }
    ensures { result ≡ without_cabinet d cabinet }
{
    if enrolled_at(d, cabinet) {
        let tries = tries_without(d, cabinet);
        let i = cabinet as usize;
        let mut next = d;
        next.enrolled[i] = false;
        next.tries = tries;
        return next;
    }
    d
}

// Enrols a cabinet.
pub fn enrol(desk: Desk, cabinet: u64) -> Changed
    ensures is { result ≡ enrol_of desk cabinet }
    ensures words { EnrolAnswers desk cabinet result }
    ensures no_other { (x : Changed) → length x.desk.enrolled ≡ 32 → EnrolAnswers desk cabinet x → x ≡ result }
    ensures in_range { InRange desk → InRange result.desk }
{
    let refusal = refusal_of(desk, LAST_CABINET, cabinet);
    if refusal.is_some() {
        return Changed { refusal, desk };
    }
    Changed {
        refusal,
        desk: with_cabinet(desk, cabinet),
    }
}

// Removes a cabinet. If it is the one in turn, the next accepted tick passes the turn.
pub fn remove(desk: Desk, cabinet: u64) -> Changed
    ensures is { result ≡ remove_of desk cabinet }
    ensures words { RemoveAnswers desk cabinet result }
    ensures no_other { (x : Changed) → length x.desk.enrolled ≡ 32 → RemoveAnswers desk cabinet x → x ≡ result }
    ensures passes { InRange desk → InTurn desk cabinet → NextPasses cabinet result.desk }
    ensures in_range { InRange desk → InRange result.desk }
{
    let refusal = refusal_of(desk, LAST_CABINET, cabinet);
    if refusal.is_some() {
        return Changed { refusal, desk };
    }
    Changed {
        refusal,
        desk: without_cabinet(desk, cabinet),
    }
}

// The place after this one, going round.
fn next_place(place: u8) -> u8
    ensures { result ≡ next_of 32 place }
{
    if place < CABINETS { place + 1 } else { 1 }
}

// The place of the first enrolled cabinet after this place, going round, or 0.
fn first_after(d: Desk, place: u8) -> u8
    ensures { result ≡ first_after (has_place d) 32 place 32 }
{
    let mut k = place;
    for _ in 0..CABINETS {
        k = next_place(k);
        if has_place(d, k) {
            return k;
        }
    }
    0
}

// Whether the one in turn is polled once more: it is silent, and its tries are not up.
fn is_again(d: Desk, answer: u64) -> bool
    ensures { result ≡ is_again d answer }
{
    if answer == 0 {
        if 0 < d.tries {
            if d.tries < MOST_TRIES {
                return enrolled_at(d, d.turn as u64);
            }
        }
    }
    false
}

// Polls the one in turn once more.
fn again(d: Desk) -> DeskTicked
    requires { d.tries < 3 }
    ensures { result ≡ again_of d }
{
    let mut next = d;
    next.tries = d.tries + 1;
    DeskTicked {
        refusal: None,
        desk: next,
        polled: Some(d.turn),
    }
}

// The place after which the turn passes: that of the one in turn, or, where nobody is, the last.
fn before_first(d: Desk) -> u8
    requires { d.turn ≤ 31 }
    ensures { result ≡ before_first d }
{
    if d.tries == 0 { CABINETS } else { d.turn + 1 }
}

// Passes the turn.
fn passed(d: Desk) -> DeskTicked
    requires { d.turn ≤ 31 }
    ensures { result ≡ passed_of d }
{
    let place = first_after(d, before_first(d));
    let mut next = d;
    if place == 0 {
        next.turn = 0;
        next.tries = 0;
        return DeskTicked {
            refusal: None,
            desk: next,
            polled: None,
        };
    }
    next.turn = place - 1;
    next.tries = 1;
    DeskTicked {
        refusal: None,
        desk: next,
        polled: Some(place - 1),
    }
}

// One tick, told whether the cabinet polled last answered, 0 or 1.
pub fn tick(desk: Desk, answer: u64) -> DeskTicked
    ensures is { result ≡ tick_of desk answer }
    ensures words { TickAnswers desk answer result }
    ensures no_other { (x : DeskTicked) → TickAnswers desk answer x → x ≡ result }
    ensures in_range { InRange desk → InRange result.desk }
    ensures polled_in_time { PolledInTime result.desk }
{
    let refusal = refusal_of(desk, ANSWERED, answer);
    if refusal.is_some() {
        return DeskTicked {
            refusal,
            desk,
            polled: None,
        };
    }
    if is_again(desk, answer) {
        return again(desk);
    }
    passed(desk)
}
