// What is decided, asked for: by whoever wants to know, at a state as it stands.
#![tactic(auto)]

ghost use Rattle.std.specs.Prelude.{◌≡◌, IfOk};
ghost use Rattle.calendar.specs.Named.{Typed};
ghost use Rattle.wanted.specs.Decision.{EntryInForce, command_in_force};
ghost use Rattle.wanted.specs.Levelled.{Levelled};
ghost use Rattle.decide.specs.Decide.{first_refusal, refusal_of, decided_of, decision_given};

use calendar::Clock;
use inputs::Command;
use refusals::Refusal;
use site::Site;
use state::State;
use wanted::Decision;

// The first check that refuses, if one does, where it is told which of them do.
fn first_refusal(site: bool, state: bool, clock: bool, commands: bool) -> Option<Refusal>
    ensures { result ≡ first_refusal site state clock commands }
{
    if site {
        return Some(Refusal::SpoiltSite);
    }
    if state {
        return Some(Refusal::SpoiltState);
    }
    if clock {
        return Some(Refusal::BadClock);
    }
    if commands {
        return Some(Refusal::BadCommand);
    }
    None
}

// Which check refuses to decide, if one does.
fn refusal_of(
    site: Site,
    state: State,
    clock: Clock,
    manual: Command,
    centre: Command,
) -> Option<Refusal>
    ensures { result ≡ refusal_of site state clock manual centre }
{
    first_refusal(
        site::spoilt(site),
        state::spoilt(state, site::shape_of(site)),
        calendar::clock_bad(clock),
        inputs::commands_bad(manual, centre),
    )
}

// What is decided, or why it is not.
pub fn decide(
    site: Site,
    state: State,
    clock: Clock,
    manual: Command,
    centre: Command,
) -> Result<Decision, Refusal>
    ensures is { result ≡ decided_of site state clock manual centre }
    ensures day { IfOk result (λ decision. Typed clock.date site.dates site.holidays decision.day) }
    ensures entry { IfOk result (λ decision. EntryInForce site clock decision.entry) }
    ensures levelled { IfOk result (λ decision. Levelled site (command_in_force site clock manual centre) state.periods decision.level decision.wish) }
{
    if let Some(refusal) = refusal_of(site, state, clock, manual, centre) {
        return Err(refusal);
    }
    Ok(wanted::wanted_now(site, clock, manual, centre, state.periods))
}

// The decision given: where it is refused it has no day and no entry, and is dark.
pub fn decision_given(decided: Result<Decision, Refusal>) -> Decision
    ensures { result ≡ decision_given decided }
{
    match decided {
        Ok(decision) => decision,
        Err(_) => wanted::no_decision(),
    }
}
