// What was decided, in a tick's line.
ghost use Rattle.text.specs.Puts.{Puts};
ghost use Rattle.tick_text.specs.Decided.{source_text, wish_text, ruling_text, wished_text, decision_text, bypass_text, accepted_text, decided_text};

use bypass::Doing;
use text::Text;
use tick::Ticked;
use wanted::{Decision, Source, Wish};

fn put_source(out: &mut Text, source: Source)
    ensures { Puts out.old (source_text source) out.new }
{
    match source {
        Source::Manual => out.put(b" manual"),
        Source::Centre => out.put(b" centre"),
        Source::Plan => out.put(b" plan"),
    }
}

fn put_wish(out: &mut Text, wish: Wish)
    ensures { Puts out.old (wish_text wish) out.new }
{
    match wish {
        Wish::Dark => out.put(b" dark"),
        Wish::Green => out.put(b" green"),
        Wish::Metering(_) => out.put(b" meter"),
        Wish::Clear => out.put(b" clear"),
    }
}

// Day, entry and source.
fn put_ruling(out: &mut Text, d: Decision)
    ensures { Puts out.old (ruling_text d) out.new }
{
    out.put_byte(b' ');
    phrases::put_day_name(out, d.day);
    phrases::put_blank_and_decimal(out, d.entry as u64);
    put_source(out, d.source);
}

// Level, wish and its rate.
fn put_wished(out: &mut Text, d: Decision)
    ensures { Puts out.old (wished_text d) out.new }
{
    phrases::put_blank_and_decimal(out, d.level as u64);
    put_wish(out, d.wish);
    phrases::put_blank_and_decimal(out, wanted::rate_of(d.wish) as u64);
}

// All of a decision.
pub fn put_decision(out: &mut Text, d: Decision)
    ensures { Puts out.old (decision_text d) out.new }
{
    put_ruling(out, d);
    put_wished(out, d);
}

// What the bus bypass does.
pub fn put_bypass(out: &mut Text, doing: Doing)
    ensures { Puts out.old (bypass_text doing) out.new }
{
    match doing {
        Doing::None => out.put(b" none"),
        Doing::Waits => out.put(b" waits"),
        Doing::Runs => out.put(b" runs"),
    }
}

// What is said of an accepted tick.
fn put_accepted(out: &mut Text, t: Ticked)
    ensures { Puts out.old (accepted_text t) out.new }
{
    put_decision(out, t.decision);
    phrases::put_blank_and_decimal(out, t.cycle as u64);
    phrases::put_blank_and_decimal(out, t.released as u64);
    put_bypass(out, t.bypass);
}

pub fn put_decided(out: &mut Text, t: Ticked)
    ensures { Puts out.old (decided_text t) out.new }
{
    if t.refusal.is_some() {
        return out.put(b" - - - - - - - - -");
    }
    put_accepted(out, t);
}
