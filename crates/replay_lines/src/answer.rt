// What a tick's end adds to the output: the tick's line, the poll's, and the readings'.
ghost use Rattle.std.specs.Prelude.{◌≡◌, ◌≤◌, length};
ghost use Rattle.text.specs.Puts.{Puts};
ghost use Rattle.replay_lines.specs.Answer.{completes, polled_text, speeds_text, answer_text};
ghost use Rattle.replay_lines.specs.Replay.{longest_answer};

use site::Site;
use state::State;
use text::Text;
use tick::Ticked;

// The longest poll record has 60 bytes.
const POLL_ROOM: usize = 64;

// The line of the poll record.
fn put_poll(out: &mut Text, site: Site, state: State)
    ensures { Puts out.old (polled_text site state) out.new }
{
    let mut bytes = [0u8; POLL_ROOM];
    let n = poll::poll(site, state, &mut bytes).unwrap_or(0);
    tick_text::put_poll(out, &bytes[..n]);
}

// The line of the readings.
fn put_speeds(out: &mut Text, site: Site, state: State)
    ensures { Puts out.old (speeds_text site state) out.new }
{
    let readings = readings::read(site, state);
    if readings.refusal.is_some() {
        return;
    }
    readings_text::put_speeds(out, readings, site::shape_of(site).mainline);
}

// Whether the tick completed a period.
fn completes(ticked: Ticked) -> bool
    ensures { result ≡ completes ticked }
{
    if ticked.refusal.is_some() {
        return false;
    }
    ticked.state.periods.ticks == 0
}

pub fn put_answer(out: &mut Text, site: Site, number: u64, ticked: Ticked)
    ensures is { Puts out.old (answer_text site number ticked) out.new }
    ensures short { length (answer_text site number ticked) ≤ longest_answer }
{
    tick_text::put_tick(out, number, site::shape_of(site).lanes, ticked);
    if !completes(ticked) {
        return;
    }
    put_poll(out, site, ticked.state);
    put_speeds(out, site, ticked.state);
}
