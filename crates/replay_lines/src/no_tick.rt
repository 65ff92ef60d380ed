// The line that ends a replay: why a line is no tick.
ghost use Rattle.std.specs.Prelude.{◌≤◌, length};
ghost use Rattle.text.specs.Puts.{Puts};
ghost use Rattle.replay_lines.specs.NoTick.{word_text, above_text, no_number_text, empty_text, count_text, reason_text, no_tick_line};
ghost use Rattle.replay_lines.specs.Replay.{longest_answer};

use text::Text;
use tick_line::Verdict;

fn put_word(out: &mut Text, word: u64)
    ensures { Puts out.old (word_text word) out.new }
{
    out.put(b"word ");
    out.put_decimal(word);
}

fn put_no_number(out: &mut Text, word: u64)
    ensures { Puts out.old (no_number_text word) out.new }
{
    put_word(out, word);
    out.put(b" is no number");
}

fn put_above(out: &mut Text, word: u64)
    ensures { Puts out.old (above_text word) out.new }
{
    put_word(out, word);
    out.put(b" is above ");
    out.put_decimal(tick_line::most_of(word));
}

fn put_empty(out: &mut Text, word: u64)
    ensures { Puts out.old (empty_text word) out.new }
{
    put_word(out, word);
    out.put(b" is empty");
}

fn put_count(out: &mut Text, words: u64, wanted: u64)
    ensures { Puts out.old (count_text words wanted) out.new }
{
    out.put_decimal(words);
    out.put(b" numbers, ");
    out.put_decimal(wanted);
    out.put(b" wanted");
}

fn put_reason(out: &mut Text, verdict: Verdict)
    ensures { Puts out.old (reason_text verdict) out.new }
{
    match verdict {
        Verdict::Tick => out.put(b""),
        Verdict::Count(words, wanted) => put_count(out, words, wanted),
        Verdict::NoNumber(word) => put_no_number(out, word),
        Verdict::Above(word) => put_above(out, word),
        Verdict::Empty(word) => put_empty(out, word),
    }
}

// Line k is no tick, and why.
pub fn put_no_tick(out: &mut Text, k: u64, verdict: Verdict)
    ensures is { Puts out.old (no_tick_line k verdict) out.new }
    ensures short { length (no_tick_line k verdict) ≤ longest_answer }
{
    out.put(b"line ");
    out.put_decimal(k);
    out.put(b" is no tick: ");
    put_reason(out, verdict);
    out.put_byte(b'\n');
}
