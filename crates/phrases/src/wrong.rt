// What is said of a number that is not allowed, and what is wrong in the trade's words.
ghost use Rattle.text.specs.Puts.{Puts};
ghost use Rattle.phrases.specs.Wrong.{trade_word, opening_text, range_text, allowed_text, not_allowed_text};

use text::Text;

// The trade word of a refusal, 1 to 17.
fn put_trade_word(out: &mut Text, refusal: u8)
    ensures { Puts out.old (trade_word refusal) out.new }
{
    out.put_item(
        b",short file,wrong count,bad timing,bad entry,bad holiday,bad level,long file,bad clock,bad sample,bad command,small buffer,no period,spoilt state,spoilt site,bad record,bad approach,too many entries",
        refusal as usize,
    );
}

// How a line begins that says what is wrong.
pub fn put_opening(out: &mut Text, refusal: u8)
    ensures { Puts out.old (opening_text refusal) out.new }
{
    put_trade_word(out, refusal);
    out.put(b": ");
}

fn put_range(out: &mut Text, low: u64, high: u64)
    ensures { Puts out.old (range_text low high) out.new }
{
    out.put_decimal(low);
    if low == high {
        return;
    }
    out.put_byte(b'-');
    out.put_decimal(high);
}

pub fn put_allowed(out: &mut Text, low: u64, high: u64)
    ensures { Puts out.old (allowed_text low high) out.new }
{
    out.put(b", allowed ");
    put_range(out, low, high);
}

// A number and the range that it is not in.
pub fn put_not_allowed(out: &mut Text, x: u64, low: u64, high: u64)
    ensures { Puts out.old (not_allowed_text x low high) out.new }
{
    crate::put_blank_and_decimal(out, x);
    put_allowed(out, low, high);
}
