// What stands on standard error of words that are no speed or no grade, and of too many arguments.
ghost use Rattle.text.specs.Puts.{Puts};
ghost use Rattle.word_value.specs.Signed.{word_read};
ghost use Rattle.yellow_sheet.specs.Complaint.{usage_line, named_line, given_text, no_number_line, word_line, not_numbers, range_line, unless_in, ranges_of, complaint_of, wrong_count};

use refusals::Refusal;
use text::Text;
use word_value::BadWord;

pub fn put_usage(out: &mut Text)
    ensures { Puts out.old usage_line out.new }
{
    out.put(b"usage: yellow_sheet [SPEED GRADE]\n");
}

fn put_named(out: &mut Text, name: &[u8], what: &[u8])
    ensures { Puts out.old (named_line name.now what.now) out.new }
{
    out.put(b"the ");
    out.put(name);
    out.put(what);
}

// What a word is for, and the word as it was given.
fn put_given(out: &mut Text, name: &[u8], word: &[u8])
    ensures { Puts out.old (given_text name.now word.now) out.new }
{
    out.put(name);
    out.put_byte(b' ');
    out.put(word);
}

fn put_no_number(out: &mut Text, name: &[u8], word: &[u8])
    ensures { Puts out.old (no_number_line name.now word.now) out.new }
{
    put_given(out, name, word);
    out.put(b" is no number\n");
}

// The line of a word that is no number.
fn put_word(out: &mut Text, name: &[u8], word: &[u8], said: Result<i64, BadWord>)
    ensures { Puts out.old (word_line name.now word.now said) out.new }
{
    match said {
        Ok(_) => {}
        Err(BadWord::Empty) => put_named(out, name, b" is empty\n"),
        Err(BadWord::TooLong) => put_named(out, name, b" is longer than 4096 bytes\n"),
        Err(BadWord::NoNumber) => put_no_number(out, name, word),
    }
}

fn put_not_numbers(
    out: &mut Text,
    speed: &[u8],
    going: Result<i64, BadWord>,
    grade: &[u8],
    tipped: Result<i64, BadWord>,
)
    ensures { Puts out.old (not_numbers speed.now going grade.now tipped) out.new }
{
    put_word(out, b"speed", speed, going);
    put_word(out, b"grade", grade, tipped);
    put_usage(out);
}

// The line of a number that is out of range.
fn put_range(out: &mut Text, name: &[u8], word: &[u8], low: i64, to: &[u8], high: i64)
    ensures { Puts out.old (range_line name.now word.now low to.now high) out.new }
{
    phrases::put_opening(out, Refusal::BadApproach.number());
    put_given(out, name, word);
    out.put(b", allowed ");
    out.put_signed(low);
    out.put(to);
    out.put_signed(high);
    out.put_byte(b'\n');
}

// The same, and nothing of a number that is in range.
fn put_unless(out: &mut Text, good: bool, name: &[u8], word: &[u8], low: i64, to: &[u8], high: i64)
    ensures { Puts out.old (unless_in good (range_line name.now word.now low to.now high)) out.new }
{
    if good {
        return;
    }
    put_range(out, name, word, low, to, high);
}

fn put_ranges(out: &mut Text, speed: &[u8], v: i64, grade: &[u8], s: i64)
    ensures { Puts out.old (ranges_of speed.now v grade.now s) out.new }
{
    let swift = slope::speed_in(v);
    put_unless(
        out,
        swift,
        b"speed",
        speed,
        slope::LEAST_SPEED,
        b"-",
        slope::MOST_SPEED,
    );
    let steep = slope::grade_in(s);
    put_unless(
        out,
        steep,
        b"grade",
        grade,
        slope::LEAST_GRADE,
        b" to ",
        slope::MOST_GRADE,
    );
}

// The lines of two numbers, or of the words that are none.
fn put_of_words(
    out: &mut Text,
    speed: &[u8],
    going: Result<i64, BadWord>,
    grade: &[u8],
    tipped: Result<i64, BadWord>,
)
    ensures { Puts out.old (complaint_of speed.now going grade.now tipped) out.new }
{
    match (going, tipped) {
        (Ok(v), Ok(s)) => put_ranges(out, speed, v, grade, s),
        _ => put_not_numbers(out, speed, going, grade, tipped),
    }
}

pub fn put_complaint(out: &mut Text, speed: &[u8], grade: &[u8])
    ensures { Puts out.old (complaint_of speed.now (word_read speed.now) grade.now (word_read grade.now)) out.new }
{
    put_of_words(
        out,
        speed,
        word_value::read(speed),
        grade,
        word_value::read(grade),
    );
}

pub fn put_wrong_count(out: &mut Text, count: usize)
    ensures { Puts out.old (wrong_count count) out.new }
{
    phrases::put_wanted(out, count, b"none or 2");
    put_usage(out);
}
