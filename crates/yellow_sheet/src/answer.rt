// What stands on standard output of one speed and one grade.
ghost use Rattle.text.specs.Puts.{Puts};
ghost use Rattle.word_value.specs.Signed.{word_read};
ghost use Rattle.yellow_sheet.specs.Answer.{ticks_text, yellow_line, answer_to, answer_of};

use text::Text;
use word_value::BadWord;

// The ticks, ready for a site's text, and behind the # what they are.
fn put_ticks(out: &mut Text, ticks: u16)
    ensures { Puts out.old (ticks_text ticks) out.new }
{
    out.put_decimal(ticks as u64);
    out.put(b" # ticks, yellow");
    phrases::put_blank_and_seconds(out, ticks);
}

fn put_line(out: &mut Text, speed: i64, grade: i64, ticks: u16)
    ensures { Puts out.old (yellow_line speed grade ticks) out.new }
{
    put_ticks(out, ticks);
    out.put(b" s at ");
    out.put_signed(speed);
    out.put(b" km/h and ");
    out.put_signed(grade);
    out.put(b" per mille\n");
}

fn put_answer(out: &mut Text, speed: i64, grade: i64)
    ensures { Puts out.old (answer_to speed grade) out.new }
{
    match slope::yellow_at(speed, grade) {
        Ok(ticks) => put_line(out, speed, grade, ticks),
        Err(refusal) => phrases::put_refused(out, refusal.number()),
    }
}

// Nothing where the speed or the grade is no number.
fn put_of_words(out: &mut Text, speed: Result<i64, BadWord>, grade: Result<i64, BadWord>)
    ensures { Puts out.old (answer_of speed grade) out.new }
{
    match (speed, grade) {
        (Ok(v), Ok(s)) => put_answer(out, v, s),
        _ => {}
    }
}

pub fn put_one(out: &mut Text, speed: &[u8], grade: &[u8])
    ensures { Puts out.old (answer_of (word_read speed.now) (word_read grade.now)) out.new }
{
    put_of_words(out, word_value::read(speed), word_value::read(grade));
}
