// Prints the districts' sheet of yellow times for slopes: for each approach speed the yellow at each
// grade in steps of 10 per mille; or the yellow of one speed and one grade.
#![tactic(auto)]

mod answer;
mod complaint;
mod sheet;

ghost use Rattle.io.specs.Counts.{IsPrefixLen};

use std::env::FillError;
use std::rt::Env;
use streams::STDERR_FILENO;
use text::Text;

// A byte more than a word may have, so that one that is too long is seen to be.
const ARGUMENT: usize = word_value::LONGEST_WORD + 1;

// How many bytes of argument i stand in the buffer; of one that is longer, the buffer's length.
fn argument(rt: &impl Env, i: usize, word: &mut [u8]) -> usize
    ensures { IsPrefixLen result word.new }
{
    match rt.arg(i, word) {
        Ok(n) => n,
        Err(FillError::TooLong) => word.len(),
        Err(FillError::NotPresent) => 0,
    }
}

fn print_words(rt: &impl Print, speed: &[u8], grade: &[u8]) {
    let mut buffer = io::large_buffer();
    let mut answer = Text::new(&mut buffer);
    answer::put_one(&mut answer, speed, grade);
    if site_program::write_text(rt, &answer) {
        let mut complaint = Text::new(&mut buffer);
        complaint::put_complaint(&mut complaint, speed, grade);
        site_program::write_error(STDERR_FILENO, complaint.whole());
    }
}

fn print_one(rt: &(impl Env + Print)) {
    let mut speed = [0u8; ARGUMENT];
    let mut grade = [0u8; ARGUMENT];
    let v = argument(rt, 1, &mut speed);
    let s = argument(rt, 2, &mut grade);
    print_words(rt, &speed[..v], &grade[..s]);
}

fn print_help(rt: &impl Print) {
    let mut buffer = io::buffer();
    let mut text = Text::new(&mut buffer);
    complaint::put_usage(&mut text);
    text.put(
        b"Prints the yellow in seconds for each approach speed, 20 to 80 km/h, and each grade, -80 to 80 per mille in steps of 10.\nDownhill is negative. With SPEED and GRADE it prints that one yellow in ticks and in seconds, as a line for a site's text.\ndocs/FORMATS.md describes both.\n",
    );
    site_program::write_text(rt, &text);
}

fn print_wrong_count(count: usize) {
    let mut buffer = io::buffer();
    let mut text = Text::new(&mut buffer);
    complaint::put_wrong_count(&mut text, count);
    site_program::write_error(STDERR_FILENO, text.whole());
}

fn main(rt: HostRuntime) {
    let count = site_program::arguments_given(&rt);
    match count {
        0 => sheet::print_sheet(&rt),
        1 => {
            if site_program::asks_help(&rt) {
                print_help(&rt);
            } else {
                print_wrong_count(count);
            }
        }
        2 => print_one(&rt),
        _ => print_wrong_count(count),
    }
}
