// Reads site files from standard input, each behind its length in two bytes, and prints of each why
// it is refused and where, and what is wrong with it in words, or that it is accepted and whether it
// is rewritten byte for byte. Then come the answers of `write`, where it is accepted, and of
// `print`: in a buffer with much room, in one that just holds what is written, and in one that is a
// byte shorter.
#![tactic(auto)]

use output::Written;
use site::Site;
use streams::STDOUT_FILENO;
use text::Text;

// What a call answered, and whether it left every byte behind what it wrote as it was.
#[derive(Clone, Copy)]
struct Outcome {
    written: Written,
    kept: bool,
}

// A call that writes into the front of a buffer, so many bytes.
fn write_front<F: Fn(&mut [u8]) -> Written>(call: F, buffer: &mut [u8], size: usize) -> Outcome
    requires { F.IsAlwaysCallable call }
{
    let end = test_output::front_length(buffer, size);
    let written = call(&mut buffer[..end]);
    Outcome {
        written,
        kept: test_output::untouched(buffer, written.unwrap_or(0)),
    }
}

fn write_to<F: Fn(&mut [u8]) -> Written>(call: F, size: usize) -> Outcome
    requires { F.IsAlwaysCallable call }
{
    write_front(call, &mut test_output::buffer(), size)
}

fn put_outcome(out: &mut Text, outcome: Outcome) {
    test_output::put_written(out, outcome.written, outcome.kept);
}

fn print_line(name: &[u8], much: Outcome, just: Outcome, less: Outcome) {
    let mut buffer = io::buffer();
    let mut line = Text::new(&mut buffer);
    line.put(name);
    put_outcome(&mut line, much);
    put_outcome(&mut line, just);
    put_outcome(&mut line, less);
    line.put_byte(b'\n');
    test_output::print(line.whole());
}

// What a call that writes answers, in each of the three buffers.
fn print_writes<F: Fn(&mut [u8]) -> Written>(name: &[u8], call: F)
    requires { F.IsAlwaysCallable call }
{
    let much = write_to(&call, test_output::ROOM);
    let count = much.written.unwrap_or(0);
    let just = write_to(&call, count);
    let less = write_to(&call, count.saturating_sub(1));
    print_line(name, much, just, less);
}

fn print_rewritten(site: Site, file: &[u8]) {
    let mut out = test_output::buffer();
    let written = site_writer::write(site, &mut out);
    let n = test_output::front_length(&out, written.unwrap_or(0));
    if check::same(&out[..n], file) {
        io::write_all(STDOUT_FILENO, b"accepted and rewritten\n");
    } else {
        io::write_all(STDOUT_FILENO, b"accepted and not rewritten\n");
    }
}

fn print_diagnosis(file: &[u8]) {
    let mut buffer = io::buffer();
    let mut text = Text::new(&mut buffer);
    site_diagnosis::put_diagnosis(&mut text, b"site.bin", file);
    test_output::print(text.whole());
}

fn answer(file: &[u8]) {
    match site_reader::read(file) {
        Ok(site) => {
            print_rewritten(site, file);
            print_writes(b"write", |out| site_writer::write(site, out));
        }
        Err(misread) => {
            test_output::print_refusal(misread.refusal.number(), misread.place);
            print_diagnosis(file);
        }
    }
    print_writes(b"print", |out| listing::print(file, out));
}

fn main() {
    test_input::answer_all(&mut io::buffer(), answer);
}
