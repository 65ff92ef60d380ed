// What the programs that read tick records do alike: whole records from a stream in a buffer of fixed size, and the line at the end.
#![tactic(auto)]

ghost use Rattle.std.specs.Prelude.{◌≡◌, cond, ◌-◌, ◌%◌, ◌≤◌, length, take, drop, IfSome};

use std::io::Read;
use streams::STDERR_FILENO;
use text::Text;

// How many bytes stand in the front of a buffer, and whether they are the last.
#[derive(Clone, Copy)]
pub struct Front {
    pub count: usize,
    pub last: bool,
}

// One read of the records behind the `held` bytes that are left of the one before. A failure is reported on standard error.
pub fn read_on(records: &mut impl Read, buffer: &mut [u8], held: usize) -> Option<Front>
    requires { held ≤ length buffer.old }
    ensures { IfSome result (λ front. front.count ≤ length buffer.old) }
{
    match records.read(&mut buffer[held..]) {
        Ok(n) => Some(Front {
            count: held + n,
            last: n == 0,
        }),
        Err(error) => {
            streams::fail(b"the records", error);
            None
        }
    }
}

// How many bytes the whole records have in a front of so many bytes; at the end of the stream all are taken.
pub fn taken(front: Front, size: usize) -> usize
    requires { 1 ≤ size }
    ensures is { result ≡ cond front.last front.count (front.count - front.count % size) }
    ensures most { result ≤ front.count }
{
    if front.last {
        return front.count;
    }
    front.count - front.count % size
}

// Moves the bytes from a place on to the front.
pub fn move_front(buffer: &mut [u8], from: usize, to: usize)
    requires { (from ≤ to) × (to ≤ length buffer.old) }
    ensures { take (to - from) buffer.new ≡ take (to - from) (drop from buffer.old) }
{
    for i in 0..to - from {
        buffer[i] = buffer[from + i];
    }
}

// The line at the end: how many ticks were accepted, and what refused the next record, or 0.
pub fn print_end(accepted: u64, refusal: u8) {
    let mut buffer = io::buffer();
    let mut line = Text::new(&mut buffer);
    line.put(b"accepted");
    phrases::put_blank_and_decimal(&mut line, accepted);
    line.put(b" refusal");
    phrases::put_blank_and_decimal(&mut line, refusal as u64);
    line.put_byte(b'\n');
    site_program::write_error(STDERR_FILENO, line.whole());
}
