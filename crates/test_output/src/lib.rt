// What the test programs print, and the buffers that they lend.
#![tactic(auto)]

ghost use Rattle.io.specs.Counts.{IsPrefixLen};

use output::Written;
use streams::STDOUT_FILENO;
use text::Text;

// Buffers hold this byte before a call.
const UNTOUCHED: u8 = 165;

// The bytes of a buffer: more than the longest site file and the longest timetable need.
pub const ROOM: usize = 4096;

pub fn buffer() -> [u8; ROOM] {
    [UNTOUCHED; ROOM]
}

// How long the front of so many bytes is; a buffer that has fewer is its own front.
pub fn front_length(buffer: &[u8], size: usize) -> usize
    ensures { IsPrefixLen result buffer.now }
{
    size.min(buffer.len())
}

// Whether the bytes from a place on are as they were before the call.
pub fn untouched(buffer: &[u8], from: usize) -> bool {
    buffer.iter().skip(from).all(|byte| *byte == UNTOUCHED)
}

// The greatest prime below 2^32.
const DIGEST_MODULUS: u64 = 4294967291;

// A digest of numbers in their order, with one more.
pub fn digested(digest: u32, number: u16) -> u32 {
    (((digest as u64) * 31 + (number as u64)) % DIGEST_MODULUS) as u32
}

// Prints a text, if it fitted its buffer.
pub fn print(text: Option<&[u8]>) {
    if let Some(bytes) = text {
        io::write_all(STDOUT_FILENO, bytes);
    }
}

// The line of a site file that is refused.
pub fn print_refusal(refusal: u8, place: usize) {
    let mut buffer = io::buffer();
    let mut line = Text::new(&mut buffer);
    phrases::put_refusal(&mut line, refusal, place);
    print(line.whole());
}

// What a call answered, and whether it left every byte behind what it wrote as it was.
pub fn put_written(out: &mut Text, written: Written, kept: bool) {
    let (refusal, count) = match written {
        Ok(count) => (0, count),
        Err(refusal) => (refusal.number(), 0),
    };
    phrases::put_blank_and_decimal(out, refusal as u64);
    phrases::put_blank_and_decimal(out, count as u64);
    out.put(if kept { b" kept" } else { b" touched" });
}
