// The standard streams by their numbers, and the line on standard error that says why the system refused a call.
#![tactic(auto)]

use std::fmt::InlineText;
use std::io::Error;

pub const STDIN_FILENO: i32 = 0;

pub const STDOUT_FILENO: i32 = 1;

pub const STDERR_FILENO: i32 = 2;

// The system's number for an argument that it cannot take.
pub const EINVAL: i32 = 22;

// For a name that is too long.
pub const ENAMETOOLONG: i32 = 36;

// For bytes that are no text.
pub const EILSEQ: i32 = 84;

// More bytes than the words for an error and its number have.
const ROOM: usize = 128;

// The words for an error, without the number that stands behind them.
fn words(text: &str) -> &str {
    match text.rsplit_once(" (os error ") {
        Some((words, _)) => words,
        None => text,
    }
}

// What failed, as the caller names it, and the system's words for it. An error that is not the
// system's is one of an argument that the system cannot take: a name with a zero byte in it.
pub fn fail(what: &[u8], error: Error) {
    let code = error.raw_os_error().unwrap_or(EINVAL);
    let text = InlineText::<ROOM>::of(Error::from_raw_os_error(code));
    io::write_all(STDERR_FILENO, what);
    io::write_all(STDERR_FILENO, b": ");
    io::write_all(STDERR_FILENO, words(text.as_str()).as_bytes());
    io::write_all(STDERR_FILENO, b"\n");
}
