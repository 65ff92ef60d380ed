// Reading a file that may be absent.
#![tactic(auto)]

ghost use Rattle.std.specs.Prelude.{◌≤◌, length, IfSome};

use std::fs::File;
use std::io::{Error, ErrorKind, Read, Result};
use std::rt::Files;

// The file of that name, to be read. A name that is no UTF-8 text is refused.
pub fn open<R: Files>(rt: &R, name: &[u8]) -> Result<R::File> {
    match std::str::from_utf8(name) {
        Ok(path) => File::open(rt, path),
        Err(_) => Err(Error::from_raw_os_error(streams::EILSEQ)),
    }
}

// Reads until buf is full or the input ends: how many bytes were read. A failure is reported on standard error.
fn read_all(name: &[u8], file: &mut impl Read, buf: &mut [u8]) -> Option<usize>
    ensures { IfSome result (λ count. count ≤ length buf.old) }
{
    let mut done: usize = 0;
    // a read gives as many bytes as it likes
    while done < buf.len() {
        match file.read(&mut buf[done..]) {
            Ok(0) => break,
            Ok(count) => done += count,
            Err(error) => {
                streams::fail(name, error);
                return None;
            }
        }
    }
    Some(done)
}

// Reads the front of the file of that name into buf. An absent one that nobody named counts as empty. A
// failure is reported on standard error.
pub fn read_file<'a>(
    rt: &impl Files,
    name: &[u8],
    named: bool,
    buf: &'a mut [u8],
) -> Option<&'a [u8]>
    ensures { IfSome result (λ file. length file.now ≤ length buf.old) }
{
    match open(rt, name) {
        Ok(mut file) => {
            let count = read_all(name, &mut file, buf)?;
            Some(&buf[..count])
        }
        Err(error) => {
            let absent = error.kind() == ErrorKind::NotFound;
            streams::fail(name, error);
            if named || !absent { None } else { Some(&[]) }
        }
    }
}
