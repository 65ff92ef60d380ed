// What the programs do alike: their argument and their help, the site file that they are asked for,
// their output and their errors.
#![tactic(auto)]

mod arguments;

ghost use Rattle.std.specs.Prelude.{◌≤◌, length, IfSome};
ghost use Rattle.io.specs.Counts.{IsPrefixLen};
ghost use Rattle.std.specs.Io.{WritesAtMost};

pub use arguments::{Asked, asked_by};
use std::env::FillError;
use std::io::Error;
use std::rt::Env;
use streams::STDERR_FILENO;
use text::Text;

// The name of the site file that is to be read, and whether the user gave it.
#[derive(Clone, Copy)]
pub struct AskedSite<'a> {
    pub name: &'a [u8],
    pub named: bool,
}

// Writes a text. A failure is reported on standard error.
pub fn write_out(rt: &impl Print, text: &[u8]) -> bool {
    match rt.write_all(text) {
        Ok(()) => true,
        Err(error) => {
            streams::fail(b"standard output", error);
            false
        }
    }
}

// Writes the first n bytes of a text, where there are as many.
pub fn write_front(rt: &impl Print, text: &[u8], n: usize) -> bool {
    if text.len() < n {
        return false;
    }
    write_out(rt, &text[..n])
}

// Writes a text, where it fits its buffer.
pub fn write_text(rt: &impl Print, text: &Text) -> bool {
    match text.whole() {
        Some(bytes) => write_out(rt, bytes),
        None => false,
    }
}

// Writes a text, if it fitted its buffer, to a file for errors, whose own failure has no place to be reported.
pub fn write_error(errors: i32, text: Option<&[u8]>) {
    if let Some(bytes) = text {
        io::write_all(errors, bytes);
    }
}

// Says what is wrong with the site file of that name, if anything is.
pub fn explain(errors: i32, name: &[u8], file: &[u8]) {
    let mut buffer = io::large_buffer();
    let mut text = Text::new(&mut buffer);
    site_diagnosis::put_diagnosis(&mut text, name, file);
    write_error(errors, text.whole());
}

pub fn print_help(rt: &impl Print, usage: &[u8], help: &[u8]) {
    if write_out(rt, usage) {
        write_out(rt, help);
    }
}

// An argument that is empty, or longer than any name; `what` says which it is.
fn print_no_name(got: Result<usize, FillError>, what: &[u8]) {
    match got {
        Ok(_) => {
            io::write_all(STDERR_FILENO, what);
            io::write_all(STDERR_FILENO, b" is empty\n");
        }
        Err(FillError::TooLong) => {
            streams::fail(what, Error::from_raw_os_error(streams::ENAMETOOLONG));
        }
        Err(FillError::NotPresent) => {
            streams::fail(what, Error::from_raw_os_error(streams::EINVAL));
        }
    }
}

fn print_no_option(argument: &[u8], usage: &[u8]) {
    io::write_all(STDERR_FILENO, argument);
    io::write_all(STDERR_FILENO, b" is no option\n");
    io::write_all(STDERR_FILENO, usage);
}

// Another number of arguments than is wanted.
pub fn print_wanted(count: usize, wanted: &[u8], usage: &[u8]) {
    let mut buffer = io::buffer();
    let mut text = Text::new(&mut buffer);
    phrases::put_wanted(&mut text, count, wanted);
    write_error(STDERR_FILENO, text.whole());
    io::write_all(STDERR_FILENO, usage);
}

// How many arguments stand behind the program's own name.
pub fn arguments_given(rt: &impl Env) -> usize {
    let mut count = 0;
    for i in 1..usize::MAX {
        if let Err(FillError::NotPresent) = rt.arg(i, &mut []) {
            break;
        }
        count = i;
    }
    count
}

// How long an argument is that stands in the front of a buffer; 0 of one that is missing or too long.
fn length_of(got: Result<usize, FillError>, buf: &[u8]) -> usize
    requires { WritesAtMost got buf.now }
    ensures { IsPrefixLen result buf.now }
{
    got.unwrap_or(0)
}

// Puts argument i in the front of a buffer: its length, or 0 where it is missing or too long.
pub fn argument(rt: &impl Env, i: usize, buf: &mut [u8]) -> usize
    ensures { IsPrefixLen result buf.new }
{
    let got = rt.arg(i, buf);
    length_of(got, buf)
}

// Whether the first argument asks for help.
pub fn asks_help(rt: &impl Env) -> bool {
    let mut word = io::buffer();
    let n = argument(rt, 1, &mut word);
    matches!(asked_by(1, &word[..n]), Asked::Help)
}

// The name that is read where none is given, if a buffer has room for it.
fn default_name(buf: &[u8]) -> Option<AskedSite<'static>>
    ensures { IfSome result (λ site. length site.name.now ≤ length buf.now) }
{
    if buf.len() < 8 {
        return None;
    }
    Some(AskedSite {
        name: b"site.bin",
        named: false,
    })
}

// An argument that is a site file's name, or what is wrong with it.
fn named<'a>(
    asked: Asked,
    got: Result<usize, FillError>,
    what: &[u8],
    usage: &[u8],
    name: &'a [u8],
) -> Option<AskedSite<'a>>
    ensures { IfSome result (λ site. length site.name.now ≤ length name.now) }
{
    match asked {
        Asked::Named => Some(AskedSite { name, named: true }),
        Asked::NoName => {
            print_no_name(got, what);
            None
        }
        _ => {
            print_no_option(name, usage);
            None
        }
    }
}

// The site file that the arguments ask for; its name is put in the front of a buffer. Help is
// printed, and arguments that are wrong are reported.
pub fn asked_site<'a>(
    rt: &(impl Env + Print),
    usage: &[u8],
    help: &[u8],
    buf: &'a mut [u8],
) -> Option<AskedSite<'a>>
    ensures { IfSome result (λ site. length site.name.now ≤ length buf.old) }
{
    let count = arguments_given(rt);
    let got = rt.arg(1, buf);
    let n = length_of(got, buf);
    match asked_by(count, &buf[..n]) {
        Asked::Default => default_name(buf),
        Asked::Help => {
            print_help(rt, usage, help);
            None
        }
        Asked::TooMany => {
            print_wanted(count, b"at most 1", usage);
            None
        }
        asked => named(asked, got, b"the site file's name", usage, &buf[..n]),
    }
}

// The site file that argument i names, one of several; `what` says which. Help is not asked for among them.
pub fn asked_name<'a>(
    rt: &impl Env,
    i: usize,
    what: &[u8],
    usage: &[u8],
    buf: &'a mut [u8],
) -> Option<AskedSite<'a>>
    ensures { IfSome result (λ site. length site.name.now ≤ length buf.old) }
{
    let got = rt.arg(i, buf);
    let n = length_of(got, buf);
    let name = &buf[..n];
    named(asked_by(1, name), got, what, usage, name)
}
