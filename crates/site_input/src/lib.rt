// The site in the file that a program is asked for.
#![tactic(auto)]

ghost use Rattle.std.specs.Prelude.{◌≡◌, false, IfSome};
ghost use Rattle.site.specs.Record.{spoilt_site};

use site::{Misread, Site};
use std::rt::Files;
use streams::STDERR_FILENO;
use text::Text;

// Says on standard error that a file is refused, as a number and a place and, where it is to be explained,
// in words.
fn report(name: &[u8], file: &[u8], misread: Misread, explained: bool) {
    let mut buffer = io::buffer();
    let mut line = Text::new(&mut buffer);
    phrases::put_refusal(&mut line, misread.refusal.number(), misread.place);
    site_program::write_error(STDERR_FILENO, line.whole());
    if explained {
        site_program::explain(STDERR_FILENO, name, file);
    }
}

// The site in the file of that name, where it can be read and is accepted. A refused one is reported.
pub fn site_of(rt: &impl Files, name: &[u8], named: bool, explained: bool) -> Option<Site>
    ensures { IfSome result (λ site. spoilt_site site ≡ false) }
{
    let mut buffer = [0u8; site_reader::FRONT];
    let file = file_input::read_file(rt, name, named, &mut buffer)?;
    match site_reader::read(file) {
        Ok(site) => Some(site),
        Err(misread) => {
            report(name, file, misread, explained);
            None
        }
    }
}
