// The replay program over a site file of any name and ticks from any file.
#![tactic(auto)]

mod ticks;

use site::Misread;
use std::io::Read;
use std::rt::Files;
use text::Text;

fn print_refusal(rt: &impl Print, misread: Misread) -> bool {
    let mut buffer = io::buffer();
    let mut text = Text::new(&mut buffer);
    phrases::put_refusal(&mut text, misread.refusal.number(), misread.place);
    site_program::write_text(rt, &text)
}

// Replays the ticks of a file at the site of that name. A site file that is refused prints why, and
// is explained on a file for errors; one that cannot be read, or that the user named and that is
// absent, is reported on standard error.
pub fn replay(
    rt: &(impl Files + Print),
    name: &[u8],
    named: bool,
    ticks: &mut impl Read,
    errors: i32,
) {
    let mut buffer = [0u8; site_reader::FRONT];
    if let Some(file) = file_input::read_file(rt, name, named, &mut buffer) {
        match site_reader::read(file) {
            Ok(site) => ticks::replay_at(rt, site, ticks, errors),
            Err(misread) => {
                if print_refusal(rt, misread) {
                    site_program::explain(errors, name, file);
                }
            }
        }
    }
}
