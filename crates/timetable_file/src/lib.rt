// The timetable program over a file of any name.
#![tactic(auto)]

use std::rt::Files;

// Prints the timetable of the site file of that name, or the line that says why it is refused, and
// explains that on a file for errors. A file that cannot be read, or that the user named and that is
// absent, is reported on standard error, and nothing is printed.
pub fn run(rt: &(impl Files + Print), name: &[u8], named: bool, errors: i32) {
    let mut buffer = [0u8; site_reader::FRONT];
    if let Some(file) = file_input::read_file(rt, name, named, &mut buffer) {
        let mut text = [0u8; listing::LONGEST_TEXT];
        let count = listing::print_whole(file, &mut text);
        if site_program::write_out(rt, &text[..count]) {
            site_program::explain(errors, name, file);
        }
    }
}
