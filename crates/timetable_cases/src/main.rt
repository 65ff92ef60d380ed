// Runs the timetable program on stored site files, each behind a line with its name. What it says
// on standard error of a refused file follows on standard output.
#![tactic(auto)]

use std::rt::Files;
use streams::STDOUT_FILENO;

fn show(rt: &(impl Files + Print), name: &[u8]) {
    io::write_all(STDOUT_FILENO, b"-- ");
    io::write_all(STDOUT_FILENO, name);
    io::write_all(STDOUT_FILENO, b"\n");
    timetable_file::run(rt, name, false, STDOUT_FILENO);
}

fn main(rt: HostRuntime) {
    show(&rt, b"absent.bin");
    show(&rt, b"folder.bin");
    show(&rt, b"empty_lists.bin");
    show(&rt, b"rows.bin");
    show(&rt, b"equal_starts.bin");
    show(&rt, b"longest.bin");
    show(&rt, b"oversized.bin");
    show(&rt, b"zeros.bin");
    show(&rt, b"minimum_green.bin");
}
