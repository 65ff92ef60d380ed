// Replays stored ticks at stored site files: a line of standard input names a site file and a file of
// ticks. Each run stands behind a line with their names. What the program says on standard error
// follows on standard output.
#![tactic(auto)]

use std::rt::Files;
use streams::{STDIN_FILENO, STDOUT_FILENO};

fn show(rt: &(impl Files + Print), site: &[u8], ticks: &[u8]) {
    io::write_all(STDOUT_FILENO, b"-- ");
    io::write_all(STDOUT_FILENO, site);
    io::write_all(STDOUT_FILENO, b" ");
    io::write_all(STDOUT_FILENO, ticks);
    io::write_all(STDOUT_FILENO, b"\n");
    match file_input::open(rt, ticks) {
        Ok(mut file) => replay_file::replay(rt, site, false, &mut file, STDOUT_FILENO),
        Err(error) => streams::fail(ticks, error),
    }
}

// The run of one line.
fn show_line(rt: &(impl Files + Print), line: &[u8]) {
    if let Some(blank) = line.iter().position(|byte| *byte == b' ') {
        show(rt, &line[..blank], &line[blank + 1..]);
    }
}

fn show_all(rt: &(impl Files + Print), lines: &[u8]) {
    for line in lines.split(|byte| *byte == b'\n') {
        show_line(rt, line);
    }
}

fn main(rt: HostRuntime) {
    let mut lines = io::large_buffer();
    let n = io::read_full(STDIN_FILENO, &mut lines);
    show_all(&rt, &lines[..n]);
}
