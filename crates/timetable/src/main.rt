// Prints the timetable of a site file.
#![tactic(auto)]

use streams::STDERR_FILENO;

fn main(rt: HostRuntime) {
    let mut buffer = io::buffer();
    let site = site_program::asked_site(
        &rt,
        b"usage: timetable [SITE]\n",
        b"Prints the timetable of SITE, the site file, site.bin without one: per day type the entries by start.\ndocs/FORMATS.md describes the site file.\n",
        &mut buffer,
    );
    if let Some(site) = site {
        timetable_file::run(&rt, site.name, site.named, STDERR_FILENO);
    }
}
