// Replays the ticks of standard input at a site.
#![tactic(auto)]

use streams::STDERR_FILENO;

fn main(rt: HostRuntime) {
    let mut buffer = io::buffer();
    let site = site_program::asked_site(
        &rt,
        b"usage: replay [SITE] < TICKS\n",
        b"Replays ticks at a site. SITE is the site file, site.bin without one; a line of TICKS is a tick.\nWrites a line for each tick, and the poll record and the speeds after each period, all answers before it reads on.\ndocs/FORMATS.md describes the site file, the ticks and the answers.\n",
        &mut buffer,
    );
    if let Some(site) = site {
        replay_file::replay(&rt, site.name, site.named, &mut rt.stdin(), STDERR_FILENO);
    }
}
