// Simulates the tick records of standard input at a site as simulate does, but by a call for each tick.
#![tactic(auto)]

fn main(rt: HostRuntime) {
    let mut buffer = io::buffer();
    let site = site_program::asked_site(
        &rt,
        b"usage: single_ticks [SITE] < RECORDS\n",
        b"Simulates tick records at a site, from a power-up, by a call for each tick. SITE is the site file,\nsite.bin without one. Writes a byte for each lane and one for the sign of each accepted tick; on\nstandard error, at the end or at the first refusal, how many were accepted and the refusal or 0.\ndocs/FORMATS.md describes the site file, the records and the answers.\n",
        &mut buffer,
    );
    if let Some(site) = site {
        simulate_file::simulate(&rt, &mut rt.stdin(), site.name, site.named, true);
    }
}
