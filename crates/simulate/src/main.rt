// Simulates the tick records of standard input at a site, from a power-up.
#![tactic(auto)]

fn main(rt: HostRuntime) {
    let mut buffer = io::buffer();
    let site = site_program::asked_site(
        &rt,
        b"usage: simulate [SITE] < RECORDS\n",
        b"Simulates tick records at a site, from a power-up. SITE is the site file, site.bin without one.\nWrites a byte for each lane and one for the sign of each accepted tick; on standard error, at the end\nor at the first refusal, how many were accepted and the refusal or 0.\ndocs/FORMATS.md describes the site file, the records and the answers.\n",
        &mut buffer,
    );
    if let Some(site) = site {
        simulate_file::simulate(&rt, &mut rt.stdin(), site.name, site.named, false);
    }
}
