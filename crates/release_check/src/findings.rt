// What searches found, summed up in a line.
use streams::STDOUT_FILENO;

#[derive(Clone, Copy)]
pub struct Findings {
    // how often none was found, and each of four lanes
    pub counts: [u64; 5],
    // of the findings in their order
    pub digest: u32,
}

pub fn new() -> Findings {
    Findings {
        counts: [0u64; 5],
        digest: 0,
    }
}

// With one search more. A number above 4 changes the digest alone.
pub fn added(findings: Findings, found: u16) -> Findings {
    let mut f = findings;
    let k = found as usize;
    if k < 5 {
        f.counts[k] = f.counts[k].wrapping_add(1);
    }
    f.digest = test_output::digested(f.digest, found);
    f
}

fn print_number(number: u64) {
    io::write_all(STDOUT_FILENO, b" ");
    io::print_decimal(STDOUT_FILENO, number);
}

// The rest of a line, behind its name.
pub fn print(findings: Findings) {
    print_number(findings.counts[0]);
    print_number(findings.counts[1]);
    print_number(findings.counts[2]);
    print_number(findings.counts[3]);
    print_number(findings.counts[4]);
    print_number(findings.digest as u64);
    io::write_all(STDOUT_FILENO, b"\n");
}
