// Reads cases from standard input, each behind its length in two bytes: a site file, and operations
// on a controller at that site. Prints of each what its calls answer, and the states.
#![tactic(auto)]

mod input;
mod print;
mod run;
mod site_record;

// The site file stands behind its own length.
fn answer(case: &[u8]) {
    let n = numbers::word(case, 0) as usize;
    if case.len() < 2 {
        return;
    }
    let rest = &case[2..];
    if rest.len() < n {
        return;
    }
    run::answer_case(&rest[..n], &rest[n..]);
}

fn main() {
    test_input::answer_all(&mut io::large_buffer(), answer);
}
