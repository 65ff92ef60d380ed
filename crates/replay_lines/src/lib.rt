// A replay: what the bytes of its ticks, part by part, add to its output.
#![tactic(auto)]

mod answer;
mod no_tick;
mod run;

pub use run::{LONGEST_ANSWER, Refused, Run, Taken, last, put_last, start, take};
