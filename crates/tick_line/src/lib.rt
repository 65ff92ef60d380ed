// A tick's line: its bytes, in one part or several, and the tick that they give.
#![tactic(auto)]

mod reading;
mod scan;

pub use reading::{ReadLine, Verdict, is_tick, read};
pub use scan::{Scan, Stage, after_byte, line_start, most_of, one_more};
