// The answer of a call that writes into a caller's buffer.
#![tactic(auto)]

use refusals::Refusal;

// How many bytes were written, or why none was.
pub type Written = Result<usize, Refusal>;
