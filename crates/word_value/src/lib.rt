// The number that a word says.
#![tactic(auto)]

mod digits;
mod signed;

pub use digits::grown;
pub use signed::{BadWord, LONGEST_WORD, read};
