// The answers to a script as text, a line for each, with the sums of the pictures that were closed and the count of the calls.
// Relies on `calls` for what is answered and on `script` for what is wrong with a line.
#![tactic(auto)]

pub mod answers;
pub mod macroblocks;
pub mod sums;
pub mod transcript;
