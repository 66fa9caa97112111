// The fields and numbers of a script's lines, the lines that list the records of a delivery, and what may be wrong with a line.
// Relies on `records` for the kind of a picture. A script is text, one call to a line; `#` begins a comment.
#![tactic(auto)]

pub mod fields;
pub mod line;
pub mod numbers;
pub mod show;
