// Motion-compensated prediction inside a segment: the finished picture, read at a block's place moved by its vector.
// Relies on what every store promises and on the rules for single samples.
#![tactic(auto)]

pub mod window;
