// Rebuilding macroblocks: prediction and residual, brought together block by block.
// Relies on what every store and every transform promises.
#![tactic(auto)]

pub mod block;
pub mod delivered;
pub mod macroblock;
pub mod places;
pub mod rebuilder;
pub mod segment;
