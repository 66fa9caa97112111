// A reel of pictures: opening, delivering, closing, and two questions, each proved to do what `calls` says it means, over every store and every
// transform. Relies on what stores and transforms promise, on the reading of deliveries
// and on the rebuilding of segments. Allocates nothing.
#![tactic(auto)]

mod closing;
mod delivering;
pub mod memory;
mod opening;
mod questions;
pub mod reels;
