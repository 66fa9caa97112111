// What C holds of a reel: it and its memory in a block of their own, behind a pointer, and answers in numbers. Relies on `reels_in_memory` for the calls. Six
// functions go through a pointer, and their proofs are by hand. (A library of its own, so that the exports above it stay plain calls.)
#![tactic(auto)]

pub mod answer;
pub mod begin;
pub mod calling;
pub mod handle;
pub mod kept;
pub mod raw_box;
pub mod slot;
