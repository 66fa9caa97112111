// Two stores of one meaning: one keeps a byte for each sample, plane by plane; the other keeps four neighbours to a word, macroblock by
// macroblock.
#![tactic(auto)]

mod bytes;
mod cells;
mod room;
mod tiles;

pub use bytes::ByteStore;
pub use cells::CellStore;
pub use tiles::TileStore;
