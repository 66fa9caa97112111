// The records of a delivery: four-byte words that become macroblocks, or one exactly located fault.
// Relies on nothing but the standard library; allocates nothing and reads each word once.
#![tactic(auto)]

pub mod again;
mod block;
pub mod checked;
pub mod delivery;
pub mod faults;
mod fields;
pub mod macroblock;
mod numbers;
pub mod reader;
pub mod show;
mod take;
pub mod types;

pub use block::is_coded;
