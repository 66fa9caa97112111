// Pictures by their meaning: formats, layouts and segments, what a store of samples promises, and what can be done over every store.
#![tactic(auto)]

mod formats;
mod layouts;
mod planes;
mod sizes;
mod sweeps;

pub use formats::{Format, UnknownFormat};
pub use layouts::{Segment, has_bit};
pub use planes::{Store, is_inside, side_of, start_of};
pub use sizes::Size;
pub use sweeps::{copy_picture, copy_segment, fill_segment};
