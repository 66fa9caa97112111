// The rules by which single samples, vectors and ages are rebuilt: leaves for the code that goes over pictures.
#![tactic(auto)]

ghost use Rattle.samples.specs.Figures.{Figures};

mod ages;
mod deblocking;
mod prediction;
mod vectors;

pub use ages::{NEVER, next_age};
pub use deblocking::{Four, FourRows, deblock_rows};
pub use prediction::{
    Rounding, UnknownRounding, add_residual, add_residuals, between_four, between_two,
    squares_between_four, squares_between_two,
};
pub use vectors::{chroma_component, median, vector_component};

// The definitions that the contracts of this crate and of the transforms cite give the worked figures.
pub fn figures()
    ensures { Figures }
{}
