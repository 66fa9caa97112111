// The candidates of a macroblock's vector, and the vector itself.
ghost use Rattle.std.specs.Prelude.{◌≡◌, ◌<◌};
ghost use Rattle.motion.specs.Vectors.{above_of, above_right_of, corrected, left_of, middle_of, predictor_of, vector_for, vectors_at};

use crate::vectors::Vector;
use records::types::{Difference, Macroblock};
use samples::{median, vector_component};

// The vector at a place of the segment, and zero where there is none.
pub fn vector_at(vectors: &[Vector], place: usize) -> Vector
    ensures { result ≡ vectors_at vectors.now place }
{
    tables::read(vectors, place).unwrap_or_default()
}

// The median of three, a component at a time.
fn middle_of(a: Vector, b: Vector, c: Vector) -> Vector
    ensures { result ≡ middle_of a b c }
{
    Vector {
        horizontal: median(a.horizontal, b.horizontal, c.horizontal),
        vertical: median(a.vertical, b.vertical, c.vertical),
    }
}

impl Vector {
    fn corrected(self, difference: Difference) -> Vector
        ensures { result ≡ corrected self difference }
    {
        Vector {
            horizontal: vector_component(self.horizontal, difference.horizontal),
            vertical: vector_component(self.vertical, difference.vertical),
        }
    }
}

// The neighbours of the macroblock that stands at a place of a segment of so many columns, in raster order: the vectors of those before it stand in
// a table.
#[derive(Clone, Copy)]
pub struct Neighbours<'a> {
    pub vectors: &'a [Vector],
    pub columns: usize,
    pub place: usize,
    pub ghost some_columns: { 0 < columns },
    pub ghost few: { place < 65535 },
}

impl Neighbours<'_> {
    // The candidate left of the macroblock.
    fn left(&self) -> Vector
        ensures { result ≡ left_of self.now.columns self.now.vectors.now self.now.place }
    {
        if self.place % self.columns == 0 {
            Vector::default()
        } else {
            vector_at(self.vectors, self.place - 1)
        }
    }

    // The candidate above it.
    fn above(&self) -> Vector
        ensures { result ≡ above_of self.now.columns self.now.vectors.now self.now.place }
    {
        if self.place < self.columns {
            self.left()
        } else {
            vector_at(self.vectors, self.place - self.columns)
        }
    }

    // The candidate above it and to the right.
    fn above_right(&self) -> Vector
        ensures { result ≡ above_right_of self.now.columns self.now.vectors.now self.now.place }
    {
        if (self.place + 1) % self.columns == 0 {
            Vector::default()
        } else if self.place < self.columns {
            self.left()
        } else {
            vector_at(self.vectors, self.place + 1 - self.columns)
        }
    }

    // The predictor: the median of the three candidates.
    fn predictor(&self) -> Vector
        ensures { result ≡ predictor_of self.now.columns self.now.vectors.now self.now.place }
    {
        middle_of(self.left(), self.above(), self.above_right())
    }

    // The vector of the macroblock itself.
    pub fn vector_for(&self, macroblock: &Macroblock) -> Vector
        ensures { result ≡ vector_for self.now.columns self.now.vectors.now self.now.place macroblock.now }
    {
        match macroblock {
            Macroblock::Inter { difference, .. } => self.predictor().corrected(*difference),
            _ => Vector::default(),
        }
    }
}
