// Squares of 8 by 8 samples, by rows, that have an edge in their middle: of what lies across it the four samples next to it.
ghost use Rattle.std.specs.Prelude.{◌≡◌, ℕ, ◌+◌, ◌-◌, ◌*◌, ◌<◌, if◌then◌else◌, nat_eq, slice_index, Decides};
ghost use Rattle.samples.specs.Deblocking.{four_at};
ghost use Rattle.deblocking.specs.Edges.{is_vertical};
ghost use Rattle.deblocking.specs.Squares.{MiddleSet, four_across};

use crate::Direction;
use samples::FourRows;

// A row of a square.
fn square_row(square: &[u8; 64], row: usize) -> [u8; 8]
    requires { row < 8 }
    ensures { (i : ℕ) → i < 8 → slice_index result i ≡ slice_index square.now (8 * row + i) }
{
    let mut values = [0; 8];
    values.copy_from_slice(&square[8 * row..8 * row + 8]);
    values
}

// A column of a square.
fn square_column(square: &[u8; 64], column: usize) -> [u8; 8]
    requires { column < 8 }
    ensures { (i : ℕ) → i < 8 → slice_index result i ≡ slice_index square.now (8 * i + column) }
{
    let mut values = [0; 8];
    for (i, value) in values.iter_mut().enumerate() {
        *value = square[8 * i + column];
    }
    values
}

// Sets a row of a square, and nothing else of it.
fn set_row(square: &mut [u8; 64], row: usize, values: &[u8; 8])
    requires { row < 8 }
    ensures { (i j : ℕ) → i < 8 → j < 8 → slice_index square.new (8 * j + i) ≡ (if nat_eq j row then slice_index values.now i else slice_index square.old (8 * j + i)) }
{
    square[8 * row..8 * row + 8].copy_from_slice(values);
}

// Sets a column of a square, and nothing else of it.
fn set_column(square: &mut [u8; 64], column: usize, values: &[u8; 8])
    requires { column < 8 }
    ensures { (i j : ℕ) → i < 8 → j < 8 → slice_index square.new (8 * i + j) ≡ (if nat_eq j column then slice_index values.now i else slice_index square.old (8 * i + j)) }
{
    for (i, value) in values.iter().enumerate() {
        square[8 * i + column] = *value;
    }
}

impl Direction {
    // The four samples at each of the eight places along the edge.
    pub(crate) fn middle(self, square: &[u8; 64]) -> FourRows
        ensures { (i : ℕ) → i < 8 → four_at result i ≡ four_across (is_vertical self) square.now i }
    {
        match self {
            Direction::Horizontal => FourRows {
                a: square_row(square, 2),
                b: square_row(square, 3),
                c: square_row(square, 4),
                d: square_row(square, 5),
            },
            Direction::Vertical => FourRows {
                a: square_column(square, 2),
                b: square_column(square, 3),
                c: square_column(square, 4),
                d: square_column(square, 5),
            },
        }
    }

    // Sets the four samples at each of the eight places along the edge.
    pub(crate) fn set_middle(self, square: &mut [u8; 64], rows: &FourRows)
        ensures { MiddleSet (is_vertical self) rows.now square.old square.new }
    {
        match self {
            Direction::Horizontal => {
                set_row(square, 2, &rows.a);
                set_row(square, 3, &rows.b);
                set_row(square, 4, &rows.c);
                set_row(square, 5, &rows.d);
            }
            Direction::Vertical => {
                set_column(square, 2, &rows.a);
                set_column(square, 3, &rows.b);
                set_column(square, 4, &rows.c);
                set_column(square, 5, &rows.d);
            }
        }
    }
}

// Whether two have the same samples.
pub(crate) fn is_same(one: &FourRows, other: &FourRows) -> bool
    ensures { Decides result (one.now ≡ other.now) }
{
    (one.a == other.a) & (one.b == other.b) & (one.c == other.c) & (one.d == other.d)
}
