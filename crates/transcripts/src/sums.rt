// Sums of 32 bits over bytes: the Fowler-Noll-Vo sum that takes a byte in before it multiplies.
ghost use Rattle.std.specs.Prelude.{◌≡◌, Some};
ghost use Rattle.transcripts.specs.Sums.{eight_digits, plane_sum, sum_more, sum_of, sum_with_row, sums_text};

use pictures::{Store, side_of};
use std::fmt;

// The sum of no bytes.
const NONE: u32 = 2_166_136_261;

// The sum with one byte more.
fn sum_more(sum: u32, byte: u8) -> u32
    ensures { result ≡ sum_more sum byte }
{
    (sum ^ u32::from(byte)).wrapping_mul(16_777_619)
}

// The sum of a table.
pub fn sum_table(cells: &[u8]) -> u32
    ensures { result ≡ sum_of cells.now }
{
    cells.iter().fold(NONE, |sum, cell| sum_more(sum, *cell))
}

// A sum with the samples of one row of a plane, from left to right.
fn sum_row<S: Store>(sum: u32, store: &S, plane: u8, down: usize, width: usize) -> u32
    ensures { result ≡ sum_with_row ((S.picture store.now).sample plane) down width sum }
{
    // a `fold` over the range did not prove: the library's lemmas on ranges did not reach the sum of a row
    let mut sum = sum;
    for across in 0..width {
        sum = sum_more(sum, store.sample(plane, across, down));
    }
    sum
}

// The sum of a plane, row by row from the top.
pub fn sum_plane<S: Store>(store: &S, plane: u8) -> u32
    ensures { result ≡ plane_sum (S.picture store.now) plane }
{
    // as in a row
    let mut sum = NONE;
    let side = side_of(plane);
    let width = store.columns() as usize * side;
    for down in 0..store.rows() as usize * side {
        sum = sum_row(sum, store, plane, down, width);
    }
    sum
}

// A sum in eight hexadecimal digits.
#[derive(Clone, Copy)]
struct Digits {
    sum: u32,
}

impl fmt::Display for Digits {
    ghost output = { λ d. Some (eight_digits d.sum) };

    fn fmt<W: fmt::Write>(&self, f: &mut fmt::Formatter<W>) -> fmt::Result {
        let sum = self.sum;
        write!(f, "{sum:08x}")
    }
}

// The sums of a finished picture's planes and of its ages.
#[derive(Clone, Copy)]
pub struct PictureSums {
    pub luma: u32,
    pub cb: u32,
    pub cr: u32,
    pub ages: u32,
}

impl fmt::Display for PictureSums {
    ghost output = { λ sums. Some (sums_text sums) };

    fn fmt<W: fmt::Write>(&self, f: &mut fmt::Formatter<W>) -> fmt::Result {
        let luma = Digits { sum: self.luma };
        let cb = Digits { sum: self.cb };
        let cr = Digits { sum: self.cr };
        let ages = Digits { sum: self.ages };
        write!(f, "picture {luma} {cb} {cr} ages {ages}")
    }
}
