// The forward and the inverse transform in floating point, by their formula.
ghost use Rattle.std.specs.Prelude.{ℕ, ◌<◌, pos, negsuc, ◌≤ℤ◌, slice_index_or};

use std::array;
use std::num::saturating_f64_to_i16;

// cos(mπ/16) for m from 0 to 8.
const COSINES: [f64; 9] = [
    1.0,
    0.9807852804032304,
    0.9238795325112867,
    0.8314696123025452,
    0.7071067811865476,
    0.5555702330196023,
    0.38268343236508984,
    0.19509032201612833,
    0.0,
];

// Half of cos((2x + 1)uπ/16), and of the root of 1/2 for u = 0.
fn weight(u: usize, x: usize) -> f64
    requires { (u < 8) × (x < 8) }
{
    if u == 0 {
        return 0.5 * COSINES[4];
    }
    let angle = (2 * x + 1) * u % 32;
    let mirrored = if angle > 16 { 32 - angle } else { angle };
    if mirrored <= 8 {
        0.5 * COSINES[mirrored]
    } else {
        -0.5 * COSINES[16 - mirrored]
    }
}

// To the nearest whole number, and then to the nearer end.
fn rounded(x: f64, low: i16, high: i16) -> i16
    requires { low ≤ℤ high }
    ensures { (low ≤ℤ result) × (result ≤ℤ high) }
{
    let nearest = if x < 0.0 {
        saturating_f64_to_i16(x - 0.5)
    } else {
        saturating_f64_to_i16(x + 0.5)
    };
    nearest.clamp(low, high)
}

fn rounded_block(x: [f64; 64], low: i16, high: i16) -> [i16; 64]
    requires { low ≤ℤ high }
    ensures { (p : ℕ) → p < 64 → (low ≤ℤ slice_index_or result p (pos 0)) × (slice_index_or result p (pos 0) ≤ℤ high) }
{
    x.map(|x| rounded(x, low, high))
}

// The sum of the products of two rows.
fn product(a: &[f64], b: &[f64]) -> f64 {
    a.iter().zip(b).map(|(a, b)| *a * *b).sum()
}

fn row(x: &[f64; 64], n: usize) -> &[f64]
    requires { n < 8 }
{
    &x[8 * n..8 * n + 8]
}

// One pass over the rows, with the results by columns: two passes put each number back into its place.
fn pass(weights: &[f64; 64], x: &[f64; 64]) -> [f64; 64] {
    array::from_fn(|p| product(row(weights, p / 8), row(x, p % 8)))
}

#[derive(Drop)]
pub struct Reference {
    // by u and x, at 8×u + x, and by x and u
    forward: [f64; 64],
    inverse: [f64; 64],
}

impl Reference {
    pub fn new() -> Reference {
        Reference {
            forward: array::from_fn(|p| weight(p / 8, p % 8)),
            inverse: array::from_fn(|p| weight(p % 8, p / 8)),
        }
    }

    // The coefficients of a block of samples, from -2048 to 2047.
    pub fn forward(&self, samples: &[f64; 64]) -> [i16; 64]
        ensures { (p : ℕ) → p < 64 → (negsuc 2047 ≤ℤ slice_index_or result p (pos 0)) × (slice_index_or result p (pos 0) ≤ℤ pos 2047) }
    {
        let columns = pass(&self.forward, samples);
        rounded_block(pass(&self.forward, &columns), -2048, 2047)
    }

    // The results of a block of coefficients, from -256 to 255.
    pub fn inverse(&self, coefficients: &[i16; 64]) -> [i16; 64]
        ensures { (p : ℕ) → p < 64 → (negsuc 255 ≤ℤ slice_index_or result p (pos 0)) × (slice_index_or result p (pos 0) ≤ℤ pos 255) }
    {
        let columns = pass(&self.inverse, &coefficients.map(|c| f64::from(c)));
        rounded_block(pass(&self.inverse, &columns), -256, 255)
    }
}
