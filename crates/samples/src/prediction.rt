// The prediction of one sample, and its sum with a residual.
ghost use Rattle.std.specs.Prelude.{◌≡◌, ℕ, ◌<◌, ◌≤◌, pos, ◌+ℤ◌, slice_index, slice_index_or};
ghost use Rattle.samples.specs.Clipping.{clipped};
ghost use Rattle.samples.specs.Prediction.{between_four, between_two, rounding_named, rounding_of};

// A picture's rounding of halves: up is the number 0, down the number 1.
#[derive(Clone, Copy)]
pub enum Rounding {
    Up,
    Down,
}

// A number that stands for no rounding. (`records` and `pictures` have errors of this shape of their own: the three crates know nothing of each other.)
#[derive(Clone, Copy, PartialEq, Eq, Debug)]
pub struct UnknownRounding {
    pub number: u32,
}

impl From<Rounding> for u16 {
    ghost from_gives = { λ rounding number. (number ≡ rounding_of rounding) × (number ≤ 1) };

    fn from(rounding: Rounding) -> u16 {
        match rounding {
            Rounding::Up => 0,
            Rounding::Down => 1,
        }
    }
}

impl TryFrom<u32> for Rounding {
    type Error = UnknownRounding;

    ghost try_from_gives = { λ number rounding. rounding ≡ rounding_named number };

    fn try_from(number: u32) -> Result<Rounding, UnknownRounding> {
        match number {
            0 => Ok(Rounding::Up),
            1 => Ok(Rounding::Down),
            _ => Err(UnknownRounding { number }),
        }
    }
}

// Midway between two neighbours. (The operands of this and the rules below stay apart, as the rules have them.)
pub fn between_two(rounding: Rounding, a: u8, b: u8) -> u8
    ensures { result ≡ between_two (rounding_of rounding) a b }
{
    ((u16::from(a) + u16::from(b) + 1 - u16::from(rounding)) / 2) as u8
}

// In the middle of four neighbours.
pub fn between_four(rounding: Rounding, a: u8, b: u8, c: u8, d: u8) -> u8
    ensures { result ≡ between_four (rounding_of rounding) a b c d }
{
    let sum = u16::from(a) + u16::from(b) + u16::from(c) + u16::from(d);
    ((sum + 2 - u16::from(rounding)) / 4) as u8
}

// Midway between each two neighbours of two squares of 8 by 8.
pub fn squares_between_two(rounding: Rounding, a: &[u8; 64], b: &[u8; 64]) -> [u8; 64]
    ensures { (i : ℕ) → i < 64 → slice_index result i ≡ between_two (rounding_of rounding) (slice_index a.now i) (slice_index b.now i) }
{
    let mut square = [0; 64];
    for (i, sample) in square.iter_mut().enumerate() {
        *sample = between_two(rounding, a[i], b[i]);
    }
    square
}

// In the middle of each four neighbours of four squares of 8 by 8.
pub fn squares_between_four(
    rounding: Rounding,
    a: &[u8; 64],
    b: &[u8; 64],
    c: &[u8; 64],
    d: &[u8; 64],
) -> [u8; 64]
    ensures { (i : ℕ) → i < 64 → slice_index result i ≡ between_four (rounding_of rounding) (slice_index a.now i) (slice_index b.now i) (slice_index c.now i) (slice_index d.now i) }
{
    let mut square = [0; 64];
    for (i, sample) in square.iter_mut().enumerate() {
        *sample = between_four(rounding, a[i], b[i], c[i], d[i]);
    }
    square
}

// A prediction and its residual, brought into 0 to 255.
pub fn add_residual(prediction: u8, residual: i16) -> u8
    ensures { result ≡ clipped (pos prediction +ℤ residual) }
{
    (i32::from(prediction) + i32::from(residual)).clamp(0, 255) as u8
}

// The predictions of a square of 8 by 8 and their residuals, each sum brought into 0 to 255.
pub fn add_residuals(predictions: &[u8; 64], residuals: &[i16; 64]) -> [u8; 64]
    ensures { (i : ℕ) → i < 64 → slice_index result i ≡ clipped (pos (slice_index predictions.now i) +ℤ slice_index_or residuals.now i (pos 0)) }
{
    let mut sums = [0; 64];
    for (i, sum) in sums.iter_mut().enumerate() {
        *sum = add_residual(predictions[i], residuals[i]);
    }
    sums
}
