// Inverse transforms of blocks of 8 by 8 coefficients, and what all of them have in common.
#![tactic(auto)]

ghost use Rattle.std.specs.Prelude.{◌≡◌, ℕ, ◌+◌, ◌-◌, ◌*◌, ◌/◌, ◌%◌, ◌^◌, ◌<◌, ◌≤◌, ◌==◌, true, cond, List, ℤ, pos, ◌+ℤ◌, slice_index_or, unsigned_abs};
ghost use Rattle.transform.specs.Blocks.{Gives, Shows};
ghost use Rattle.transform.specs.Factors.{cosine};
ghost use Rattle.transform.specs.Inverse.{direct, limited, ranged, twice, two_pass};
ghost use Rattle.transform.specs.Passes.{RowIs, Small, SmallRow, ZeroAt, after_pass, half_sum, rounded_sum, term, weighed_row};
ghost use Rattle.transform.specs.Sums.{floor};
ghost use Rattle.transform.specs.Laws.{InRange, KeepsZeros, LimitsFirst, two_pass_range, two_pass_zeros, two_pass_ends, direct_range, direct_zeros, direct_ends};

mod kinds;
mod levels;

pub use kinds::TransformKind;
use levels::limit;
pub use levels::{coefficients, dequantize, first_coefficient, with_sign};

// The factors, by u and n: 2048 times the square root of 2 times cos((2n + 1)uπ/16), rounded, and 2048 for u = 0.
const FACTORS: [[i64; 8]; 8] = [
    [2048, 2048, 2048, 2048, 2048, 2048, 2048, 2048],
    [2841, 2408, 1609, 565, -565, -1609, -2408, -2841],
    [2676, 1108, -1108, -2676, -2676, -1108, 1108, 2676],
    [2408, -565, -2841, -1609, 1609, 2841, 565, -2408],
    [2048, -2048, -2048, 2048, 2048, -2048, -2048, 2048],
    [1609, -2841, 565, 2408, -2408, -565, 2841, -1609],
    [1108, -2676, 2676, -1108, -1108, 2676, -2676, 1108],
    [565, -1609, 2408, -2841, 2841, -2408, 1609, -565],
];

// What a pass does to a sum: it adds a half, and shifts down.
#[derive(Clone, Copy)]
struct RoundedShift {
    half: u32,
    shift: u32,
    ghost half_below: { half < 2 ^ shift },
    ghost within: { shift < 64 },
}

impl RoundedShift {
    fn new(half: u32, shift: u32) -> RoundedShift
        requires half_below { half < 2 ^ shift }
        requires within { shift < 64 }
        ensures half { result.half ≡ half }
        ensures shift { result.shift ≡ shift }
    {
        RoundedShift { half, shift }
    }

    // (Sums have 64 bits; what a pass leaves of them fits 32.)
    fn of(self, sum: i64) -> i32
        requires small { unsigned_abs sum < 2 ^ 62 }
        requires within { unsigned_abs sum ≤ 2147483647 * 2 ^ self.shift }
        ensures { result ≡ floor (sum +ℤ pos self.half) (2 ^ self.shift) }
    {
        ((sum + i64::from(self.half)) >> self.shift) as i32
    }
}

// (That both are below 8 is asked here and of the sums below alone; a type for such an index would be taken apart again at each use.)
fn factor(u: usize, n: usize) -> i64
    requires { (u < 8) × (n < 8) }
    ensures { result ≡ cosine u n }
{
    FACTORS[u][n]
}

// The term of a row's sum for u and n.
fn term(x: &[i32; 8], u: usize, n: usize) -> i64
    requires { (u < 8) × (n < 8) }
    ensures value { result ≡ term x.now n u }
    ensures small { unsigned_abs result < 2 ^ 43 }
{
    factor(u, n) * i64::from(x[u])
}

// The terms for every second u, from 0 or 1 on.
fn half_sum(x: &[i32; 8], first: usize, n: usize) -> i64
    requires { (first < 2) × (n < 8) }
    ensures value { result ≡ half_sum x.now n first }
    ensures small { unsigned_abs result < 2 ^ 45 }
{
    term(x, first, n) + term(x, first + 2, n) + term(x, first + 4, n) + term(x, first + 6, n)
}

// The sums of a row for n and 7 - n across: the factors for odd u have their signs turned in the second.
fn mirrored_sums(x: &[i32; 8], n: usize) -> (i64, i64)
    requires { n < 4 }
    ensures near { result.0 ≡ weighed_row x.now n }
    ensures far { result.1 ≡ weighed_row x.now (7 - n) }
    ensures small { (unsigned_abs result.0 < 2 ^ 46) × (unsigned_abs result.1 < 2 ^ 46) }
{
    let even = half_sum(x, 0, n);
    let odd = half_sum(x, 1, n);
    (even + odd, even - odd)
}

// The sums of a row, rounded. (Inlined, so that where 0 is written into a row the products with it are left out. The pairs are rounded last: eight
// roundings side by side run fewer instructions.)
#[inline(always)]
fn whole_row(x: &[i32; 8], quotient: RoundedShift) -> [i32; 8]
    requires small { SmallRow (2 ^ 17 * 2 ^ quotient.shift) x.now }
    ensures { RowIs result (rounded_sum x.now quotient.half (2 ^ quotient.shift)) }
{
    let (a, h) = mirrored_sums(x, 0);
    let (b, g) = mirrored_sums(x, 1);
    let (c, f) = mirrored_sums(x, 2);
    let (d, e) = mirrored_sums(x, 3);
    [
        quotient.of(a),
        quotient.of(b),
        quotient.of(c),
        quotient.of(d),
        quotient.of(e),
        quotient.of(f),
        quotient.of(g),
        quotient.of(h),
    ]
}

// Whether the second half of a row is 0.
fn is_half_row(x: &[i32; 8]) -> bool
    ensures { result ≡ true → ZeroAt x.now 4 × ZeroAt x.now 5 × ZeroAt x.now 6 × ZeroAt x.now 7 }
{
    x[4] == 0 && x[5] == 0 && x[6] == 0 && x[7] == 0
}

// Whether the first half of a row is 0 but for its first number.
fn is_flat(x: &[i32; 8]) -> bool
    ensures { result ≡ true → ZeroAt x.now 1 × ZeroAt x.now 2 × ZeroAt x.now 3 }
{
    x[1] == 0 && x[2] == 0 && x[3] == 0
}

// The same for a row of which only the first number is not 0: all eight sums are one.
fn flat_row(x: &[i32; 8], quotient: RoundedShift) -> [i32; 8]
    requires small { SmallRow (2 ^ 17 * 2 ^ quotient.shift) x.now }
    requires flat { (u : ℕ) → 1 ≤ u → u < 8 → slice_index_or x.now u (pos 0) ≡ pos 0 }
    ensures { RowIs result (rounded_sum x.now quotient.half (2 ^ quotient.shift)) }
{
    [quotient.of(term(x, 0, 0)); 8]
}

// The same with no work for the numbers that are 0, as most are.
fn row(x: &[i32; 8], quotient: RoundedShift) -> [i32; 8]
    requires small { SmallRow (2 ^ 17 * 2 ^ quotient.shift) x.now }
    ensures { RowIs result (rounded_sum x.now quotient.half (2 ^ quotient.shift)) }
{
    if !is_half_row(x) {
        whole_row(x, quotient)
    } else if !is_flat(x) {
        whole_row(&[x[0], x[1], x[2], x[3], 0, 0, 0, 0], quotient)
    } else {
        flat_row(x, quotient)
    }
}

// The row v of a block.
fn block_row(x: &[i32; 64], v: usize) -> [i32; 8]
    requires { v < 8 }
    ensures { RowIs result (λ u. slice_index_or x.now (8 * v + u) (pos 0)) }
{
    let at = 8 * v;
    [
        x[at],
        x[at + 1],
        x[at + 2],
        x[at + 3],
        x[at + 4],
        x[at + 5],
        x[at + 6],
        x[at + 7],
    ]
}

// Sets column v of a block.
fn set_column(x: &mut [i32; 64], v: usize, column: [i32; 8])
    requires { v < 8 }
    ensures { Gives x.new (λ p. cond (p % 8 == v) (slice_index_or column (p / 8) (pos 0)) (slice_index_or x.old p (pos 0))) }
{
    for n in 0..8 {
        x[8 * n + v] = column[n];
    }
}

// Each row's eight sums, as a column of what is returned: two passes put each number back into its place.
fn pass(x: &[i32; 64], quotient: RoundedShift) -> [i32; 64]
    requires small { Small (2 ^ 17 * 2 ^ quotient.shift) x.now }
    ensures { Gives result (after_pass x.now quotient.half (2 ^ quotient.shift)) }
{
    let mut out = [0; 64];
    for v in 0..8 {
        set_column(&mut out, v, row(&block_row(x, v), quotient));
    }
    out
}

// The coefficients, each within its range.
fn widened(coefficients: &[i16; 64]) -> [i32; 64]
    ensures { Gives result (λ p. limited (slice_index_or coefficients.now p (pos 0))) }
{
    let mut out = [0; 64];
    // with `map` here and in the function below, a block was measured to take 1.7 times the time
    for (p, place) in out.iter_mut().enumerate() {
        *place = limit(i64::from(coefficients[p])) as i32;
    }
    out
}

// A result, brought into -256 to 255.
fn narrow(x: i32) -> i16
    ensures { result ≡ ranged x }
{
    x.clamp(-256, 255) as i16
}

fn narrowed(results: &[i32; 64]) -> [i16; 64]
    ensures { Gives result (λ p. ranged (slice_index_or results.now p (pos 0))) }
{
    let mut out = [0; 64];
    for (p, place) in out.iter_mut().enumerate() {
        *place = narrow(results[p]);
    }
    out
}

// The results by a pass over the rows and one over the columns. Its callers' shifts are written numbers, and inlined it runs fewer instructions.
#[inline(always)]
fn in_two_passes(coefficients: &[i16; 64], rows: RoundedShift, columns: RoundedShift) -> [i16; 64]
    requires { 8 ≤ columns.shift }
    ensures { Shows result (twice rows.half (2 ^ rows.shift) columns.half (2 ^ columns.shift) coefficients.now) }
{
    narrowed(&pass(&pass(&widened(coefficients), rows), columns))
}

// A fixed map from 64 coefficients of -2048 to 2047 to 64 results of -256 to 255. What stands u across and v down is at 8×v + u.
pub trait Transform {
    // the result n across and k down
    ghost meaning: { Self → List ℤ → ℕ → ℕ → ℤ };

    fn inverse(&self, coefficients: &[i16; 64]) -> [i16; 64]
        ensures { Shows result (meaning self.now coefficients.now) };

    // results are from -256 to 255
    ghost range: { (t : Self) → InRange (meaning t) };

    // zeros go to zeros
    ghost zeros: { (t : Self) → KeepsZeros (meaning t) };

    // a coefficient outside its range is first brought to the nearer end
    ghost ends: { (t : Self) → LimitsFirst (meaning t) };
}

// Rounds after the rows, to eighths, and after the columns. (Two types with their impls, and not one with its shifts as parameters: the two formulas
// are rules of their own, each with its laws.)
#[derive(Clone, Copy)]
pub struct TwoPass;

impl Transform for TwoPass {
    ghost meaning = { λ _. two_pass };

    ghost range = { λ _. two_pass_range };

    ghost zeros = { λ _. two_pass_zeros };

    ghost ends = { λ _. two_pass_ends };

    fn inverse(&self, coefficients: &[i16; 64]) -> [i16; 64] {
        let rows = RoundedShift::new(128, 8);
        let columns = RoundedShift::new(65536, 17);
        in_two_passes(coefficients, rows, columns)
    }
}

// Rounds once, at the end.
#[derive(Clone, Copy)]
pub struct Direct;

impl Transform for Direct {
    ghost meaning = { λ _. direct };

    ghost range = { λ _. direct_range };

    ghost zeros = { λ _. direct_zeros };

    ghost ends = { λ _. direct_ends };

    fn inverse(&self, coefficients: &[i16; 64]) -> [i16; 64] {
        let whole = RoundedShift::new(0, 0);
        let columns = RoundedShift::new(16777216, 25);
        in_two_passes(coefficients, whole, columns)
    }
}
