// Motion vectors, a component at a time, in half samples.
ghost use Rattle.std.specs.Prelude.{◌≡◌, ◌≤◌, pos, negsuc, ◌≤ℤ◌};
ghost use Rattle.samples.specs.Vectors.{chroma_of, chroma_size, median_of, vector_of, wrapped};

use transform::with_sign;

// The middle one of three.
pub fn median(a: i8, b: i8, c: i8) -> i8
    ensures { result ≡ median_of a b c }
{
    a.min(b).max(a.max(b).min(c))
}

// Brings a sum into -32 to 31 by multiples of 64.
fn wrap(sum: i16) -> i8
    ensures value { result ≡ wrapped sum }
    ensures range { (negsuc 31 ≤ℤ result) × (result ≤ℤ pos 31) }
{
    ((i32::from(sum) + 32).rem_euclid(64) - 32) as i8
}

// The component for a predictor and a difference: their sum, brought into -32 to 31.
pub fn vector_component(predictor: i8, difference: i8) -> i8
    ensures value { result ≡ vector_of predictor difference }
    ensures range { (negsuc 31 ≤ℤ result) × (result ≤ℤ pos 31) }
{
    wrap(i16::from(predictor) + i16::from(difference))
}

fn chroma_size(size: u8) -> u8
    ensures value { result ≡ chroma_size size }
    ensures bound { result ≤ 127 }
{
    2 * (size / 4) + u8::from(size % 4 != 0)
}

// The chroma component that goes with a luma one.
pub fn chroma_component(luma: i8) -> i8
    ensures { result ≡ chroma_of luma }
{
    let size = chroma_size(luma.unsigned_abs());
    with_sign(luma, u32::from(size)) as i8
}
