// The deblocking filter of four samples over an edge of two blocks, and at eight places along an edge side by side. The rule has signed corrections; the code
// has their sizes and goes by which side is greater, so that all of it is unsigned.
ghost use Rattle.std.specs.Prelude.{◌≡◌, ℕ, if◌then◌else◌, ◌<◌, ◌+◌, ◌-◌, ◌*◌, min, pos, ◌+ℤ◌, ◌-ℤ◌, unsigned_abs};
ghost use Rattle.samples.specs.Clipping.{clipped};
ghost use Rattle.samples.specs.Deblocking.{Unclipped, deblocked, four_at, inner_of, new_a, new_d, outer_of, strength_of};

// The strength for each quantizer from 1 to 31, by eights.
const STRENGTHS: [[u8; 8]; 4] = [
    [0, 1, 1, 2, 2, 3, 3, 4],
    [4, 4, 5, 5, 6, 6, 7, 7],
    [7, 8, 8, 8, 9, 9, 9, 10],
    [10, 10, 11, 11, 11, 12, 12, 12],
];

// The strength for a quantizer, and 0 for a number that is none.
fn strength_of(quantizer: u8) -> u8
    ensures { result ≡ strength_of quantizer }
{
    let at = usize::from(quantizer);
    // with `get` and `map_or` it stayed open that the result is the rule's
    if at < 32 {
        STRENGTHS[at / 8][at % 8]
    } else {
        0
    }
}

// The samples over an edge: `a` and `b` before it, `c` and `d` after it.
#[derive(Clone, Copy)]
pub struct Four {
    pub a: u8,
    pub b: u8,
    pub c: u8,
    pub d: u8,
}

// A sample raised or lowered, and brought into 0 to 255. (Both are worked out and one is taken, so that eight of them go side by side.)
fn raised_or_lowered(sample: u8, by: u8, is_up: bool) -> u8
    ensures { result ≡ (if is_up then min (sample + by) 255 else sample - by) }
{
    let raised = sample.saturating_add(by);
    let lowered = sample.saturating_sub(by);
    if is_up { raised } else { lowered }
}

impl Four {
    // What stands for a step up over the edge, and for a step down.
    fn steps(&self) -> (u16, u16)
        ensures up { result.0 ≡ self.now.a + 4 * self.now.c }
        ensures down { result.1 ≡ 4 * self.now.b + self.now.d }
    {
        let up = u16::from(self.a) + 4 * u16::from(self.c);
        let down = 4 * u16::from(self.b) + u16::from(self.d);
        (up, down)
    }

    // How far the inner samples are corrected.
    fn inner(&self, strength: u8) -> u8
        ensures { result ≡ unsigned_abs (inner_of strength self.now) }
    {
        let (up, down) = self.steps();
        let size = up.abs_diff(down) / 8;
        size.saturating_sub(2 * size.saturating_sub(u16::from(strength))) as u8
    }

    // How far the outer samples are corrected.
    fn outer(&self, strength: u8) -> u8
        ensures { result ≡ unsigned_abs (outer_of strength self.now) }
    {
        (self.a.abs_diff(self.d) / 4).min(self.inner(strength) / 2)
    }

    // The new `b` and `c`.
    fn inner_samples(&self, strength: u8) -> (u8, u8)
        ensures b { result.0 ≡ clipped (pos self.now.b +ℤ inner_of strength self.now) }
        ensures c { result.1 ≡ clipped (pos self.now.c -ℤ inner_of strength self.now) }
    {
        let by = self.inner(strength);
        let (up, down) = self.steps();
        let is_up = down <= up;
        (
            raised_or_lowered(self.b, by, is_up),
            raised_or_lowered(self.c, by, !is_up),
        )
    }

    // The new `a` and `d`, which move towards each other and so stay from 0 to 255.
    fn outer_samples(&self, strength: u8) -> (u8, u8)
        ensures a { pos result.0 ≡ new_a strength self.now }
        ensures d { pos result.1 ≡ new_d strength self.now }
    {
        let by = self.outer(strength);
        let is_up = self.a < self.d;
        (
            raised_or_lowered(self.a, by, is_up),
            raised_or_lowered(self.d, by, !is_up),
        )
    }
}

// The four samples after the filter, at this strength. (Lent and not copied, since four bytes that are copied become one number, and are taken apart again.)
fn deblock_at(strength: u8, four: &Four) -> Four
    ensures value { result ≡ deblocked strength four.now }
    ensures unclipped { Unclipped strength four.now result }
{
    let (a, d) = four.outer_samples(strength);
    let (b, c) = four.inner_samples(strength);
    Four { a, b, c, d }
}

// The samples at eight places along an edge, by rows: `a` and `b` before it, `c` and `d` after it.
#[derive(Clone, Copy)]
pub struct FourRows {
    pub a: [u8; 8],
    pub b: [u8; 8],
    pub c: [u8; 8],
    pub d: [u8; 8],
}

// The four rows after the filter, at each of the eight places.
pub fn deblock_rows(quantizer: u8, rows: &FourRows) -> FourRows
    ensures value { (i : ℕ) → i < 8 → four_at result i ≡ deblocked (strength_of quantizer) (four_at rows.now i) }
    ensures unclipped { (i : ℕ) → i < 8 → Unclipped (strength_of quantizer) (four_at rows.now i) (four_at result i) }
{
    let strength = strength_of(quantizer);
    let (mut a, mut b, mut c, mut d) = ([0; 8], [0; 8], [0; 8], [0; 8]);
    for i in 0..8 {
        let four = Four {
            a: rows.a[i],
            b: rows.b[i],
            c: rows.c[i],
            d: rows.d[i],
        };
        let new = deblock_at(strength, &four);
        a[i] = new.a;
        b[i] = new.b;
        c[i] = new.c;
        d[i] = new.d;
    }
    FourRows { a, b, c, d }
}
