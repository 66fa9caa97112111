// From the levels of a block, by zigzag position, to its coefficients, by place.
ghost use Rattle.std.specs.Prelude.{◌≡◌, ◌+◌, ◌<◌, ◌≤◌, true, pos, negsuc, ◌≤ℤ◌};
ghost use Rattle.transform.specs.Blocks.{Gives};
ghost use Rattle.transform.specs.Coefficients.{AllZero, SetBefore, block_coefficients, from_level};
ghost use Rattle.transform.specs.Inverse.{limited};
ghost use Rattle.transform.specs.Levels.{dequantized, first_coefficient, rebuilt_size};
ghost use Rattle.transform.specs.Signs.{with_sign};
ghost use Rattle.transform.specs.Zigzag.{position_of};

// The place of each zigzag position, by eights.
const PLACES: [[u8; 8]; 8] = [
    [0, 1, 8, 16, 9, 2, 3, 10],
    [17, 24, 32, 25, 18, 11, 4, 5],
    [12, 19, 26, 33, 40, 48, 41, 34],
    [27, 20, 13, 6, 7, 14, 21, 28],
    [35, 42, 49, 56, 57, 50, 43, 36],
    [29, 22, 15, 23, 30, 37, 44, 51],
    [58, 59, 52, 45, 38, 31, 39, 46],
    [53, 60, 61, 54, 47, 55, 62, 63],
];

// position < 64 stays a condition: to go over the table's rows instead would need a flat table, which the formatter puts one number to a line
fn place(position: usize) -> usize
    requires { position < 64 }
    ensures value { position_of result ≡ position }
    ensures inside { result < 64 }
{
    usize::from(PLACES[position / 8][position % 8])
}

// The size of the coefficient for a level of this size.
fn rebuilt_size(quantizer: u8, level: u8) -> u32
    ensures { result ≡ rebuilt_size quantizer level }
{
    if level == 0 {
        return 0;
    }
    let odd = u32::from(quantizer) * (2 * u32::from(level) + 1);
    if quantizer % 2 == 0 {
        odd.saturating_sub(1)
    } else {
        odd
    }
}

// A size with the sign of a number.
pub fn with_sign(number: i8, size: u32) -> i64
    ensures { result ≡ with_sign number size }
{
    let size = i64::from(size);
    if number < 0 { -size } else { size }
}

// A coefficient, brought into -2048 to 2047.
pub(crate) fn limit(coefficient: i64) -> i64
    ensures value { result ≡ limited coefficient }
    ensures range { (negsuc 2047 ≤ℤ result) × (result ≤ℤ pos 2047) }
{
    coefficient.clamp(-2048, 2047)
}

// The coefficient for a level, from -2048 to 2047.
pub fn dequantize(quantizer: u8, level: i8) -> i16
    ensures { result ≡ dequantized quantizer level }
{
    limit(with_sign(level, rebuilt_size(quantizer, level.unsigned_abs()))) as i16
}

// The first coefficient of an INTRA block, from its code.
pub fn first_coefficient(code: u8) -> i16
    ensures { result ≡ first_coefficient code }
{
    if code == 255 {
        1024
    } else {
        8 * i16::from(code)
    }
}

// Whether the levels at the eight positions from here on are 0. (Each is looked at, with `&`: this is one comparison of eight bytes then.)
fn are_zero(levels: &[i8; 64], first: usize) -> bool
    requires { first ≤ 56 }
    ensures { result ≡ true → AllZero levels.now first (first + 8) }
{
    (levels[first] == 0)
        & (levels[first + 1] == 0)
        & (levels[first + 2] == 0)
        & (levels[first + 3] == 0)
        & (levels[first + 4] == 0)
        & (levels[first + 5] == 0)
        & (levels[first + 6] == 0)
        & (levels[first + 7] == 0)
}

// Sets the coefficients for the levels at the eight positions from here on, where those before are set and the others are 0.
fn set_eight(out: &mut [i16; 64], quantizer: u8, levels: &[i8; 64], first: usize)
    requires room { first ≤ 56 }
    requires before { SetBefore quantizer levels.now first out.old }
    ensures { SetBefore quantizer levels.now (first + 8) out.new }
{
    for position in first..first + 8 {
        let level = levels[position];
        if level != 0 {
            out[place(position)] = dequantize(quantizer, level);
        }
    }
}

// The coefficients of the levels at all positions, by place: 0 for a level of 0, as most are. (A loop: by `array::from_fn` what it ensures stayed open.)
fn from_levels(quantizer: u8, levels: &[i8; 64]) -> [i16; 64]
    ensures { Gives result (from_level quantizer levels.now) }
{
    let mut out = [0; 64];
    for eight in 0..8 {
        if !are_zero(levels, 8 * eight) {
            set_eight(&mut out, quantizer, levels, 8 * eight);
        }
    }
    out
}

// The 64 coefficients of a block, the one u across and v down at 8×v + u, from its levels by zigzag position. In an INTRA block the first
// comes from the code `dc`, and the level at position 0 is passed over; an INTER block has no such code.
pub fn coefficients(quantizer: u8, dc: Option<u8>, levels: &[i8; 64]) -> [i16; 64]
    ensures { result ≡ block_coefficients quantizer dc levels.now }
{
    let mut out = from_levels(quantizer, levels);
    if let Some(code) = dc {
        out[0] = first_coefficient(code);
    }
    out
}
