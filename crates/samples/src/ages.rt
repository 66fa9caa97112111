// How old a macroblock is.
ghost use Rattle.std.specs.Prelude.{◌≡◌};
ghost use Rattle.samples.specs.Ages.{next_age};

// The age of a macroblock that was never INTRA. (A number among the ages, and no absence: a caller's table and the answer have a byte for each.)
pub const NEVER: u8 = 255;

// The highest age of the others.
const OLDEST: u8 = 250;

// The age of a macroblock in the next picture: 0 if it is INTRA there, else one more, at most 250; 255 stands for never and remains.
pub fn next_age(intra: bool, age: u8) -> u8
    ensures { result ≡ next_age intra age }
{
    match (intra, age) {
        (true, _) => 0,
        (false, NEVER) => NEVER,
        (false, _) => age.saturating_add(1).min(OLDEST),
    }
}
