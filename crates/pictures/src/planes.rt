ghost use Rattle.std.specs.Prelude.{◌≡◌, ℕ, ◌<◌, ◌≤◌, if◌then◌else◌, false, IfSome};
ghost use Rattle.pictures.specs.Pictures.{Picture, Square, covers, has, inside, painted, painted_square, reading, side, span, start, written};

use crate::layouts::Segment;

// A store of a picture's samples, by its meaning: a size in macroblocks, which is fixed, and three planes. Code above relies on these
// contracts and on no layout of memory.
// A plane is a coordinate like across and down: a store answers for every number, and says of 3 and more that they lie outside. The three are passed
// apart, since every caller goes over one of them while the others stay.
// A store may have more memory than its picture needs, as where a caller brings a longer vector. No contract here speaks of cells beyond the picture: no answer
// depends on them, and a call that writes may leave or alter them. 'No other' below is no other sample of the picture.
pub trait Store {
    // what the store means
    ghost picture: { Self → Picture };

    // The macroblocks across.
    fn columns(&self) -> u16
        ensures { result ≡ (picture self.now).wide };

    // The macroblocks down.
    fn rows(&self) -> u16
        ensures { result ≡ (picture self.now).high };

    // The sample at a place, or absence outside.
    fn read(&self, plane: u8, across: usize, down: usize) -> Option<u8>
        ensures { result ≡ reading (picture self.now) plane across down };

    // Sets the sample at a place and no other; outside sets none. Answers whether the place is inside.
    fn write(&mut self, plane: u8, across: usize, down: usize, value: u8) -> bool
        ensures answer { result ≡ has (picture self.old) plane across down }
        ensures after { picture self.new ≡ written (picture self.old) plane across down value };

    // The sample at a place, and 0 outside.
    fn sample(&self, plane: u8, across: usize, down: usize) -> u8
        ensures { result ≡ (picture self.now).sample plane across down }
    {
        self.read(plane, across, down).unwrap_or(0)
    }

    // The square of 8 by 8 samples from a place on, by rows, where the store has them at hand together, and else absence. A store that keeps neighbours
    // together may read them together. (The bounds, here and below, leave out no place of a rectangle of macroblocks: 65,535 by 16 samples.)
    fn read_together(&self, plane: u8, across: usize, down: usize) -> Option<[u8; 64]>
        requires columns { across ≤ 2000000 }
        requires rows { down ≤ 2000000 }
        ensures { IfSome result (λ values. Square (picture self.now) plane across down values) }
    {
        None // no square at hand
    }

    // Sets the square of 8 by 8 samples from a place on, where the store has them at hand together, and else none. Answers whether it did.
    fn write_together(&mut self, plane: u8, across: usize, down: usize, values: &[u8; 64]) -> bool
        requires columns { across ≤ 2000000 }
        requires rows { down ≤ 2000000 }
        ensures { picture self.new ≡ (if result then painted_square (picture self.old) plane across down values.now else picture self.old) }
    {
        false // no square at hand
    }

    // The square of 8 by 8 samples from a place on, by rows, with 0 for those outside.
    fn read_square(&self, plane: u8, across: usize, down: usize) -> [u8; 64]
        requires columns { across ≤ 2000000 }
        requires rows { down ≤ 2000000 }
        ensures { Square (picture self.now) plane across down result }
    {
        if let Some(values) = self.read_together(plane, across, down) {
            return values;
        }
        let mut values = [0; 64];
        for row in 0..8 {
            for column in 0..8 {
                values[8 * row + column] = self.sample(plane, across + column, down + row);
            }
        }
        values
    }

    // Sets the square of 8 by 8 samples from a place on, by rows, those inside, and no others.
    fn write_square(&mut self, plane: u8, across: usize, down: usize, values: &[u8; 64])
        requires columns { across ≤ 2000000 }
        requires rows { down ≤ 2000000 }
        ensures { picture self.new ≡ painted_square (picture self.old) plane across down values.now }
    {
        if self.write_together(plane, across, down, values) {
            return;
        }
        for (k, value) in values.iter().enumerate() {
            self.write(plane, across + k % 8, down + k / 8, *value);
        }
    }

    // Sets one or more of a row's samples from across on, those inside, and answers the place after them. A store that keeps neighbours
    // together may set them together. (That across is below right is the test of the loops that call this: a type for the two would say no more.)
    fn fill_run(&mut self, plane: u8, across: usize, down: usize, right: usize, value: u8) -> usize
        requires { across < right }
        ensures next { (across < result) × (result ≤ right) }
        ensures after { picture self.new ≡ painted (span plane down across result) (λ _ _ _. value) (picture self.old) }
    {
        self.write(plane, across, down, value);
        across + 1
    }

    // Copies one or more of a row's samples from across on, those inside, from the same places of another store, and answers the place after them.
    fn copy_run(
        &mut self,
        other: &Self,
        plane: u8,
        across: usize,
        down: usize,
        right: usize,
    ) -> usize
        requires { across < right }
        ensures next { (across < result) × (result ≤ right) }
        ensures after { picture self.new ≡ painted (span plane down across result) (picture other.now).sample (picture self.old) }
    {
        let copied = other.sample(plane, across, down);
        self.write(plane, across, down, copied);
        across + 1
    }

    // Sets the samples of a segment, in all planes, to one value, where the store has them together, and else none. Answers whether it did.
    fn fill_together(&mut self, segment: Segment, value: u8) -> bool
        ensures { picture self.new ≡ (if result then painted (covers segment) (λ _ _ _. value) (picture self.old) else picture self.old) }
    {
        false // not kept together
    }

    // Copies the samples of a segment, in all planes, from another store, where the two have them together, and else none. Answers whether it did.
    fn copy_together(&mut self, other: &Self, segment: Segment) -> bool
        ensures { picture self.new ≡ (if result then painted (covers segment) (picture other.now).sample (picture self.old) else picture self.old) }
    {
        false // kept otherwise
    }

    // Sets a row's samples from left to before right, those inside. (By `while`, since the store says with each run how far it came.)
    fn fill_row(&mut self, plane: u8, down: usize, left: usize, right: usize, value: u8)
        ensures { picture self.new ≡ painted (span plane down left right) (λ _ _ _. value) (picture self.old) }
    {
        let mut across = left;
        while across < right {
            across = self.fill_run(plane, across, down, right, value);
        }
    }

    // Copies a row's samples from left to before right, those inside, from the same places of another store. (By `while`, as above. One body
    // for both would be passed the store itself, which no trait's own body may do under the same trait.)
    fn copy_row(&mut self, other: &Self, plane: u8, down: usize, left: usize, right: usize)
        ensures { picture self.new ≡ painted (span plane down left right) (picture other.now).sample (picture self.old) }
    {
        let mut across = left;
        while across < right {
            across = self.copy_run(other, plane, across, down, right);
        }
    }

    // the meaning has 0 at each place outside
    ghost outside: { (s : Self) (p x y : ℕ) → has (picture s) p x y ≡ false → (picture s).sample p x y ≡ 0 };

    // every sample is 0 to 255
    ghost byte: { (s : Self) (p x y : ℕ) → (picture s).sample p x y < 256 };
}

// The samples across, and down, of a macroblock in a plane.
pub fn side_of(plane: u8) -> usize
    ensures { result ≡ side plane }
{
    if plane == 0 { 16 } else { 8 }
}

// The samples of a macroblock in the planes before a plane.
pub fn start_of(plane: u8) -> usize
    ensures { result ≡ start plane }
{
    match plane {
        0 => 0,
        1 => 256,
        _ => 320,
    }
}

// Whether a place is one of a picture of this size. (For any numbers; `Size::is_inside` asks the same of a size that is a picture's.)
pub fn is_inside(columns: u16, rows: u16, plane: u8, across: usize, down: usize) -> bool
    ensures { result ≡ inside columns rows plane across down }
{
    if plane >= 3 {
        return false;
    }
    let side = side_of(plane);
    if across >= columns as usize * side {
        return false;
    }
    down < rows as usize * side
}
