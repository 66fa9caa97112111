ghost use Rattle.std.specs.Prelude.{◌≡◌, ℕ, ◌+◌, ◌-◌, ◌*◌, ◌/◌, ◌%◌, ◌<◌, ◌≤◌, ◌&&◌, [], ◌∷◌, ◌++◌, true, IfSome, length, slice_index};
ghost use Rattle.pictures.specs.Pictures.{Square, covers, inside, painted, painted_square};
ghost use Rattle.stores.specs.Room.{LiesIn, Placed};
ghost use Rattle.stores.specs.Tiles.{Row, SquareAt, WordAt, WordOf, column_word, four, joined, row_word, tile_address, tiles_seen};
ghost use Rattle.std.proofs.Common.{rules};

use crate::bytes::copy_out;
use crate::cells::CellStore;
use pictures::{Segment, Size, Store, start_of};
use tables::{copy_part, fill_part};

// A store that keeps four neighbouring samples of a row in a word, leftmost in the top bits: macroblock by macroblock, 64 words of Y, 16 of Cb
// and 16 of Cr.
pub type TileStore = CellStore<u32, 96>;

// The word that a row of a plane begins with, in the first column of macroblocks.
fn row_word(size: Size, plane: u8, down: usize) -> usize
    requires { down < 288 }
    ensures { result ≡ row_word size.columns plane down }
{
    let columns = size.columns as usize;
    if plane == 0 {
        return down / 16 * columns * 96 + down % 16 * 4;
    }
    down / 8 * columns * 96 + (start_of(plane) / 4 + down % 8 * 2)
}

// How far after it the row's word of this number lies: a macroblock has four words of a row of Y, and two of Cb and Cr.
fn column_word(plane: u8, number: usize) -> usize
    requires { number < 88 }
    ensures { result ≡ column_word plane number }
{
    if plane == 0 {
        return number / 4 * 96 + number % 4;
    }
    number / 2 * 96 + number % 2
}

// The word that holds the sample of a place inside.
fn word_of(size: Size, plane: u8, across: usize, down: usize) -> usize
    requires { inside size.columns size.rows plane across down ≡ true }
    ensures { WordOf size.columns size.rows plane across down result }
{
    row_word(size, plane, down) + column_word(plane, across / 4)
}

// The number of a place's sample in the order of memory.
fn place(size: Size, plane: u8, across: usize, down: usize) -> Option<usize>
    ensures { Placed size.columns size.rows (tile_address size.columns) plane across down result }
{
    if !size.is_inside(plane, across, down) {
        return None;
    }
    Some(4 * word_of(size, plane, across, down) + across % 4)
}

// The word that begins at a place of a row and ends before right, or absence where none does.
fn word_at(size: Size, plane: u8, across: usize, down: usize, right: usize) -> Option<usize>
    requires { across < right }
    ensures { IfSome result (λ word. WordAt size.columns size.rows plane across down right word) }
{
    if across % 4 != 0 || right - across < 4 {
        return None;
    }
    Some(place(size, plane, across, down)? / 4)
}

// Whether a square of 8 by 8 samples lies inside and words begin at its left side.
fn is_of_words(size: Size, plane: u8, across: usize, down: usize) -> bool
    requires columns { across ≤ 2000000 }
    requires rows { down ≤ 2000000 }
    ensures { result ≡ true → SquareAt size.columns size.rows plane across down }
{
    across % 4 == 0 && size.is_inside(plane, across + 7, down + 7)
}

// The word of four values from a place of theirs on.
fn word_from(values: &[u8], at: usize) -> u32
    requires { at + 4 ≤ length values.now }
    ensures { result ≡ joined (slice_index values.now at ∷ slice_index values.now (at + 1) ∷ slice_index values.now (at + 2) ∷ slice_index values.now (at + 3) ∷ []) }
{
    u32::from_be_bytes([values[at], values[at + 1], values[at + 2], values[at + 3]])
}

// Sets a square of 8 by 8 samples that lies inside and at whose left side words begin.
fn set_square(
    words: &mut [u32],
    size: Size,
    plane: u8,
    across: usize,
    down: usize,
    values: &[u8; 64],
)
    requires columns { across ≤ 2000000 }
    requires rows { down ≤ 2000000 }
    requires square { SquareAt size.columns size.rows plane across down }
    requires room { size.columns * size.rows * 96 ≤ length words.old }
    ensures { let seen = tiles_seen size.columns size.rows in seen words.new ≡ painted_square (seen words.old) plane across down values.now }
{
    for n in 0..16 {
        let word = word_of(size, plane, across + n % 2 * 4, down + n / 2);
        words[word] = word_from(values, 4 * n);
    }
}

// The word that holds the sample of a place inside, with its neighbours.
fn read_word(words: &[u32], size: Size, plane: u8, across: usize, down: usize) -> u32
    requires isin { inside size.columns size.rows plane across down ≡ true }
    requires room { size.columns * size.rows * 96 ≤ length words.now }
    ensures { Row (tiles_seen size.columns size.rows words.now) plane (across / 4 * 4) down 4 (four result) }
{
    words[word_of(size, plane, across, down)]
}

// Four samples of two words that lie side by side, from one of the first's on.
fn shifted(first: u32, second: u32, skip: usize) -> u32
    requires { skip < 4 }
    ensures { (j : ℕ) → j < 4 → slice_index (four result) j ≡ slice_index (four first ++ four second) (skip + j) }
{
    let both = u64::from(first) * 0x1_0000_0000 + u64::from(second);
    ((both >> (32 - 8 * skip)) % 0x1_0000_0000) as u32
}

// The samples of two words.
fn eight_of(left: u32, right: u32) -> [u8; 8]
    ensures { result ≡ four left ++ four right }
{
    (u64::from(left) * 0x1_0000_0000 + u64::from(right)).to_be_bytes()
}

// Eight samples of a row that lie inside, from any place on: those of two words, or of three.
fn eight_from(words: &[u32], size: Size, plane: u8, across: usize, down: usize) -> [u8; 8]
    requires small { across ≤ 2000000 }
    requires inside { inside size.columns size.rows plane (across + 7) down ≡ true }
    requires room { size.columns * size.rows * 96 ≤ length words.now }
    ensures { Row (tiles_seen size.columns size.rows words.now) plane across down 8 result }
{
    let first = read_word(words, size, plane, across, down);
    let second = read_word(words, size, plane, across + 4, down);
    let third = read_word(words, size, plane, across + 7, down);
    let skip = across % 4;
    eight_of(shifted(first, second, skip), shifted(second, third, skip))
}

// A square of 8 by 8 samples that lies inside, from any place on.
fn square_from(words: &[u32], size: Size, plane: u8, across: usize, down: usize) -> [u8; 64]
    requires columns { across ≤ 2000000 }
    requires rows { down ≤ 2000000 }
    requires inside { inside size.columns size.rows plane (across + 7) (down + 7) ≡ true }
    requires room { size.columns * size.rows * 96 ≤ length words.now }
    ensures { Square (tiles_seen size.columns size.rows words.now) plane across down result }
{
    let mut values = [0; 64];
    for row in 0..8 {
        let eight = eight_from(words, size, plane, across, down + row);
        copy_out(&eight, 0, &mut values, row);
    }
    values
}

// The word of one value for its four samples.
fn word_of_one(value: u8) -> u32
    ensures { result ≡ joined (value ∷ value ∷ value ∷ value ∷ []) }
{
    u32::from_be_bytes([value, value, value, value])
}

// Whether a segment lies inside a picture of a size.
fn lies_in(size: Size, segment: Segment) -> bool
    ensures { result ≡ true → LiesIn size.columns size.rows segment }
{
    segment.left <= segment.right
        && segment.right <= size.columns
        && segment.top <= segment.bottom
        && segment.bottom <= size.rows
}

// Sets the words of a segment that lies inside to one value.
fn fill_rows(words: &mut [u32], size: Size, segment: Segment, value: u8)
    requires inside { LiesIn size.columns size.rows segment }
    requires room { size.columns * size.rows * 96 ≤ length words.old }
    ensures { let seen = tiles_seen size.columns size.rows in seen words.new ≡ painted (covers segment) (λ _ _ _. value) (seen words.old) }
{
    let left = segment.left as usize;
    let count = (segment.right as usize - left) * 96;
    let word = word_of_one(value);
    for row in segment.top as usize..segment.bottom as usize {
        let first = (row * size.columns as usize + left) * 96;
        fill_part(words, first, count, word);
    }
}

// Copies the words of a segment that lies inside.
fn copy_rows(from: &[u32], words: &mut [u32], size: Size, segment: Segment)
    requires inside { LiesIn size.columns size.rows segment }
    requires room { size.columns * size.rows * 96 ≤ length words.old }
    requires source { size.columns * size.rows * 96 ≤ length from.now }
    ensures { let seen = tiles_seen size.columns size.rows in seen words.new ≡ painted (covers segment) (seen from.now).sample (seen words.old) }
{
    let left = segment.left as usize;
    let count = (segment.right as usize - left) * 96;
    for row in segment.top as usize..segment.bottom as usize {
        let first = (row * size.columns as usize + left) * 96;
        copy_part(from, words, first, count);
    }
}

impl Store for TileStore {
    ghost picture = { λ s. tiles_seen s.size.columns s.size.rows s.memory.items };

    ghost outside = { Prim.search rules };

    ghost byte = { Prim.search rules };

    fn columns(&self) -> u16 {
        self.size.columns
    }

    fn rows(&self) -> u16 {
        self.size.rows
    }

    fn read(&self, plane: u8, across: usize, down: usize) -> Option<u8> {
        let at = place(self.size, plane, across, down)?;
        let four = self.memory[at / 4].to_be_bytes();
        Some(four[at % 4])
    }

    fn write(&mut self, plane: u8, across: usize, down: usize, value: u8) -> bool {
        let Some(at) = place(self.size, plane, across, down) else {
            return false;
        };
        let mut four = self.memory[at / 4].to_be_bytes();
        four[at % 4] = value;
        self.memory[at / 4] = u32::from_be_bytes(four);
        true
    }

    fn read_together(&self, plane: u8, across: usize, down: usize) -> Option<[u8; 64]> {
        if !self.size.is_inside(plane, across + 7, down + 7) {
            return None;
        }
        Some(square_from(&self.memory, self.size, plane, across, down))
    }

    fn write_together(&mut self, plane: u8, across: usize, down: usize, values: &[u8; 64]) -> bool {
        if !is_of_words(self.size, plane, across, down) {
            return false;
        }
        set_square(&mut self.memory, self.size, plane, across, down, values);
        true
    }

    // A word at a time where one begins, since it is set whole.
    fn fill_run(
        &mut self,
        plane: u8,
        across: usize,
        down: usize,
        right: usize,
        value: u8,
    ) -> usize {
        if let Some(word) = word_at(self.size, plane, across, down, right) {
            self.memory[word] = word_of_one(value);
            return across + 4;
        }
        self.write(plane, across, down, value);
        across + 1
    }

    // A word at a time where one begins and the other store has the same size.
    fn copy_run(
        &mut self,
        other: &Self,
        plane: u8,
        across: usize,
        down: usize,
        right: usize,
    ) -> usize {
        if self.size == other.size {
            if let Some(word) = word_at(self.size, plane, across, down, right) {
                self.memory[word] = other.memory[word];
                return across + 4;
            }
        }
        // One sample, as the trait's own body has it, which an impl with a body of its own cannot call; three lines, which a function for both stores would have
        // too, with a contract of the trait's length.
        let value = other.sample(plane, across, down);
        self.write(plane, across, down, value);
        across + 1
    }

    // A row of macroblocks at a time, since these lie together.
    fn fill_together(&mut self, segment: Segment, value: u8) -> bool {
        if !lies_in(self.size, segment) {
            return false;
        }
        fill_rows(&mut self.memory, self.size, segment, value);
        true
    }

    // Likewise, where the other store has the same size.
    fn copy_together(&mut self, other: &Self, segment: Segment) -> bool {
        if self.size != other.size || !lies_in(self.size, segment) {
            return false;
        }
        copy_rows(&other.memory, &mut self.memory, self.size, segment);
        true
    }
}
