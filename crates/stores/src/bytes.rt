ghost use Rattle.std.specs.Prelude.{◌≡◌, ℕ, ◌+◌, ◌-◌, ◌*◌, ◌/◌, ◌%◌, ◌<◌, ◌≤◌, ◌&&◌, IfSome, true, if◌then◌else◌, length, nat_le, nat_lt, slice_index};
ghost use Rattle.pictures.specs.Pictures.{inside, painted_square};
ghost use Rattle.stores.specs.Bytes.{RowsAt, RunAt, byte_address, bytes_seen};
ghost use Rattle.stores.specs.Room.{Placed, PlacedAt, WholePicture};
ghost use Rattle.std.proofs.Common.{rules};

use crate::cells::CellStore;
use pictures::{Segment, Size, Store, side_of, start_of};
use tables::{copy_part, fill_part};

// A store that keeps a byte for each sample: plane 0 by rows, then planes 1 and 2. (The two stores differ in their order of memory, and so each has its own
// `impl Store`: one over a trait of orders would have as many methods to write, and these two that tell the sizes besides.)
pub type ByteStore = CellStore<u8, 384>;

// Where a place inside is kept.
fn address(size: Size, plane: u8, across: usize, down: usize) -> usize
    requires { inside size.columns size.rows plane across down ≡ true }
    ensures { PlacedAt size.columns size.rows (byte_address size.columns size.rows) plane across down result }
{
    let columns = size.columns as usize;
    let macroblocks = columns * size.rows as usize;
    start_of(plane) * macroblocks + (down * (columns * side_of(plane)) + across)
}

// Where a place is kept.
fn place(size: Size, plane: u8, across: usize, down: usize) -> Option<usize>
    ensures { Placed size.columns size.rows (byte_address size.columns size.rows) plane across down result }
{
    if size.is_inside(plane, across, down) {
        Some(address(size, plane, across, down))
    } else {
        None
    }
}

// Whether a segment is the whole picture of a size.
fn is_whole(size: Size, segment: Segment) -> bool
    ensures { result ≡ true → WholePicture size.columns size.rows segment }
{
    segment.left == 0
        && segment.right == size.columns
        && segment.top == 0
        && segment.bottom == size.rows
}

// Where a row's samples are kept from a place inside on, and how many of them lie before right.
fn run_at(size: Size, plane: u8, across: usize, down: usize, right: usize) -> Option<(usize, usize)>
    requires { across < right }
    ensures { IfSome result (λ run. RunAt size.columns size.rows plane across down right run.0 run.1) }
{
    let at = place(size, plane, across, down)?;
    let end = right.min(size.columns as usize * side_of(plane));
    Some((at, end - across))
}

// Where the rows of a square of 8 by 8 samples are kept, where all of them lie inside: the first one's place, and how far each lies after the one above it.
fn rows_at(size: Size, plane: u8, across: usize, down: usize) -> Option<(usize, usize)>
    requires columns { across ≤ 2000000 }
    requires rows { down ≤ 2000000 }
    ensures { IfSome result (λ rows. RowsAt size.columns size.rows plane across down rows.0 rows.1) }
{
    if !size.is_inside(plane, across + 7, down + 7) {
        return None;
    }
    let at = address(size, plane, across, down);
    Some((at, size.columns as usize * side_of(plane)))
}

// Copies eight bytes from a place on into a row of a square, and no others.
pub(crate) fn copy_out(bytes: &[u8], at: usize, values: &mut [u8; 64], row: usize)
    requires inside { at + 8 ≤ length bytes.now }
    requires row { row < 8 }
    ensures { (k : ℕ) → slice_index values.new k ≡ (if nat_le (8 * row) k && nat_lt k (8 * row + 8) then slice_index bytes.now (at + (k - 8 * row)) else slice_index values.old k) }
{
    values[8 * row..8 * row + 8].copy_from_slice(&bytes[at..at + 8]);
}

// Copies a row of a square into eight bytes from a place on, and no others.
fn copy_in(bytes: &mut [u8], at: usize, values: &[u8; 64], row: usize)
    requires inside { at + 8 ≤ length bytes.old }
    requires row { row < 8 }
    ensures { (k : ℕ) → slice_index bytes.new k ≡ (if nat_le at k && nat_lt k (at + 8) then slice_index values.now (8 * row + (k - at)) else slice_index bytes.old k) }
{
    bytes[at..at + 8].copy_from_slice(&values[8 * row..8 * row + 8]);
}

// The square whose rows are kept so.
fn square_from(bytes: &[u8], at: usize, stride: usize) -> [u8; 64]
    requires { at + 7 * stride + 8 ≤ length bytes.now }
    ensures each { (k : ℕ) → k < 64 → slice_index result k ≡ slice_index bytes.now (at + k / 8 * stride + k % 8) }
    ensures small { (k : ℕ) → k < 64 → slice_index result k < 256 }
{
    let mut values = [0; 64];
    for row in 0..8 {
        copy_out(bytes, at + row * stride, &mut values, row);
    }
    values
}

// Sets the square whose rows are kept so.
fn set_square(
    bytes: &mut [u8],
    size: Size,
    plane: u8,
    across: usize,
    down: usize,
    values: &[u8; 64],
) -> bool
    requires columns { across ≤ 2000000 }
    requires rows { down ≤ 2000000 }
    requires room { size.columns * size.rows * 384 ≤ length bytes.old }
    ensures { let seen = bytes_seen size.columns size.rows in seen bytes.new ≡ (if result then painted_square (seen bytes.old) plane across down values.now else seen bytes.old) }
{
    let Some((at, stride)) = rows_at(size, plane, across, down) else {
        return false;
    };
    for row in 0..8 {
        copy_in(bytes, at + row * stride, values, row);
    }
    true
}

impl Store for ByteStore {
    ghost picture = { λ s. bytes_seen s.size.columns s.size.rows s.memory.items };

    ghost outside = { Prim.search rules };

    ghost byte = { Prim.search rules };

    fn columns(&self) -> u16 {
        self.size.columns
    }

    fn rows(&self) -> u16 {
        self.size.rows
    }

    fn read(&self, plane: u8, across: usize, down: usize) -> Option<u8> {
        let at = place(self.size, plane, across, down)?;
        Some(self.memory[at])
    }

    fn write(&mut self, plane: u8, across: usize, down: usize, value: u8) -> bool {
        let Some(at) = place(self.size, plane, across, down) else {
            return false;
        };
        self.memory[at] = value;
        true
    }

    fn read_together(&self, plane: u8, across: usize, down: usize) -> Option<[u8; 64]> {
        let (at, stride) = rows_at(self.size, plane, across, down)?;
        Some(square_from(&self.memory, at, stride))
    }

    fn write_together(&mut self, plane: u8, across: usize, down: usize, values: &[u8; 64]) -> bool {
        set_square(&mut self.memory, self.size, plane, across, down, values)
    }

    // The rest of the row at once.
    fn fill_run(
        &mut self,
        plane: u8,
        across: usize,
        down: usize,
        right: usize,
        value: u8,
    ) -> usize {
        if let Some((at, count)) = run_at(self.size, plane, across, down, right) {
            fill_part(&mut self.memory, at, count, value);
            return across + count;
        }
        self.write(plane, across, down, value);
        across + 1
    }

    // The rest of the row at once where the other store has the same size.
    fn copy_run(
        &mut self,
        other: &Self,
        plane: u8,
        across: usize,
        down: usize,
        right: usize,
    ) -> usize {
        if self.size == other.size {
            if let Some((at, count)) = run_at(self.size, plane, across, down, right) {
                copy_part(&other.memory, &mut self.memory, at, count);
                return across + count;
            }
        }
        // One sample, as the trait's own body has it, which an impl with a body of its own cannot call; three lines, which a function for both stores would have
        // too, with a contract of the trait's length.
        let value = other.sample(plane, across, down);
        self.write(plane, across, down, value);
        across + 1
    }

    // The whole picture at once where the other store has the same size.
    fn copy_together(&mut self, other: &Self, segment: Segment) -> bool {
        if self.size != other.size || !is_whole(self.size, segment) {
            return false;
        }
        self.copy_cells(other);
        true
    }
}
