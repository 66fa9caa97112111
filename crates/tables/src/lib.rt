// Tables: one cell for each macroblock in raster order, over a slice of any element that is copied. A part of a table that is handed on,
// as `&mut cells[first..]`, is a table again; the cells before it stay as they are.
#![tactic(auto)]

ghost use Rattle.std.specs.Prelude.{◌≡◌, ℕ, ◌&&◌, length, min, replicate, if◌then◌else◌, nat_eq, nat_lt, slice_get, slice_index_or};
ghost use Rattle.tables.specs.Cells.{in_part};

// Sets every cell to the value. (By hand: the slice's own `fill` asks that a clone of the element cannot fail, which `Copy` alone does not say.)
pub fn fill<T: Copy>(cells: &mut [T], value: T)
    ensures { cells.new ≡ replicate (length cells.old) value }
{
    for cell in cells.iter_mut() {
        *cell = value;
    }
}

// Copies so many cells from a place on, those that both tables have, and no others.
pub fn copy_part<T: Copy>(from: &[T], to: &mut [T], first: usize, count: usize)
    ensures { (k : ℕ) (d : T) → slice_index_or to.new k d ≡ (if in_part first count (min (length from.now) (length to.old)) k then slice_index_or from.now k d else slice_index_or to.old k d) }
{
    let both = from.len().min(to.len());
    if first < both {
        let end = first + count.min(both - first);
        to[first..end].copy_from_slice(&from[first..end]);
    }
}

// Copies the cells that both tables have, which is every cell where they are of one size.
pub fn copy<T: Copy>(from: &[T], to: &mut [T])
    ensures cells { (k : ℕ) (d : T) → slice_index_or to.new k d ≡ (if in_part 0 (length from.now) (length to.old) k then slice_index_or from.now k d else slice_index_or to.old k d) }
    ensures whole { length from.now ≡ length to.old → to.new ≡ from.now }
{
    copy_part(from, to, 0, from.len());
}

// The cell at a place, or absence.
pub fn read<T: Copy>(cells: &[T], place: usize) -> Option<T>
    ensures { result ≡ slice_get cells.now place }
{
    cells.get(place).copied()
}

// Sets the cell at a place, if there is one, and no other. Answers whether there is. (By index: nothing is known of the cells after a write through `get_mut`.)
pub fn put<T: Copy>(cells: &mut [T], place: usize, value: T) -> bool
    ensures answer { result ≡ nat_lt place (length cells.old) }
    ensures cells { (k : ℕ) (d : T) → slice_index_or cells.new k d ≡ (if nat_eq k place && nat_lt k (length cells.old) then value else slice_index_or cells.old k d) }
{
    if place < cells.len() {
        cells[place] = value;
        return true;
    }
    false
}

// Sets so many cells from a place on, those that there are, and no others.
pub fn fill_part<T: Copy>(cells: &mut [T], first: usize, count: usize, value: T)
    ensures { (k : ℕ) (d : T) → slice_index_or cells.new k d ≡ (if in_part first count (length cells.old) k then value else slice_index_or cells.old k d) }
{
    let size = cells.len();
    if first < size {
        let end = first + count.min(size - first);
        fill(&mut cells[first..end], value);
    }
}
