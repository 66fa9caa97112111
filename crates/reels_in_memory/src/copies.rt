// Copies of what a memory holds, for callers that want a plane or a table whole.
ghost use Rattle.std.specs.Prelude.{◌≡◌, ◌*◌, ◌++◌, ◌≤◌, length, drop};
ghost use Rattle.reels_in_memory.specs.Copies.{laid_over, plane_samples, plane_size, row_samples, rows_samples};

use pictures::{Store, side_of};

// Copies the first samples of a row of a plane, as many as there is room for.
fn copy_row<S: Store>(store: &S, plane: u8, down: usize, row: &mut [u8])
    ensures { row.new ≡ row_samples (S.picture store.now) plane (length row.old) down }
{
    for (across, sample) in row.iter_mut().enumerate() {
        *sample = store.sample(plane, across, down);
    }
}

// Copies the first rows of a plane, each so wide, one after the other.
fn copy_rows<S: Store>(store: &S, plane: u8, width: usize, height: usize, samples: &mut [u8])
    requires { width * height ≤ length samples.old }
    ensures { samples.new ≡ rows_samples (S.picture store.now) plane width height ++ drop (width * height) samples.old }
{
    for down in 0..height {
        let start = width * down;
        copy_row(store, plane, down, &mut samples[start..start + width]);
    }
}

// Copies a plane, row by row from the top, to the front of a buffer that has room for it, and tells how many samples it has. (The plane is a caller's number:
// one that names none has no samples.)
pub fn copy_plane<S: Store>(store: &S, plane: u32, samples: &mut [u8]) -> usize
    ensures size { result ≡ plane_size (S.picture store.now) plane }
    ensures samples { samples.new ≡ laid_over (plane_size (S.picture store.now) plane) (plane_samples (S.picture store.now) plane) samples.old }
{
    let plane = match u8::try_from(plane) {
        Ok(plane) if plane < 3 => plane,
        _ => return 0,
    };
    let width = store.columns() as usize * side_of(plane);
    let height = store.rows() as usize * side_of(plane);
    if width * height <= samples.len() {
        copy_rows(store, plane, width, height, samples);
    }
    width * height
}

// Copies a table to the front of a buffer that has room for it, and tells how many cells it has.
pub fn copy_table(cells: &[u8], buffer: &mut [u8]) -> usize
    ensures size { result ≡ length cells.now }
    ensures cells { buffer.new ≡ laid_over (length cells.now) cells.now buffer.old }
{
    if cells.len() <= buffer.len() {
        tables::copy(cells, &mut buffer[..cells.len()]);
    }
    cells.len()
}
