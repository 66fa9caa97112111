// The two questions: a sample and an age of the finished picture. They write nothing.
ghost use Rattle.std.specs.Prelude.{◌≡◌, ℕ, ◌<◌, true};
ghost use Rattle.pictures.specs.Formats.{columns_of, rows_of};
ghost use Rattle.calls.specs.Questions.{in_grid};
ghost use Rattle.reel.specs.Calls.{age_of, sample_of};

use crate::memory::{fits_store, fits_table};
use crate::reels::Reel;
use calls::faults::PictureFault;
use pictures::{Format, Store};

// Whether the picture has a macroblock in a column and a row.
fn has_cell(format: Format, column: u32, row: u32) -> bool
    ensures value { result ≡ in_grid format column row }
    ensures few { result ≡ true → (column < columns_of format) × (row < rows_of format) }
{
    column < u32::from(format.columns()) && row < u32::from(format.rows())
}

impl Reel {
    // A sample of the finished picture, of which the store is given: by plane, across and down.
    pub fn sample<S: Store>(
        &self,
        finished: &S,
        plane: u32,
        across: u32,
        down: u32,
    ) -> Result<u8, PictureFault>
        ensures { result ≡ sample_of self.now (S.picture finished.now) plane across down }
    {
        if !fits_store(self.format, finished) {
            return Err(PictureFault::Size);
        }
        if self.finished.is_none() {
            return Err(PictureFault::Unfinished);
        }
        let Ok(plane) = u8::try_from(plane) else {
            return Err(PictureFault::Outside);
        };
        finished
            .read(plane, across as usize, down as usize)
            .ok_or(PictureFault::Outside)
    }

    // An age of the finished picture, of which the ages are given: by column and row.
    pub fn age(&self, ages: &[u8], column: u32, row: u32) -> Result<u8, PictureFault>
        ensures { result ≡ age_of self.now ages.now column row }
    {
        if !fits_table(self.format, ages) {
            return Err(PictureFault::Size);
        }
        if self.finished.is_none() {
            return Err(PictureFault::Unfinished);
        }
        if !has_cell(self.format, column, row) {
            return Err(PictureFault::Outside);
        }
        let cell = row as usize * self.format.columns() as usize + column as usize;
        tables::read(ages, cell).ok_or(PictureFault::Outside)
    }
}
