// The memory that a caller supplies with each call.
ghost use Rattle.std.specs.Prelude.{◌≡◌};
ghost use Rattle.calls.specs.Held.{fits, fits_store, fits_table};
ghost use Rattle.reel.specs.Memories.{held_in};

use motion::vectors::Vector;
use pictures::{Format, Store};

// Two stores and four tables with a cell for each macroblock in raster order. The finished picture is the last one that was closed; the working
// picture is the one that is open. (Tables side by side, and not one of cells: these six parts are what a caller brings, each with a size of its own.)
#[derive(Drop)]
pub struct Memory<S> {
    pub finished: S,
    pub working: S,
    pub finished_ages: Vec<u8>,
    pub working_ages: Vec<u8>,
    pub vectors: Vec<Vector>,
    pub marks: Vec<Option<u8>>,
}

// Whether a store has exactly the size of a format.
pub(crate) fn fits_store<S: Store>(format: Format, store: &S) -> bool
    ensures { result ≡ fits_store format (S.picture store.now) }
{
    store.columns() == format.columns() && store.rows() == format.rows()
}

// Whether a table has exactly the size of a format.
pub(crate) fn fits_table<T>(format: Format, cells: &[T]) -> bool
    ensures { result ≡ fits_table format cells.now }
{
    cells.len() == format.macroblocks()
}

impl<S: Store> Memory<S> {
    // Whether all six parts have exactly the size of a format.
    pub fn fits(&self, format: Format) -> bool
        ensures { result ≡ fits format (held_in S.picture self.now) }
    {
        fits_store(format, &self.finished)
            && fits_table(format, &self.finished_ages)
            && fits_store(format, &self.working)
            && fits_table(format, &self.working_ages)
            && fits_table(format, &self.vectors)
            && fits_table(format, &self.marks)
    }
}
