ghost use Rattle.std.specs.Prelude.{◌≡◌, ℕ, ◌*◌, ◌/◌, ◌≤◌, IfOk, List, length, replicate, vec_len};
ghost use Rattle.pictures.specs.Formats.{columns_of, format_of_number, rows_of};
ghost use Rattle.pictures.specs.Pictures.{Picture};
ghost use Rattle.stores.specs.Room.{FrontCopied, has_room, made, size_in};

use crate::room::format_in;
use pictures::{Format, Size};
use std::alloc::{AllocError, Global};
use tables::copy_part;

// A store that keeps a picture's samples in cells, so many of them to a macroblock; how, is told by the kind of cell.
#[derive(Drop)]
pub struct CellStore<C, const PER_MACROBLOCK: u16> {
    pub(crate) size: Size,
    pub(crate) memory: Vec<C>,
    ghost enough: { size.columns * size.rows * PER_MACROBLOCK ≤ vec_len memory },
}

impl<C: Copy, const PER_MACROBLOCK: u16> CellStore<C, PER_MACROBLOCK> {
    // For how many macroblocks so many cells have room.
    fn room(cells: usize) -> usize
        ensures { result ≡ cells / PER_MACROBLOCK }
    {
        cells.checked_div(PER_MACROBLOCK as usize).unwrap_or(0)
    }

    // Whether so many cells make a store of the format of this number. (A number here and in `new`, since it may name no format; `filled` takes a format.)
    pub fn suffices(format: u8, cells: usize) -> bool
        ensures { result ≡ has_room (format_of_number format) (cells / PER_MACROBLOCK) }
    {
        format_in(format, Self::room(cells)).is_some()
    }

    // The store over a memory; of size 0 by 0 where the memory does not suffice or the format is unknown: this cannot fail, and `suffices` tells it beforehand.
    pub fn new(format: u8, memory: Vec<C>) -> Self
        ensures size { (result.size.columns, result.size.rows) ≡ size_in (format_of_number format) (length memory.items / PER_MACROBLOCK) }
        ensures memory { result.memory ≡ memory }
        ensures made { (seen : ℕ → ℕ → List C → Picture) → seen result.size.columns result.size.rows result.memory.items ≡ made seen PER_MACROBLOCK format memory.items }
    {
        let size = format_in(format, Self::room(memory.len()))
            .map(Size::from)
            .unwrap_or_default();
        CellStore { size, memory }
    }

    // The store of a format in new memory, every cell of which is the one given.
    pub fn filled(heap: Global, format: Format, cell: C) -> Result<Self, AllocError>
        ensures size { IfOk result (λ store. (store.size.columns ≡ columns_of format) × (store.size.rows ≡ rows_of format)) }
        ensures cells { IfOk result (λ store. vec_len store.memory ≡ columns_of format * rows_of format * PER_MACROBLOCK) }
        ensures filled { IfOk result (λ store. ((copy : C) → C.is_clone cell copy → copy ≡ cell) → store.memory.items ≡ replicate (vec_len store.memory) cell) }
    {
        let cells = format.macroblocks() * PER_MACROBLOCK as usize;
        let memory = vec![in heap; cell; cells]?;
        Ok(CellStore {
            size: Size::from(format),
            memory,
        })
    }

    // Copies the cells of the picture from a store of the same size, and none beyond.
    pub(crate) fn copy_cells(&mut self, other: &Self)
        requires columns { self.old.size.columns ≡ other.now.size.columns }
        requires rows { self.old.size.rows ≡ other.now.size.rows }
        ensures size { self.new.size ≡ self.old.size }
        ensures cells { FrontCopied (self.old.size.columns * self.old.size.rows * PER_MACROBLOCK) other.now.memory.items self.old.memory.items self.new.memory.items }
    {
        let macroblocks = self.size.columns as usize * self.size.rows as usize;
        let cells = macroblocks * PER_MACROBLOCK as usize;
        copy_part(&other.memory, &mut self.memory, 0, cells);
    }

    // Gives the memory back.
    pub fn into_memory(self) -> Vec<C>
        ensures { result ≡ self.memory }
    {
        let CellStore { memory, .. } = self;
        memory
    }
}
