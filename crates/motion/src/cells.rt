// The table cells of a segment: vectors, ages and marks.
ghost use Rattle.std.specs.Prelude.{◌≡◌, ◌<◌, ◌++◌, length, drop};
ghost use Rattle.records.specs.Again.{records_of};
ghost use Rattle.motion.specs.Cells.{Room, ages_of, mark_of, marks_of};
ghost use Rattle.motion.specs.Vectors.{vectors_of};

use crate::candidates::Neighbours;
use crate::vectors::Vector;
use records::checked::Delivery;
use records::types::Macroblock;
use samples::next_age;

// The mark of a macroblock.
fn mark_of(macroblock: &Macroblock) -> Option<u8>
    ensures { result ≡ mark_of macroblock.now }
{
    match macroblock {
        Macroblock::Skipped => None,
        Macroblock::Inter { quantizer, .. } | Macroblock::Intra { quantizer, .. } => {
            Some(*quantizer)
        }
    }
}

// Sets the cells of a delivery's macroblocks, from the front of the parts of the tables that are handed on, and no others. The finished ages are
// those of the same macroblocks. (The four tables stay apart: what a part of a table holds is lost to the proof once its slice lay in a struct that
// was lent, and only its length is known. They are written by index: an `iter_mut` over three tables at once would lose their cells to the proof, and the
// vectors written so far are read for the next one. The finished age is read by index too: that there is one is a condition, and `tables::read` would test it
// again.)
pub fn set_cells(
    columns: usize,
    delivery: Delivery,
    finished: &[u8],
    ages: &mut [u8],
    vectors: &mut [Vector],
    marks: &mut [Option<u8>],
)
    requires some_columns { 0 < columns }
    requires few { length (records_of delivery) < 65535 }
    requires room { Room (length (records_of delivery)) finished.now ages.old vectors.old marks.old }
    ensures ages { ages.new ≡ ages_of (records_of delivery.entry) finished.now ++ drop (length (records_of delivery.entry)) ages.old }
    ensures vectors { vectors.new ≡ vectors_of columns (records_of delivery.entry) ++ drop (length (records_of delivery.entry)) vectors.old }
    ensures marks { marks.new ≡ marks_of (records_of delivery.entry) ++ drop (length (records_of delivery.entry)) marks.old }
{
    for (i, macroblock) in delivery.enumerate() {
        let neighbours = Neighbours {
            vectors,
            columns,
            place: i,
        };
        vectors[i] = neighbours.vector_for(&macroblock);
        ages[i] = next_age(macroblock.is_intra(), finished[i]);
        marks[i] = mark_of(&macroblock);
    }
}
