// Rebuilding the segment of an accepted delivery.
ghost use Rattle.std.specs.Prelude.{◌≡◌, ℕ, ◌+◌, ◌-◌, ◌*◌, ◌<◌, true, length, drop, is_ok};
ghost use Rattle.motion.specs.Cells.{Room, ages_of, marks_of};
ghost use Rattle.motion.specs.Vectors.{vectors_of};
ghost use Rattle.records.specs.Again.{records_of};
ghost use Rattle.records.specs.Deliveries.{read};
ghost use Rattle.rebuild.specs.Laws.{Independent};
ghost use Rattle.rebuild.specs.Rebuilt.{Spans, count_of, delivery_records, first_cell, set_from, width_of};
ghost use Rattle.rebuild.specs.Rebuilders.{rebuilt_by};

use crate::rebuilder::Rebuilder;
use deblocking::deblock_segment;
use motion::cells::set_cells;
use motion::vectors::Vector;
use pictures::Store;
use records::checked::Delivery;
use records::types::PictureKind;
use transform::Transform;

// Sets the cells of a delivery's macroblocks in the three tables, from the first on, and no others: the part of each table from the segment's first
// row on is handed on to be written.
fn set_cells_from(
    columns: usize,
    first: usize,
    delivery: Delivery,
    finished: &[u8],
    ages: &mut [u8],
    vectors: &mut [Vector],
    marks: &mut [Option<u8>],
)
    requires some_columns { 0 < columns }
    requires few { length (records_of delivery) < 65535 }
    requires room { Room (first + length (records_of delivery)) finished.now ages.old vectors.old marks.old }
    ensures ages { ages.new ≡ set_from first (ages_of (records_of delivery.entry) (drop first finished.now)) ages.old }
    ensures vectors { vectors.new ≡ set_from first (vectors_of columns (records_of delivery.entry)) vectors.old }
    ensures marks { marks.new ≡ set_from first (marks_of (records_of delivery.entry)) marks.old }
{
    set_cells(
        columns,
        delivery,
        &finished[first..],
        &mut ages[first..],
        &mut vectors[first..],
        &mut marks[first..],
    );
}

impl<S: Store, T: Transform> Rebuilder<'_, '_, S, T> {
    // Rebuilds the window's segment from an accepted delivery: sets its samples in the working store and its cells in the tables, and no others.
    // (The tables stay four parameters, for the reason beside `set_cells` of `motion`. Kind and bytes, and no `Delivery`: they are read twice, for the cells and for the
    // samples, and a `Delivery` is used up by its reading and holds what no derive copies.)
    pub fn rebuild_segment(
        &self,
        working: &mut S,
        kind: PictureKind,
        bytes: &[u8],
        finished_ages: &[u8],
        ages: &mut [u8],
        vectors: &mut [Vector],
        marks: &mut [Option<u8>],
    )
        requires spans { Spans self.now.window.segment (S.picture working.old).wide }
        requires readable { is_ok (read kind (count_of self.now.window.segment) bytes.now) ≡ true }
        requires room { let s = self.now.window.segment in Room (s.bottom * width_of s) finished_ages.now ages.old vectors.old marks.old }
        ensures samples { S.picture working.new ≡ rebuilt_by S.picture T.meaning self.now (delivery_records kind (count_of self.now.window.segment) bytes.now) marks.new (S.picture working.old) }
        ensures ages { let s = self.now.window.segment in ages.new ≡ set_from (first_cell s) (ages_of (delivery_records kind (count_of s) bytes.now) (drop (first_cell s) finished_ages.now)) ages.old }
        ensures vectors { let s = self.now.window.segment in vectors.new ≡ set_from (first_cell s) (vectors_of (width_of s) (delivery_records kind (count_of s) bytes.now)) vectors.old }
        ensures marks { let s = self.now.window.segment in marks.new ≡ set_from (first_cell s) (marks_of (delivery_records kind (count_of s) bytes.now)) marks.old }
        ensures independent { Independent self.now.window.segment }
    {
        let segment = self.window.segment;
        let columns = (segment.right - segment.left) as usize;
        let count = (segment.bottom - segment.top) as usize * columns;
        let first = segment.top as usize * columns;
        set_cells_from(
            columns,
            first,
            Delivery::new(kind, count, bytes),
            finished_ages,
            ages,
            vectors,
            marks,
        );
        self.rebuild_samples(working, vectors, first, Delivery::new(kind, count, bytes));
        deblock_segment(working, marks, segment);
    }
}
