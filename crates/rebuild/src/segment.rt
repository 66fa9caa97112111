// Rebuilding the samples of a segment, before the deblocking filter.
ghost use Rattle.std.specs.Prelude.{◌≡◌, ℕ, ◌+◌, ◌-◌, ◌*◌, ◌<◌, ◌≤◌, length, drop};
ghost use Rattle.records.specs.Again.{records_of};
ghost use Rattle.rebuild.specs.Rebuilders.{unfiltered_by, unfiltered_row_by};

use crate::places::MacroblockPlace;
use crate::rebuilder::Rebuilder;
use motion::candidates::vector_at;
use motion::vectors::Vector;
use pictures::{Segment, Store};
use records::checked::Delivery;
use transform::Transform;

impl<S: Store, T: Transform> Rebuilder<'_, '_, S, T> {
    // Sets the samples of a row of the segment's macroblocks, and no others. The vectors of the row begin at `first`. (The slice and its
    // start stay apart, here and below: it was tried, and `&vectors[first..]` that is handed on inside a loop is lost to the proof; see docs/PROVING.md.)
    fn rebuild_row(
        &self,
        working: &mut S,
        row: u16,
        vectors: &[Vector],
        first: usize,
        delivery: &mut Delivery,
    )
        requires row { row ≤ 22 }
        requires first { first ≤ 65535 }
        requires records { let s = self.now.window.segment in s.right - s.left ≤ length (records_of delivery.old) }
        ensures samples { S.picture working.new ≡ unfiltered_row_by S.picture T.meaning self.now row (records_of delivery.old) (drop first vectors.now) (S.picture working.old) }
        ensures records { let s = self.now.window.segment in records_of delivery.new ≡ drop (s.right - s.left) (records_of delivery.old) }
    {
        let Segment { left, right, .. } = self.window.segment;
        // not zipped with the columns: the delivery is lent, and goes on in the next row
        for column in left..right {
            let Some(macroblock) = delivery.next() else {
                return;
            };
            let vector = vector_at(vectors, first + (column - left) as usize);
            self.rebuild_macroblock(
                working,
                MacroblockPlace { column, row },
                &macroblock,
                vector,
            );
        }
    }

    // Sets the samples of the segment, and no others, from the records of a delivery and the vectors of their macroblocks, which begin at `start`.
    pub(crate) fn rebuild_samples(
        &self,
        working: &mut S,
        vectors: &[Vector],
        start: usize,
        mut delivery: Delivery,
    )
        requires records { let s = self.now.window.segment in (s.bottom - s.top) * (s.right - s.left) ≤ length (records_of delivery) }
        requires start { start ≤ 5000 }
        ensures { S.picture working.new ≡ unfiltered_by S.picture T.meaning self.now (records_of delivery.entry) (drop start vectors.now) (S.picture working.old) }
    {
        let Segment {
            left,
            right,
            top,
            bottom,
        } = self.window.segment;
        let columns = (right - left) as usize;
        for row in top..bottom {
            let first = start + (row - top) as usize * columns;
            self.rebuild_row(working, row, vectors, first, &mut delivery);
        }
    }
}
