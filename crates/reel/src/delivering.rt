// Delivering a segment.
ghost use Rattle.std.specs.Prelude.{◌≡◌, ℕ, ◌*◌, ◌^◌, ◌<◌, ◌≤◌, true, is_ok, bit_or, IfErr};
ghost use Rattle.motion.specs.Cells.{Room};
ghost use Rattle.records.specs.Deliveries.{read};
ghost use Rattle.pictures.specs.Segments.{has_bit};
ghost use Rattle.rebuild.specs.Rebuilt.{Spans, count_of, delivery_records, width_of};
ghost use Rattle.calls.specs.Effects.{segment_rebuilt};
ghost use Rattle.calls.specs.Held.{fits};
ghost use Rattle.reel.specs.Calls.{delivery_answered, held_after, judged, slip_after};
ghost use Rattle.reel.specs.Memories.{held_in};

use crate::memory::Memory;
use crate::reels::Slip;
use calls::faults::PictureFault;
use pictures::{Segment, Store, has_bit};
use prediction::window::Window;
use rebuild::rebuilder::Rebuilder;
use records::delivery::check_delivery;
use records::types::{Delivered, PictureKind};
use samples::Rounding;
use transform::Transform;

// The marks with a segment's bit set, and no other altered.
fn with_mark(marks: u32, segment: u32) -> u32
    requires { segment < 32 }
    ensures { result ≡ bit_or marks (2 ^ segment) }
{
    marks | 1 << segment
}

// The macroblocks of a segment. (The rebuilding has the same product, since it needs the columns by themselves too.)
fn macroblocks_in(segment: Segment) -> usize
    requires { (segment.left ≤ segment.right) × ((segment.right ≤ 22) × ((segment.top ≤ segment.bottom) × (segment.bottom ≤ 18))) }
    ensures { result ≡ count_of segment }
{
    (segment.bottom - segment.top) as usize * (segment.right - segment.left) as usize
}

// Rebuilds the segment of an accepted delivery in a memory that has room for it. (The segment's bounds are asked for, since the window that holds them can
// be made only when the memory is taken apart.)
fn rebuild_in<S: Store, T: Transform>(
    memory: &mut Memory<S>,
    transform: &T,
    segment: Segment,
    rounding: Rounding,
    kind: PictureKind,
    bytes: &[u8],
)
    requires some_columns { segment.left < segment.right }
    requires few_columns { segment.right ≤ 22 }
    requires some_rows { segment.top < segment.bottom }
    requires few_rows { segment.bottom ≤ 22 }
    requires spans { Spans segment (S.picture memory.old.working).wide }
    requires readable { is_ok (read kind (count_of segment) bytes.now) ≡ true }
    requires room { let m = memory.old in Room (segment.bottom * width_of segment) m.finished_ages.items m.working_ages.items m.vectors.items m.marks.items }
    ensures { held_in S.picture memory.new ≡ segment_rebuilt (T.meaning transform.now) segment rounding (delivery_records kind (count_of segment) bytes.now) (held_in S.picture memory.old) }
{
    let Memory {
        finished,
        working,
        finished_ages,
        working_ages,
        vectors,
        marks,
    } = memory;
    let window = Window {
        finished,
        segment,
        rounding,
    };
    let rebuilder = Rebuilder { window, transform };
    rebuilder.rebuild_segment(
        working,
        kind,
        bytes,
        finished_ages,
        working_ages,
        vectors,
        marks,
    );
}

impl Slip {
    // Whether a segment was accepted.
    pub(crate) fn is_accepted(&self, segment: u32) -> bool
        ensures { result ≡ has_bit self.now.accepted segment }
    {
        has_bit(self.accepted, segment)
    }

    // Puts a delivery its questions: the counts that it is answered, or the first fault.
    fn check<S: Store>(
        &self,
        memory: &Memory<S>,
        segment: u32,
        bytes: &[u8],
    ) -> Result<Delivered, PictureFault>
        ensures { result ≡ delivery_answered bytes.now (judged self.now (held_in S.picture memory.now) segment bytes.now) }
    {
        if !memory.fits(self.reel.format) {
            return Err(PictureFault::Size);
        }
        if segment >= self.reel.format.segments(self.layout) {
            return Err(PictureFault::Number);
        }
        if self.is_accepted(segment) {
            return Err(PictureFault::Repeated);
        }
        let rectangle = self.reel.format.segment(self.layout, segment);
        Ok(check_delivery(self.kind, macroblocks_in(rectangle), bytes)?)
    }

    // Delivers a segment's bytes: where they are accepted the segment is rebuilt in the working picture, and its cells of the working ages, the vectors
    // and the marks are set. Hands the slip back, and answers the counts of words and of INTRA macroblocks, or the fault, and
    // then leaves the very memory.
    pub fn deliver<S: Store, T: Transform>(
        mut self,
        memory: &mut Memory<S>,
        transform: &T,
        segment: u32,
        bytes: &[u8],
    ) -> (Slip, Result<Delivered, PictureFault>)
        ensures slip { result.0 ≡ slip_after self segment (judged self (held_in S.picture memory.old) segment bytes.now) }
        ensures answer { result.1 ≡ delivery_answered bytes.now (judged self (held_in S.picture memory.old) segment bytes.now) }
        ensures memory { held_in S.picture memory.new ≡ held_after (T.meaning transform.now) self segment (judged self (held_in S.picture memory.old) segment bytes.now) (held_in S.picture memory.old) }
        ensures untouched { IfErr result.1 (λ _. memory.new ≡ memory.old) }
        ensures format { result.0.reel.format ≡ self.reel.format }
        ensures size { fits self.reel.format (held_in S.picture memory.new) ≡ fits self.reel.format (held_in S.picture memory.old) }
    {
        let counts = match self.check(memory, segment, bytes) {
            Ok(counts) => counts,
            Err(fault) => return (self, Err(fault)),
        };
        let rectangle = self.reel.format.segment(self.layout, segment);
        rebuild_in(
            memory,
            transform,
            rectangle,
            self.rounding,
            self.kind,
            bytes,
        );
        self.accepted = with_mark(self.accepted, segment);
        (self, Ok(counts))
    }
}
