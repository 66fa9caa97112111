// Calls on what C holds.
ghost use Rattle.std.specs.Prelude.{◌≡◌, length};
ghost use Rattle.std.specs.Borrow.{sem};
ghost use Rattle.calls.specs.Runs.{call_of};
ghost use Rattle.reels_in_memory.specs.Copies.{laid_over, plane_samples, plane_size};
ghost use Rattle.handles.specs.Handles.{Answered, LendsKept, ages_behind, finished_behind};

use crate::answer::AnswerNumbers;
use crate::handle::ReelHandle;
use crate::kept::KeptReel;
use crate::raw_box::RawBox;
use calls::answers::Call;
use std::alloc::Global;

impl ReelHandle {
    // Lends the reel behind the pointer. (By hand, as the borrow checker follows no raw pointer.)
    pub fn kept(&mut self) -> &mut KeptReel
        ensures* writes_back { sem 𝓛 (LendsKept self.entry result) }
        ensures value { result.now ≡ self.old.kept }
    {
        unsafe { &mut *(self.at as *mut KeptReel) }
    }

    // Copies a plane of the finished picture, row by row from the top, to a buffer that has room for it, and tells how many samples it has.
    pub fn copy_plane(&mut self, plane: u32, samples: &mut [u8]) -> usize
        ensures size { result ≡ plane_size (finished_behind self.old) plane }
        ensures samples { samples.new ≡ laid_over (plane_size (finished_behind self.old) plane) (plane_samples (finished_behind self.old) plane) samples.old }
        ensures handle { self.new ≡ self.old }
    {
        self.kept().reel.copy_plane(plane, samples)
    }

    // Copies the ages of the finished picture to a buffer that has room for them, and tells how many there are.
    pub fn copy_ages(&mut self, ages: &mut [u8]) -> usize
        ensures size { result ≡ length (ages_behind self.old) }
        ensures ages { ages.new ≡ laid_over (length (ages_behind self.old)) (ages_behind self.old) ages.old }
        ensures handle { self.new ≡ self.old }
    {
        self.kept().reel.copy_ages(ages)
    }

    // Makes one call.
    pub fn step(&mut self, call: &Call<&[u8]>) -> AnswerNumbers
        ensures { Answered self.old (call_of call.now) self.new result }
    {
        let answer = self.kept().step(call);
        AnswerNumbers::from(answer)
    }
}

// Gives a handle's memory back, and all that it owns.
pub fn release(raw: RawBox<ReelHandle, Global>) {
    drop(raw.into_box());
}
