// A reel that is kept for C.
ghost use Rattle.std.specs.Prelude.{◌≡◌};
ghost use Rattle.calls.specs.Runs.{call_of};
ghost use Rattle.reels_in_memory.specs.Steps.{Turned};

use calls::answers::{Answer, Call};
use core::mem::replace_with;
use reels_in_memory::reel_in_memory::ReelInMemory;

// A reel with its memory that closes its open picture where it is let go: C may give a reel back at any time, and a slip has to be handed in.
pub struct KeptReel {
    pub reel: ReelInMemory,
}

impl Drop for KeptReel {
    fn drop(self) {
        let KeptReel { reel } = self;
        reel.abandon();
    }
}

impl KeptReel {
    pub fn new(reel: ReelInMemory) -> KeptReel
        ensures { result.reel ≡ reel }
    {
        KeptReel { reel }
    }

    // Makes one call.
    pub fn step(&mut self, call: &Call<&[u8]>) -> Answer
        ensures { Turned self.old.reel (call_of call.now) self.new.reel result }
    {
        replace_with(&mut self.reel, call, ReelInMemory::step)
    }
}
