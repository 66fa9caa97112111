// What a pointer of C to a reel points to.
ghost use Rattle.std.specs.Prelude.{◌≡◌};
ghost use Rattle.std.specs.Box.Ownership.{box_owns};
ghost use Rattle.std.specs.contracts.impls.GlobalAllocator.TheImpl.{ghosts as allocator};
ghost use Rattle.handles.specs.declared.kept.KeptReel.{KeptReel as Kept};
ghost use Rattle.handles.specs.contracts.kept.KeptReel.{the_row as kept_row};

use crate::kept::KeptReel;
use crate::raw_box::RawBox;
use std::alloc::Global;
use std::marker::{Model, Send};

// A pointer to a kept reel, which owns it. (The reel lies in a block of its own, since no export may name a type that holds a vector, or a pointer to one: so
// the pointer has no type here, and the ghost field says what lies there.)
#[repr(C)]
pub struct ReelHandle {
    pub(crate) at: *mut u8,
    alloc: Global,
    pub ghost kept: { Kept },
}

impl Model for ReelHandle {
    ghost also_owns = { λ h. box_owns (allocator.dealloc_token h.alloc) kept_row h.at h.kept };
}

impl ReelHandle {
    pub fn of(raw: RawBox<KeptReel, Global>) -> ReelHandle
        ensures { result.kept ≡ raw.value }
    {
        let RawBox { at, alloc } = raw;
        ReelHandle {
            at: at as *mut u8,
            alloc,
        }
    }

    fn into_raw(self) -> RawBox<KeptReel, Global>
        ensures { result.value ≡ self.kept }
    {
        let ReelHandle { at, alloc } = self;
        RawBox {
            at: at as *mut KeptReel,
            alloc,
        }
    }
}

impl Drop for ReelHandle {
    fn drop(self) {
        let raw = self.into_raw();
        drop(raw.into_box());
    }
}

// A reel may go to another thread: what lies behind the pointer may, and any thread may free its block.
unsafe impl Send for ReelHandle {}
