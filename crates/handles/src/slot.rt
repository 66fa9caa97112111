// Where a pointer of C to a reel is put.
ghost use Rattle.std.specs.Prelude.{◌≡◌, Option, Some};
ghost use Rattle.handles.specs.declared.handle.ReelHandle.{ReelHandle as Handle};

use crate::handle::ReelHandle;
use crate::raw_box::RawBox;
use std::alloc::Global;
use std::marker::Model;

// A place of C for a pointer to a reel. Where no handle lies behind the pointer it is any that C left there, and owns nothing. (A place may be let go
// without more: the handle is C's to give back.)
#[repr(C)]
#[derive(Drop)]
pub struct ReelSlot {
    at: *mut ReelHandle,
    pub ghost handle: { Option Handle },
}

impl Model for ReelSlot {
    ghost use Rattle.handles.specs.Handles.{slot_owns};

    ghost also_owns = { λ s. slot_owns s.at s.handle };
}

impl ReelSlot {
    pub fn of(raw: RawBox<ReelHandle, Global>) -> ReelSlot
        ensures { result.handle ≡ Some raw.value }
    {
        let RawBox { at, alloc: _ } = raw;
        ReelSlot { at }
    }
}
