// A reel together with its memory and its transform, between two calls.
ghost use Rattle.std.specs.Prelude.{◌≡◌, true};
ghost use Rattle.reels_in_memory.specs.Memories.{memory_fits};

use crate::memories::StoredMemory;
use call_lines::line::StoreKind;
use replay::Stage;
use transform::TransformKind;

// What the script chose for the reels to come.
#[derive(Clone, Copy)]
pub struct Choices {
    pub store: StoreKind,
    pub transform: TransformKind,
}

// A reel between two calls, with the memory and the transform that the script chose for it. The memory has the reel's size, so that an open picture can
// always be closed: reel and memory are let go in no other way.
pub struct ReelInMemory {
    pub(crate) stage: Stage,
    pub(crate) memory: StoredMemory,
    pub(crate) transform: TransformKind,
    ghost fit: { memory_fits stage memory ≡ true },
}
