// A box as its pointer. The proofs of `of` and `into_box` are by hand, as for any code that reaches a pointer that owns memory.
ghost use Rattle.std.specs.Prelude.{◌≡◌, IfSome};
ghost use Rattle.std.specs.Box.Ownership.{box_owns};

use std::alloc::Allocator;
use std::marker::Model;

// A value on the heap by the pointer to it, which owns the value and the right to free its block.
pub struct RawBox<T, A: Allocator> {
    pub at: *mut T,
    pub alloc: A,
    pub ghost value: { T },
}

impl<T, A: Allocator> Model for RawBox<T, A> {
    ghost also_owns = { λ l. box_owns (A.dealloc_token l.alloc) T.row l.at l.value };
}

impl<T: Drop, A: Allocator> RawBox<T, A> {
    // A value in a block of its own, if there is memory for that.
    pub fn new(alloc: A, value: T) -> Option<RawBox<T, A>>
        ensures { IfSome result (λ raw. raw.value ≡ value) }
    {
        let value = Box::new(alloc, value).ok()?;
        Some(RawBox::of(value))
    }

    pub fn of(value: Box<T, A>) -> RawBox<T, A>
        ensures { result.value ≡ value.value }
    {
        let (at, alloc) = Box::into_raw_with_allocator(value);
        RawBox { at, alloc }
    }

    pub fn into_box(self) -> Box<T, A>
        ensures { result.value ≡ self.value }
    {
        let RawBox { at, alloc } = self;
        unsafe { Box::from_raw(alloc, at) }
    }
}
