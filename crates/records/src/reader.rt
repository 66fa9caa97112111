ghost use Rattle.std.specs.Prelude.{ℕ, ◌+◌, ◌^◌, ◌<◌, length};

// The bytes of a delivery still to be read, and the index of their first word.
#[derive(Drop)]
pub struct Words<'a> {
    pub(crate) rest: &'a [u8],
    pub(crate) index: usize,
    ghost room: { index + length rest.now < 2 ^ 64 },
}
