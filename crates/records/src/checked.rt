ghost use Rattle.std.specs.Prelude.{◌≡◌, ℕ, ◌-◌, ◌<◌, ◌≤◌, true, is_ok};
ghost use Rattle.records.specs.Reading.{unread_of};
ghost use Rattle.records.specs.Deliveries.{macroblocks_from};

use crate::reader::Words;
use crate::types::PictureKind;
use std::ops::Range;

// A delivery that was checked whole, to be read again macroblock by macroblock: that reading cannot fail.
#[derive(Drop)]
pub struct Delivery<'a> {
    pub(crate) words: Words<'a>,
    pub(crate) kind: PictureKind,
    // the numbers of the macroblocks still to come
    pub(crate) due: Range<usize>,
    ghost within: { due.start ≤ due.end },
    ghost readable: { is_ok (macroblocks_from (due.end - due.start) kind (unread_of words) due.start) ≡ true },
}
