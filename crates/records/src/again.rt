// Reading a checked delivery again.
ghost use Rattle.std.specs.Prelude.{◌≡◌, ℕ, ◌<◌, true, length, is_ok, IfOk, Ok};
ghost use Rattle.std.specs.Result.{result_map_both};
ghost use Rattle.std.specs.Iterator.{YieldsFirst, item_count};
ghost use Rattle.records.specs.Again.{records_of};
ghost use Rattle.records.specs.Deliveries.{answered, read};

use crate::checked::Delivery;
use crate::delivery::check_delivery;
use crate::faults::SegmentFault;
use crate::reader::Words;
use crate::types::{Delivered, Macroblock, PictureKind};

impl<'a> Delivery<'a> {
    // A delivery that `check_delivery` has accepted. (Kind, count and bytes stay apart, here and where they are checked: callers have them one by one, and a struct
    // of them, made and taken apart at each call, would hold no fact that the three do not.)
    pub fn new(kind: PictureKind, macroblocks: usize, bytes: &'a [u8]) -> Delivery<'a>
        requires { is_ok (read kind macroblocks bytes.now) ≡ true }
        ensures records { read kind macroblocks bytes.now ≡ Ok (records_of result) }
        ensures count { length (records_of result) ≡ macroblocks }
    {
        Delivery {
            words: Words::new(bytes),
            kind,
            due: 0..macroblocks,
        }
    }

    // Checks a delivery, and makes an accepted one ready to be read: beside the counts that it is answered, or the first fault.
    pub fn checked(
        kind: PictureKind,
        macroblocks: usize,
        bytes: &'a [u8],
    ) -> Result<(Delivered, Delivery<'a>), SegmentFault>
        ensures value { result_map_both (λ accepted. accepted.0) (λ fault. fault) result ≡ answered kind macroblocks bytes.now }
        ensures records { IfOk result (λ accepted. read kind macroblocks bytes.now ≡ Ok (records_of accepted.1)) }
        ensures count { IfOk result (λ accepted. length (records_of accepted.1) ≡ macroblocks) }
    {
        let delivered = check_delivery(kind, macroblocks, bytes)?;
        Ok((delivered, Delivery::new(kind, macroblocks, bytes)))
    }
}

impl<'a> Iterator for Delivery<'a> {
    type Item = Macroblock;

    ghost next_gives = { YieldsFirst records_of };

    ghost remaining = { item_count records_of };

    // The next macroblock, as long as there is one.
    fn next(&mut self) -> Option<Macroblock> {
        let macroblock = self.due.next()?;
        self.words.read_macroblock(self.kind, macroblock).ok()
    }
}
