// Checking a whole delivery before anything rests on it.
ghost use Rattle.std.specs.Prelude.{◌≡◌, ℕ, true, is_ok, IfOk, OnOk};
ghost use Rattle.records.specs.Reading.{unread_of, with_unread};
ghost use Rattle.records.specs.Deliveries.{Whole, answered, intra_counted, end_from, is_intra, macroblocks_from, read, whole_words};

use crate::faults::{SegmentFault, WordFault};
use crate::reader::Words;
use crate::types::{Delivered, Macroblock, PictureKind};

impl Macroblock {
    pub fn is_intra(&self) -> bool
        ensures { result ≡ is_intra self.now }
    {
        matches!(self, Macroblock::Intra { .. })
    }
}

// The bytes have to be whole words.
fn check_bytes(bytes: &[u8]) -> Result<(), WordFault>
    ensures { result ≡ whole_words bytes.now }
{
    if bytes.len() % 4 == 0 {
        Ok(())
    } else {
        Err(WordFault::ByteCount)
    }
}

impl<'a> Words<'a> {
    // No word may be left after the last macroblock.
    fn check_end(&self, macroblocks: usize) -> Result<(), SegmentFault>
        ensures { result ≡ end_from macroblocks (unread_of self.now) }
    {
        if self.rest.len() < 4 {
            Ok(())
        } else {
            Err(SegmentFault::LeftOver(self.place(macroblocks, 6)))
        }
    }

    // Reads so many macroblocks, and counts the INTRA ones. (A loop, since of a closure that reads on in the words an iterator's contract says nothing.)
    fn count_intra(&mut self, kind: PictureKind, macroblocks: usize) -> Result<usize, SegmentFault>
        ensures { with_unread result (unread_of self.new) ≡ intra_counted 0 (macroblocks_from macroblocks kind (unread_of self.old) 0) }
    {
        let mut intra = 0;
        for macroblock in 0..macroblocks {
            let found = self.read_macroblock(kind, macroblock)?;
            intra += usize::from(found.is_intra());
        }
        Ok(intra)
    }
}

// Checks a delivery, in a picture of a kind, for a segment of so many macroblocks: the counts that it is answered, or the first fault.
#[tactic(auto, using(crate::proofs::Deliveries::answered_is, crate::proofs::Wholes::reads_whole))]
pub fn check_delivery(
    kind: PictureKind,
    macroblocks: usize,
    bytes: &[u8],
) -> Result<Delivered, SegmentFault>
    ensures value { result ≡ answered kind macroblocks bytes.now }
    ensures readable { OnOk result (is_ok (read kind macroblocks bytes.now) ≡ true) }
    ensures whole { IfOk (read kind macroblocks bytes.now) (Whole kind macroblocks) }
{
    check_bytes(bytes)?;
    let mut words = Words::new(bytes);
    let intra = words.count_intra(kind, macroblocks)?;
    words.check_end(macroblocks)?;
    Ok(Delivered {
        words: bytes.len() / 4,
        intra,
    })
}
