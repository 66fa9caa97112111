// Reading a macroblock.
ghost use Rattle.std.specs.Prelude.{◌≡◌, ℕ, true, false};
ghost use Rattle.records.specs.Reading.{unread_of, with_unread};
ghost use Rattle.records.specs.Macroblocks.{blocks_from, difference_from, difference_of, head_from, head_of, macroblock_from, rest_from, sound_head};

use crate::faults::{MacroblockFault, Place};
use crate::fields::field;
use crate::reader::Words;
use crate::types::{Block, Difference, Head, Macroblock, MacroblockType, PictureKind, WordKind};

// Whether a type goes with the picture, and quantizer and pattern with the type.
fn is_sound(kind: PictureKind, coding: MacroblockType, quantizer: u8, pattern: u8) -> bool
    ensures { result ≡ sound_head kind coding quantizer pattern }
{
    match (kind, coding) {
        (PictureKind::Intra, MacroblockType::Skipped | MacroblockType::Inter) => false,
        (PictureKind::Inter, MacroblockType::Skipped) => quantizer == 0 && pattern == 0,
        (_, MacroblockType::Inter | MacroblockType::Intra) => quantizer > 0,
    }
}

// The head in a word.
fn head_of(word: u32, kind: PictureKind, place: Place) -> Result<Head, MacroblockFault>
    ensures { result ≡ head_of kind place word }
{
    let quantizer = field(word, 25, 21) as u8;
    let pattern = field(word, 20, 15) as u8;
    let Ok(coding) = MacroblockType::try_from(field(word, 27, 26)) else {
        return Err(MacroblockFault::Head(place));
    };
    if !is_sound(kind, coding, quantizer, pattern) {
        return Err(MacroblockFault::Head(place));
    }
    Ok(Head {
        coding,
        quantizer,
        pattern,
    })
}

// The difference in a vector word.
fn difference_of(word: u32) -> Difference
    ensures { result ≡ difference_of word }
{
    Difference {
        horizontal: field(word, 11, 6) as i8 - 32,
        vertical: field(word, 5, 0) as i8 - 32,
    }
}

// The macroblock's number comes with each call: kept in `Words`, each step would owe in a clause of its own that it stays.
impl<'a> Words<'a> {
    fn read_head(&mut self, kind: PictureKind, macroblock: usize) -> Result<Head, MacroblockFault>
        ensures { with_unread result (unread_of self.new) ≡ head_from kind (unread_of self.old) macroblock }
    {
        let place = self.place(macroblock, 6);
        let word = self.take(WordKind::Head, place)?;
        head_of(word, kind, place)
    }

    fn read_difference(&mut self, macroblock: usize) -> Result<Difference, MacroblockFault>
        ensures { with_unread result (unread_of self.new) ≡ difference_from (unread_of self.old) macroblock }
    {
        let place = self.place(macroblock, 6);
        let word = self.take(WordKind::Vector, place)?;
        Ok(difference_of(word))
    }

    // The six blocks of a macroblock. With `array::try_from_fn` the proof did not close: after which words a step's error came, and which words are left,
    // stayed open.
    fn read_blocks(
        &mut self,
        intra: bool,
        pattern: u8,
        macroblock: usize,
    ) -> Result<[Block; 6], MacroblockFault>
        ensures { with_unread result (unread_of self.new) ≡ blocks_from 6 intra pattern (unread_of self.old) macroblock 0 }
    {
        let mut gathered = [Block {
            dc: None,
            levels: [0; 64],
        }; 6];
        for block in 0..6u8 {
            gathered[block as usize] = self.read_block(intra, pattern, macroblock, block)?;
        }
        Ok(gathered)
    }

    // What follows a head.
    fn read_rest(&mut self, head: Head, macroblock: usize) -> Result<Macroblock, MacroblockFault>
        ensures { with_unread result (unread_of self.new) ≡ rest_from head.coding head.quantizer head.pattern (unread_of self.old) macroblock }
    {
        let quantizer = head.quantizer;
        let pattern = head.pattern;
        match head.coding {
            MacroblockType::Skipped => Ok(Macroblock::Skipped),
            MacroblockType::Inter => {
                let difference = self.read_difference(macroblock)?;
                let blocks = self.read_blocks(false, pattern, macroblock)?;
                Ok(Macroblock::Inter {
                    quantizer,
                    pattern,
                    difference,
                    blocks,
                })
            }
            MacroblockType::Intra => {
                let blocks = self.read_blocks(true, pattern, macroblock)?;
                Ok(Macroblock::Intra {
                    quantizer,
                    pattern,
                    blocks,
                })
            }
        }
    }

    // The next macroblock of a picture of a kind; so many were read before it.
    pub fn read_macroblock(
        &mut self,
        kind: PictureKind,
        macroblock: usize,
    ) -> Result<Macroblock, MacroblockFault>
        ensures { with_unread result (unread_of self.new) ≡ macroblock_from kind (unread_of self.old) macroblock }
    {
        let head = self.read_head(kind, macroblock)?;
        self.read_rest(head, macroblock)
    }
}
