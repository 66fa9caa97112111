// Reading word by word.
ghost use Rattle.std.specs.Prelude.{◌≡◌};
ghost use Rattle.records.specs.Words.{words_of};
ghost use Rattle.records.specs.Reading.{place_at, unread_of, with_unread, word_from};

use crate::faults::{Place, WordFault};
use crate::fields::{field, split_word};
use crate::reader::Words;
use crate::types::WordKind;

impl<'a> Words<'a> {
    // A reader at the first word of the bytes.
    pub fn new(bytes: &'a [u8]) -> Words<'a>
        ensures { unread_of result ≡ (words_of bytes.now, 0) }
    {
        Words {
            rest: bytes,
            index: 0,
        }
    }

    // The place of the next word, in a macroblock and a block.
    pub(crate) fn place(&self, macroblock: usize, block: u8) -> Place
        ensures { result ≡ place_at (unread_of self.now) macroblock block }
    {
        Place {
            word: self.index,
            macroblock,
            block,
        }
    }

    // The next word, which has to be of the kind that is due, with its unnamed bits zero.
    pub(crate) fn take(&mut self, due: WordKind, place: Place) -> Result<u32, WordFault>
        ensures { with_unread result (unread_of self.new) ≡ word_from due place (unread_of self.old) }
    {
        let Some((word, rest)) = split_word(self.rest) else {
            return Err(WordFault::Missing(place));
        };
        if field(word, 31, 28) != u32::from(due) {
            return Err(WordFault::Kind(place));
        }
        if due.unnamed(word) != 0 {
            return Err(WordFault::Unnamed(place));
        }
        self.rest = rest;
        self.index += 1;
        Ok(word)
    }
}
