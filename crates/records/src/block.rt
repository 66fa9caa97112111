// Reading a block.
ghost use Rattle.std.specs.Prelude.{◌≡◌, ℕ, ◌<◌, IfOk};
ghost use Rattle.records.specs.Reading.{unread_of, with_unread};
ghost use Rattle.records.specs.Blocks.{block_from, code_from, code_of, coded_in, coefficient_of, first_position, levels_from, no_levels};

use crate::faults::{BlockFault, Place};
use crate::fields::field;
use crate::reader::Words;
use crate::types::{Block, Coefficient, WordKind};

// The code in a word of the block due: codes 0 and 128 are forbidden.
fn code_of(word: u32, place: Place) -> Result<u8, BlockFault>
    ensures { result ≡ code_of place word }
{
    if field(word, 27, 25) != u32::from(place.block) {
        return Err(BlockFault::Number(place));
    }
    let code = field(word, 7, 0) as u8;
    if code == 0 || code == 128 {
        return Err(BlockFault::Level(place));
    }
    Ok(code)
}

// The coefficient in a word, put after its run from a position on. Its level is its code in two's complement.
fn coefficient_of(word: u32, place: Place, from: u8) -> Result<Coefficient, BlockFault>
    ensures value { result ≡ coefficient_of place from word }
    ensures within { IfOk result (λ x. x.position < 64) }
{
    let level = code_of(word, place)?.cast_signed();
    let position = from.saturating_add(field(word, 24, 19) as u8);
    if position > 63 {
        return Err(BlockFault::Position(place));
    }
    Ok(Coefficient {
        position,
        level,
        last: field(word, 18, 18) == 1,
    })
}

// Whether a pattern has a block's bit.
pub fn is_coded(pattern: u8, block: u8) -> bool
    ensures { result ≡ coded_in pattern block }
{
    (pattern >> 5u8.saturating_sub(block)) % 2 == 1
}

// Where a block's positions begin.
fn first_position(intra: bool) -> u8
    ensures { result ≡ first_position intra }
{
    u8::from(intra)
}

impl<'a> Words<'a> {
    // The code of an INTRA block's first coefficient.
    fn read_code(&mut self, macroblock: usize, block: u8) -> Result<u8, BlockFault>
        ensures { with_unread result (unread_of self.new) ≡ code_from (unread_of self.old) macroblock block }
    {
        let place = self.place(macroblock, block);
        let word = self.take(WordKind::Dc, place)?;
        code_of(word, place)
    }

    // The levels of a block that has coefficients, up to the one that is the last.
    fn read_levels(
        &mut self,
        macroblock: usize,
        block: u8,
        first: u8,
    ) -> Result<[i8; 64], BlockFault>
        ensures { with_unread result (unread_of self.new) ≡ levels_from (unread_of self.old) macroblock block first no_levels }
    {
        let mut levels = [0i8; 64];
        let mut from = first;
        loop {
            let place = self.place(macroblock, block);
            let word = self.take(WordKind::Coefficient, place)?;
            let found = coefficient_of(word, place, from)?;
            levels[found.position as usize] = found.level;
            if found.last {
                return Ok(levels);
            }
            from = found.position + 1;
        }
    }

    // One block of a macroblock. (A flag and the pattern, and not the head: a head may be of a skipped macroblock, which has no blocks.)
    pub(crate) fn read_block(
        &mut self,
        intra: bool,
        pattern: u8,
        macroblock: usize,
        block: u8,
    ) -> Result<Block, BlockFault>
        ensures { with_unread result (unread_of self.new) ≡ block_from intra pattern (unread_of self.old) macroblock block }
    {
        let dc = if intra {
            Some(self.read_code(macroblock, block)?)
        } else {
            None
        };
        let levels = if is_coded(pattern, block) {
            self.read_levels(macroblock, block, first_position(intra))?
        } else {
            [0; 64]
        };
        Ok(Block { dc, levels })
    }
}
