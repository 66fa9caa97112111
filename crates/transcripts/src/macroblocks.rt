// A macroblock of a delivery, as the text of a line.
ghost use Rattle.std.specs.Prelude.{Some};
ghost use Rattle.transcripts.specs.Macroblocks.{coded_text, dcs_text, difference_text, macroblock_text, numbered_text, six_bits};

use records::types::{Block, Difference, Macroblock};
use script::show::coefficients;
use std::fmt;

// A pattern by its six bits, that of block 0 first.
#[derive(Clone, Copy)]
struct Bits {
    pattern: u8,
}

impl fmt::Display for Bits {
    ghost output = { λ b. Some (six_bits b.pattern) };

    fn fmt<W: fmt::Write>(&self, f: &mut fmt::Formatter<W>) -> fmt::Result {
        let pattern = self.pattern;
        write!(f, "{pattern:06b}")
    }
}

// What the line of every macroblock has that is not skipped.
#[derive(Clone, Copy)]
struct Coded {
    quantizer: u8,
    pattern: u8,
}

impl fmt::Display for Coded {
    ghost output = { λ c. Some (coded_text c.quantizer c.pattern) };

    fn fmt<W: fmt::Write>(&self, f: &mut fmt::Formatter<W>) -> fmt::Result {
        let quantizer = self.quantizer;
        let bits = Bits {
            pattern: self.pattern,
        };
        write!(f, "quantizer {quantizer} pattern {bits}")
    }
}

// The parts of a vector's difference.
#[derive(Clone, Copy)]
struct Parts {
    difference: Difference,
}

impl fmt::Display for Parts {
    ghost output = { λ p. Some (difference_text p.difference) };

    fn fmt<W: fmt::Write>(&self, f: &mut fmt::Formatter<W>) -> fmt::Result {
        let Difference {
            horizontal,
            vertical,
        } = self.difference;
        write!(f, "{horizontal} {vertical}")
    }
}

// The codes of the blocks' first coefficients, each after a space.
#[derive(Clone, Copy)]
struct Codes<'a> {
    blocks: &'a [Block],
}

impl fmt::Display for Codes<'_> {
    ghost output = { λ c. Some (dcs_text c.blocks.now) };

    fn fmt<W: fmt::Write>(&self, f: &mut fmt::Formatter<W>) -> fmt::Result {
        for block in self.blocks {
            let code = block.dc.unwrap_or(0);
            write!(f, " {code}")?;
        }
        Ok(())
    }
}

// What a macroblock's line has after its index.
#[derive(Clone, Copy)]
struct Kept<'a> {
    macroblock: &'a Macroblock,
}

impl fmt::Display for Kept<'_> {
    ghost output = { λ k. Some (macroblock_text k.macroblock.now) };

    fn fmt<W: fmt::Write>(&self, f: &mut fmt::Formatter<W>) -> fmt::Result {
        match self.macroblock {
            Macroblock::Skipped => f.write_str("skipped"),
            Macroblock::Inter {
                quantizer,
                pattern,
                difference,
                blocks,
            } => {
                let coded = Coded {
                    quantizer: *quantizer,
                    pattern: *pattern,
                };
                let parts = Parts {
                    difference: *difference,
                };
                let count = coefficients(blocks);
                write!(f, "INTER {coded} vector {parts} coefficients {count}")
            }
            Macroblock::Intra {
                quantizer,
                pattern,
                blocks,
            } => {
                let coded = Coded {
                    quantizer: *quantizer,
                    pattern: *pattern,
                };
                let codes = Codes { blocks };
                let count = coefficients(blocks);
                write!(f, "INTRA {coded} dc{codes} coefficients {count}")
            }
        }
    }
}

// A macroblock with its index in the delivery.
#[derive(Clone, Copy)]
pub struct Numbered<'a> {
    pub index: usize,
    pub macroblock: &'a Macroblock,
}

impl fmt::Display for Numbered<'_> {
    ghost output = { λ n. Some (numbered_text n.index n.macroblock.now) };

    fn fmt<W: fmt::Write>(&self, f: &mut fmt::Formatter<W>) -> fmt::Result {
        let index = self.index;
        let kept = Kept {
            macroblock: self.macroblock,
        };
        write!(f, "macroblock {index} {kept}")
    }
}
