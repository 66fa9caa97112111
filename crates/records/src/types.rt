// What a delivery's words say, by types.

// The kind of a picture: an INTRA picture rests on no other and has INTRA macroblocks only.
#[derive(Clone, Copy)]
pub enum PictureKind {
    Intra,
    Inter,
}

// The kinds of word in a delivery.
#[derive(Clone, Copy)]
pub enum WordKind {
    Head,
    Vector,
    Dc,
    Coefficient,
}

// How a macroblock is coded: not at all, predicted from the finished picture, or by itself.
#[derive(Clone, Copy)]
pub enum MacroblockType {
    Skipped,
    Inter,
    Intra,
}

// A number that stands for nothing of the type that it was read as. (`samples` and `pictures` have errors of this shape of their own: the three crates
// know nothing of each other.)
#[derive(Clone, Copy, PartialEq, Eq, Debug)]
pub struct UnknownNumber {
    pub number: u32,
}

// A macroblock's head. The pattern's bit 5 - b is set where block b has coefficient words.
#[derive(Clone, Copy)]
pub struct Head {
    pub coding: MacroblockType,
    pub quantizer: u8,
    pub pattern: u8,
}

// A motion vector's difference from its predictor, in half samples, each part from -32 to 31.
#[derive(Clone, Copy)]
pub struct Difference {
    pub horizontal: i8,
    pub vertical: i8,
}

// A coefficient with its place on the zigzag; the last one ends its block.
#[derive(Clone, Copy)]
pub struct Coefficient {
    pub position: u8,
    pub level: i8,
    pub last: bool,
}

// A block: the code of its first coefficient where it is INTRA, and its levels by their place on the zigzag.
#[derive(Clone, Copy)]
pub struct Block {
    pub dc: Option<u8>,
    pub levels: [i8; 64],
}

// A macroblock as its words give it: blocks 0 to 3 are luma in raster order, 4 is Cb and 5 is Cr. (A block goes by its place in the array, which its bit
// in the pattern and the words themselves count by too.)
#[derive(Clone, Copy)]
pub enum Macroblock {
    Skipped,
    Inter {
        quantizer: u8,
        pattern: u8,
        difference: Difference,
        blocks: [Block; 6],
    },
    Intra {
        quantizer: u8,
        pattern: u8,
        blocks: [Block; 6],
    },
}

// What an accepted delivery is answered: the number of its words, and of its INTRA macroblocks.
#[derive(Clone, Copy)]
pub struct Delivered {
    pub words: usize,
    pub intra: usize,
}
