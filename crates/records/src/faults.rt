// Why a delivery is refused. Each layer's fault holds the fault of the layer below it whole.
ghost use Rattle.std.specs.Prelude.{◌≡◌};
ghost use Rattle.records.specs.declared.faults.BlockFault.TheVariants.{Word as word_in_block};
ghost use Rattle.records.specs.declared.faults.MacroblockFault.TheVariants.{Block as block_in_macroblock, Word as word_in_macroblock};
ghost use Rattle.records.specs.declared.faults.SegmentFault.TheVariants.{Macroblock as macroblock_in_segment, Word as word_in_segment};
ghost use Rattle.records.specs.Faults.{block_refusal, macroblock_refusal, placed, segment_refusal, word_refusal};

// Where a fault lies: the index of the word concerned, the macroblocks read whole before it, and the block due. Where
// none is due the block is 6, no `None`, since that number is part of what a refusal tells.
#[derive(Clone, Copy)]
pub struct Place {
    pub word: usize,
    pub macroblock: usize,
    pub block: u8,
}

// The bytes are no words, no word is left where one is due, or a word is not of the form that is due.
#[derive(Clone, Copy)]
pub enum WordFault {
    ByteCount,
    Missing(Place),
    Kind(Place),
    Unnamed(Place),
}

// A word names another block than the one due, has a forbidden code or level, or leads past the last position.
#[derive(Clone, Copy)]
pub enum BlockFault {
    Word(WordFault),
    Number(Place),
    Level(Place),
    Position(Place),
}

// A head's type, quantizer and pattern do not go together, or not with the picture.
#[derive(Clone, Copy)]
pub enum MacroblockFault {
    Word(WordFault),
    Block(BlockFault),
    Head(Place),
}

// A word is left after the last macroblock.
#[derive(Clone, Copy)]
pub enum SegmentFault {
    Word(WordFault),
    Macroblock(MacroblockFault),
    LeftOver(Place),
}

impl From<WordFault> for BlockFault {
    ghost from_gives = { λ x y. y ≡ word_in_block x };

    fn from(value: WordFault) -> BlockFault {
        BlockFault::Word(value)
    }
}

impl From<WordFault> for MacroblockFault {
    ghost from_gives = { λ x y. y ≡ word_in_macroblock x };

    fn from(value: WordFault) -> MacroblockFault {
        MacroblockFault::Word(value)
    }
}

impl From<BlockFault> for MacroblockFault {
    ghost from_gives = { λ x y. y ≡ block_in_macroblock x };

    fn from(value: BlockFault) -> MacroblockFault {
        MacroblockFault::Block(value)
    }
}

impl From<WordFault> for SegmentFault {
    ghost from_gives = { λ x y. y ≡ word_in_segment x };

    fn from(value: WordFault) -> SegmentFault {
        SegmentFault::Word(value)
    }
}

impl From<MacroblockFault> for SegmentFault {
    ghost from_gives = { λ x y. y ≡ macroblock_in_segment x };

    fn from(value: MacroblockFault) -> SegmentFault {
        SegmentFault::Macroblock(value)
    }
}

// The layer that a refusal speaks of.
#[derive(Clone, Copy)]
pub enum Layer {
    Picture,
    Words,
    Macroblock,
    Block,
    Segment,
}

// What a refusal tells its reader.
#[derive(Clone, Copy)]
pub struct Refusal {
    pub number: u8,
    pub layer: Layer,
    pub word: usize,
    pub macroblock: usize,
    pub block: u8,
}

impl Place {
    // The refusal of a number, at this place.
    fn refusal(self, number: u8, layer: Layer) -> Refusal
        ensures { result ≡ placed number layer self }
    {
        Refusal {
            number,
            layer,
            word: self.word,
            macroblock: self.macroblock,
            block: self.block,
        }
    }
}

impl WordFault {
    pub fn refusal(self) -> Refusal
        ensures { result ≡ word_refusal self }
    {
        match self {
            WordFault::ByteCount => Refusal {
                number: 9,
                layer: Layer::Words,
                word: 0,
                macroblock: 0,
                block: 6,
            },
            WordFault::Missing(place) => place.refusal(10, Layer::Words),
            WordFault::Kind(place) => place.refusal(11, Layer::Words),
            WordFault::Unnamed(place) => place.refusal(12, Layer::Words),
        }
    }
}

impl BlockFault {
    pub fn refusal(self) -> Refusal
        ensures { result ≡ block_refusal self }
    {
        match self {
            BlockFault::Word(fault) => fault.refusal(),
            BlockFault::Number(place) => place.refusal(14, Layer::Block),
            BlockFault::Level(place) => place.refusal(15, Layer::Block),
            BlockFault::Position(place) => place.refusal(16, Layer::Block),
        }
    }
}

impl MacroblockFault {
    pub fn refusal(self) -> Refusal
        ensures { result ≡ macroblock_refusal self }
    {
        match self {
            MacroblockFault::Word(fault) => fault.refusal(),
            MacroblockFault::Block(fault) => fault.refusal(),
            MacroblockFault::Head(place) => place.refusal(13, Layer::Macroblock),
        }
    }
}

impl SegmentFault {
    pub fn refusal(self) -> Refusal
        ensures { result ≡ segment_refusal self }
    {
        match self {
            SegmentFault::Word(fault) => fault.refusal(),
            SegmentFault::Macroblock(fault) => fault.refusal(),
            SegmentFault::LeftOver(place) => place.refusal(17, Layer::Segment),
        }
    }
}
