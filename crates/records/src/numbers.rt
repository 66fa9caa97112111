// The numbers that stand for kinds and types.
ghost use Rattle.std.specs.Prelude.{◌≡◌};
ghost use Rattle.records.specs.Words.{kind_number};
ghost use Rattle.records.specs.Macroblocks.{type_of};
ghost use Rattle.records.specs.Numbers.{numbered, picture_kind_of};

use crate::types::{MacroblockType, PictureKind, UnknownNumber, WordKind};

impl From<WordKind> for u32 {
    ghost from_gives = { λ kind number. number ≡ kind_number kind };

    // The kind's number, which stands in the top four bits of its words.
    fn from(kind: WordKind) -> u32 {
        match kind {
            WordKind::Head => 1,
            WordKind::Vector => 2,
            WordKind::Dc => 3,
            WordKind::Coefficient => 4,
        }
    }
}

impl TryFrom<u32> for MacroblockType {
    type Error = UnknownNumber;

    ghost try_from_gives = { λ number kind. kind ≡ numbered type_of number };

    fn try_from(number: u32) -> Result<MacroblockType, UnknownNumber> {
        match number {
            0 => Ok(MacroblockType::Skipped),
            1 => Ok(MacroblockType::Inter),
            2 => Ok(MacroblockType::Intra),
            _ => Err(UnknownNumber { number }),
        }
    }
}

impl TryFrom<u32> for PictureKind {
    type Error = UnknownNumber;

    ghost try_from_gives = { λ number kind. kind ≡ numbered picture_kind_of number };

    fn try_from(number: u32) -> Result<PictureKind, UnknownNumber> {
        match number {
            0 => Ok(PictureKind::Intra),
            1 => Ok(PictureKind::Inter),
            _ => Err(UnknownNumber { number }),
        }
    }
}
