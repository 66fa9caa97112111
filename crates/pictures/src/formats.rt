ghost use Rattle.std.specs.Prelude.{◌≡◌, ◌*◌, ◌≤◌, Some};
ghost use Rattle.pictures.specs.Formats.{columns_of, named, number_of, rows_of, unknown_text};

use std::error::Error;
use std::fmt;

// The three sizes of a picture, which go by the numbers 1, 2 and 3.
#[derive(Clone, Copy, PartialEq, Eq, Debug)]
pub enum Format {
    SubQcif,
    Qcif,
    Cif,
}

// A number that names no format.
#[derive(Clone, Copy, PartialEq, Eq, Debug)]
pub struct UnknownFormat(pub u8);

impl fmt::Display for UnknownFormat {
    ghost output = { λ unknown. Some (unknown_text unknown) };

    fn fmt<W: fmt::Write>(&self, f: &mut fmt::Formatter<W>) -> fmt::Result {
        write!(f, "no format has the number {}", self.0)
    }
}

impl Error for UnknownFormat {}

impl TryFrom<u8> for Format {
    type Error = UnknownFormat;

    ghost try_from_gives = { λ number outcome. outcome ≡ named number };

    fn try_from(number: u8) -> Result<Format, UnknownFormat> {
        match number {
            1 => Ok(Format::SubQcif),
            2 => Ok(Format::Qcif),
            3 => Ok(Format::Cif),
            _ => Err(UnknownFormat(number)),
        }
    }
}

impl From<Format> for u8 {
    ghost from_gives = { λ format number. number ≡ number_of format };

    fn from(format: Format) -> u8 {
        match format {
            Format::SubQcif => 1,
            Format::Qcif => 2,
            Format::Cif => 3,
        }
    }
}

impl Format {
    // The macroblocks across.
    pub fn columns(self) -> u16
        ensures value { result ≡ columns_of self }
        ensures few { result ≤ 22 }
    {
        match self {
            Format::SubQcif => 8,
            Format::Qcif => 11,
            Format::Cif => 22,
        }
    }

    // The macroblocks down.
    pub fn rows(self) -> u16
        ensures value { result ≡ rows_of self }
        ensures few { result ≤ 18 }
    {
        match self {
            Format::SubQcif => 6,
            Format::Qcif => 9,
            Format::Cif => 18,
        }
    }

    // The macroblocks of a picture, which is the number of cells of its tables.
    pub fn macroblocks(self) -> usize
        ensures value { result ≡ columns_of self * rows_of self }
        ensures few { result ≤ 396 }
    {
        match self {
            Format::SubQcif => 48,
            Format::Qcif => 99,
            Format::Cif => 396,
        }
    }

    // The samples of a picture in all three planes: 384 to a macroblock.
    pub fn samples(self) -> usize
        ensures { result ≡ columns_of self * rows_of self * 384 }
    {
        self.macroblocks() * 384
    }
}
